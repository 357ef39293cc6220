//! Laws of caches that hold nothing, each shown by a function that does nothing.

ghost use Rattle.spur_bus.specs.Empty.{EmptyHasNoTags, NoLineIsMemory};

/// Where no cache has a line, the logical memory is the memory.
pub fn no_line_is_memory()
    ensures { NoLineIsMemory }
{}

/// The tags of empty caches are no tags: no line of any board holds anything.
pub fn empty_caches_have_no_tags()
    ensures { EmptyHasNoTags }
{}
