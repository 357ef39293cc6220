//! A law of how worlds begin, shown by a function that does nothing.

ghost use Rattle.spur_core.specs.Loaded.{LoadedMayBegin};

/// A world may begin with what the loader gives for a program without a load fault, and with plain processors of its code:
/// each processor is at the beginning of its board's code, with room for the values that the budget lets it show.
pub fn loaded_may_begin()
    ensures { LoadedMayBegin }
{}
