//! What ties the writing of traces to their reading. Nothing runs here: each function stands for what its contract says
//! of every text.

ghost use Rattle.spur_trace.specs.Laws.{EachIsOneLine, NoEntryInFront, NoLineOfTwo, NoTextOfTwo, OneFault, OneHeader, RoomIsEnough, TraceHasHeader, TracesHaveNoFault};

/// No line is that of two entries, and none begins another.
pub fn no_line_of_two()
    ensures { NoLineOfTwo }
{}

/// No text is the trace of two heads or of two lists of entries.
pub fn no_text_of_two()
    ensures { NoTextOfTwo }
{}

/// A trace has no fault.
pub fn traces_have_no_fault()
    ensures { TracesHaveNoFault }
{}

/// No text has two faults.
pub fn one_fault()
    ensures { OneFault }
{}

/// No text has two headers.
pub fn one_header()
    ensures { OneHeader }
{}

/// The first line of a trace is that of its header.
pub fn trace_has_header()
    ensures { TraceHasHeader }
{}

/// The line of an entry or of a header is one line: the line feed at its end is its only one.
pub fn each_is_one_line()
    ensures { EachIsOneLine }
{}

/// The first line of a text is that of no well-formed entry, or lacks its line feed, exactly where the text begins with
/// no written line of such an entry.
pub fn no_entry_in_front()
    ensures { NoEntryInFront }
{}

/// The room for a trace's text is as much as the text needs, and at most twice that.
pub fn room_is_enough()
    ensures { RoomIsEnough }
{}
