//! What is made of an input: the opening of a program, the object of a text, and what a trace is judged.

ghost use Rattle.std.specs.Prelude.{◌≡◌, ◌≤◌, Err, IfOk, length};
ghost use Rattle.spur_trace.specs.Formed.{IsHead};
ghost use Rattle.spur_loader.specs.Limits.{IsOptions};
ghost use Rattle.spur_input.specs.declared.refusal.Refusal.{Refusal as Reason};
ghost use Rattle.spur_input.specs.Program.{IsLoadedOpening, IsObjectOf, IsOpeningOf, check_limit, program_limit};
ghost use Rattle.spur_input.specs.Judged.{IsVerdictOn, head_options};
ghost use Rattle.spur_input.specs.Refused.{IsRefusedToAssemble, IsRefusedToCheck, IsRefusedToRun};

use crate::cut::parts;
use crate::reading::{program_unit, text_unit, trace_entries, trace_head, unit_opening};
use crate::refusal::NotAccepted;
use spur_check::{Verdict, check};
use spur_loader::{Opening, Options};
use spur_object::write_object;
use spur_trace::TraceHead;
use std::alloc::Global;

/// The opening with which the boards of a program begin, with these options; or why the program is refused.
///
/// An input whose first byte is 93 in hexadecimal is read as an object, and any other as a text. It has at most
/// 1,048,576 bytes. It is refused for its first fault, and else for the load fault that applies to its unit. `NoMemory`
/// where memory is wanting.
pub fn program_opening(
    alloc: Global,
    input: &[u8],
    options: &Options,
) -> Result<Opening, NotAccepted>
    requires within { length input.now ≤ program_limit }
    requires options { IsOptions options.now }
    ensures opened { IfOk result (IsOpeningOf options.now input.now) }
    ensures loaded { IfOk result IsLoadedOpening }
    ensures refused { (refusal : Reason) → result ≡ Err (NotAccepted.Refused refusal)
        → IsRefusedToRun options.now input.now refusal }
{
    let unit = program_unit(alloc, input)?;
    let opening = unit_opening(alloc, &unit, options)?;
    Ok(opening)
}

/// The object of the unit that a text says; or why the text is refused, for its first fault.
///
/// Texts alone are read, so an object is refused at its first byte. The text has at most 1,048,576 bytes. `NoMemory`
/// where memory is wanting.
pub fn object_of(alloc: Global, text: &[u8]) -> Result<Vec<u8>, NotAccepted>
    requires { length text.now ≤ program_limit }
    ensures object { IfOk result (λ bytes. IsObjectOf text.now bytes.items) }
    ensures refused { (refusal : Reason) → result ≡ Err (NotAccepted.Refused refusal)
        → IsRefusedToAssemble text.now refusal }
{
    let unit = text_unit(alloc, text)?;
    let bytes = write_object(alloc, &unit)?;
    Ok(bytes)
}

/// The options with which the program of a trace is loaded.
fn head_options(budget: u32, head: &TraceHead) -> Options
    requires head { IsHead head.now }
    requires some { 1 ≤ budget }
    requires few { budget ≤ 250000 }
    ensures options { result ≡ head_options budget head.now }
    ensures range { IsOptions result }
{
    Options {
        frames: head.frames,
        lines: head.lines,
        budget,
        ahead: 0,
    }
}

/// What the trace behind a program's text is judged, where each board may do so many instructions; or why the input is
/// refused.
///
/// The text ends where a line begins with a percent sign, and the trace begins there. The input has at most 67,108,864
/// bytes, and `budget` is 1 to 250,000. The input is refused for the first fault of the text; else for the first line
/// of the trace, where that is no header, and then where it is of another number of boards than the text; else for the
/// load fault that applies to the text's unit with the header's frames and lines; and else for the first later line
/// that is none of a trace. `NoMemory` where memory is wanting.
pub fn judge(alloc: Global, input: &[u8], budget: u32) -> Result<Verdict, NotAccepted>
    requires within { length input.now ≤ check_limit }
    requires some { 1 ≤ budget }
    requires few { budget ≤ 250000 }
    ensures judged { IfOk result (IsVerdictOn budget input.now) }
    ensures refused { (refusal : Reason) → result ≡ Err (NotAccepted.Refused refusal)
        → IsRefusedToCheck budget input.now refusal }
{
    let (program, trace) = parts(input);
    let unit = text_unit(alloc, program)?;
    let head = trace_head(trace, unit.boards.len())?;
    let options = head_options(budget, &head);
    let opening = unit_opening(alloc, &unit, &options)?;
    let entries = trace_entries(alloc, trace)?;
    let verdict = check(alloc, opening, entries.as_slice())?;
    Ok(verdict)
}
