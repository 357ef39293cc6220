//! Answers: what is written, the status that goes with it, and what is given.

ghost use Rattle.std.specs.Prelude.{true, ◌≡◌, ◌≢◌, None, Some};
ghost use Rattle.std.specs.List.{All, list_all};
ghost use Rattle.spur_flat.specs.WellFormed.{IsWellFormed};
ghost use Rattle.spur_input.specs.Texts.{refusal_line};
ghost use Rattle.spur_input.specs.declared.refusal.Refusal.{Refusal as Reason};
ghost use Rattle.spur_input.specs.declared.refusal.Refusal.TheVariants.{TooLong};
ghost use Rattle.spur_io.specs.Faults.{Rose};
ghost use Rattle.spur_report.specs.Texts.{report_text};
ghost use Rattle.spur_trace.specs.Faults.{IsTrace};
ghost use Rattle.spur_trace.specs.Formed.{IsHead};
ghost use Rattle.spur_trace.specs.Line.{trace_text};
ghost use Rattle.spur_program.specs.Answer.{IsSaid, IsSilent, IsWritten, fault_status, has_halted, verdict_status};
ghost use Rattle.spur_program.specs.Answer.{status_of as run_status};
ghost use Rattle.spur_program.specs.Texts.{verdict_line, words_line as number_line};

use crate::plain::Reported;
use crate::report::{Outcome, Status};
use crate::run::{NotFinished, RunFault};
use crate::text;
use spur_board::Ending;
use spur_check::Verdict;
use spur_input::{NotAccepted, Refusal, refusal_line};
use spur_io::{ReadAll, Sink, put_all};
use spur_report::{BoardReport, Flags, Report};
use std::alloc::{AllocError, Global};

/// Whether a board completed a `halt`.
fn halted(board: &BoardReport) -> bool
    ensures { result ≡ has_halted board.now }
{
    matches!(board.ending, Some(Ending::Halted))
}

/// Whether every board completed a `halt`.
fn all_halted(boards: &[BoardReport]) -> bool
    ensures { result ≡ list_all has_halted boards.now }
{
    for board in boards {
        if !halted(board) {
            return false;
        }
    }
    true
}

/// The status of a run: Stopped where a probe stopped it; else Fine where every board halted, and else Ended.
fn status_of(report: &Report) -> Status
    ensures { result ≡ run_status report.now }
{
    if report.stopped.is_some() {
        Status::Stopped
    } else if all_halted(report.boards.as_slice()) {
        Status::Fine
    } else {
        Status::Ended
    }
}

/// The status of a verdict: Fine where it is good, else Ended.
fn verdict_status(verdict: Verdict) -> Status
    ensures { result ≡ verdict_status verdict }
{
    match verdict {
        Verdict::Good { .. } => Status::Fine,
        Verdict::Bad { .. } => Status::Ended,
    }
}

/// Puts a text, with the status that goes with it.
fn say<K: Sink>(sink: &mut K, text: &[u8], status: Status) -> Status
    requires { status ≢ Status.WriteFault }
    ensures written { IsWritten text.now status result (K.written sink.old) (K.written sink.new) }
    ensures write { result ≡ Status.WriteFault → Rose (K.faults sink.old) (K.faults sink.new) }
{
    match put_all(sink, text) {
        Ok(()) => status,
        Err(_) => Status::WriteFault,
    }
}

/// A status alone: nothing is given and nothing is written, and the swap is handed back.
pub(crate) fn silent<B>(status: Status, backing: B) -> Outcome<B>
    ensures status { result.status ≡ status }
    ensures report { result.report ≡ None }
    ensures verdict { result.verdict ≡ None }
    ensures backing { result.backing ≡ backing }
{
    Outcome {
        status,
        report: None,
        verdict: None,
        backing,
    }
}

/// An answer for which no boards are run: its text is written, and the swap is handed back.
pub(crate) fn answer_with<K: Sink, B>(
    sink: &mut K,
    text: &[u8],
    status: Status,
    verdict: Option<Verdict>,
    backing: B,
) -> Outcome<B>
    requires { status ≢ Status.WriteFault }
    ensures said { IsSaid text.now status verdict (K.written sink.old) (K.written sink.new) backing result }
    ensures write { result.status ≡ Status.WriteFault → Rose (K.faults sink.old) (K.faults sink.new) }
{
    Outcome {
        status: say(sink, text, status),
        report: None,
        verdict,
        backing,
    }
}

/// The refusal of a word of the command line, by its number. Want of memory for its line leaves nothing written.
pub(crate) fn refuse_words<K: Sink, B>(
    alloc: Global,
    number: usize,
    sink: &mut K,
    backing: B,
) -> Outcome<B>
    ensures said { IsSaid (number_line number) Status.Words None
        (K.written sink.old) (K.written sink.new) backing result }
    ensures write { result.status ≡ Status.WriteFault → Rose (K.faults sink.old) (K.faults sink.new) }
{
    match text::words_line(alloc, number) {
        Ok(line) => answer_with(sink, line.as_slice(), Status::Words, None, backing),
        Err(AllocError) => silent(Status::NoMemory, backing),
    }
}

/// The refusal of an input. Want of memory for its line leaves nothing written.
fn refuse_input<K: Sink, B>(alloc: Global, refusal: Refusal, sink: &mut K, backing: B) -> Outcome<B>
    ensures said { IsSaid (refusal_line refusal) Status.Input None
        (K.written sink.old) (K.written sink.new) backing result }
    ensures write { result.status ≡ Status.WriteFault → Rose (K.faults sink.old) (K.faults sink.new) }
{
    match refusal_line(alloc, refusal) {
        Ok(line) => answer_with(sink, line.as_slice(), Status::Input, None, backing),
        Err(AllocError) => silent(Status::NoMemory, backing),
    }
}

/// The answer to an input that is not accepted.
pub(crate) fn not_accepted<K: Sink, B>(
    alloc: Global,
    why: NotAccepted,
    sink: &mut K,
    backing: B,
) -> Outcome<B>
    ensures refused { (refusal : Reason) → why ≡ NotAccepted.Refused refusal
        → IsSaid (refusal_line refusal) Status.Input None (K.written sink.old) (K.written sink.new) backing result }
    ensures memory { why ≡ NotAccepted.NoMemory
        → IsSilent Status.NoMemory (K.written sink.old) (K.written sink.new) backing result }
    ensures write { result.status ≡ Status.WriteFault → Rose (K.faults sink.old) (K.faults sink.new) }
{
    match why {
        NotAccepted::Refused(refusal) => refuse_input(alloc, refusal, sink, backing),
        NotAccepted::NoMemory => silent(Status::NoMemory, backing),
    }
}

/// The answer where an input of at most so many bytes was not read whole.
pub(crate) fn not_read<K: Sink, B>(
    alloc: Global,
    why: ReadAll,
    limit: u32,
    sink: &mut K,
    backing: B,
) -> Outcome<B>
    ensures too_long { why ≡ ReadAll.TooLong → IsSaid (refusal_line (TooLong limit)) Status.Input None
        (K.written sink.old) (K.written sink.new) backing result }
    ensures fault { why ≡ ReadAll.ReadFault
        → IsSilent Status.ReadFault (K.written sink.old) (K.written sink.new) backing result }
    ensures memory { why ≡ ReadAll.NoMemory
        → IsSilent Status.NoMemory (K.written sink.old) (K.written sink.new) backing result }
    ensures write { result.status ≡ Status.WriteFault → Rose (K.faults sink.old) (K.faults sink.new) }
{
    match why {
        ReadAll::TooLong => refuse_input(alloc, Refusal::TooLong { most: limit }, sink, backing),
        ReadAll::ReadFault => silent(Status::ReadFault, backing),
        ReadAll::NoMemory => silent(Status::NoMemory, backing),
    }
}

/// Puts the text of a report, with what its flags ask for. Want of memory for it leaves nothing written.
fn put_report<K: Sink>(alloc: Global, report: &Report, flags: Flags, sink: &mut K) -> Status
    requires head { IsHead report.now.head }
    requires entries { All (IsWellFormed report.now.head.boards) report.now.history }
    ensures written { IsWritten (report_text report.now flags) (run_status report.now) result
        (K.written sink.old) (K.written sink.new) }
    ensures read_back { flags.trace ≡ true → result ≢ Status.NoMemory
        → IsTrace (trace_text report.now.head report.now.history) report.now.head report.now.history }
    ensures write { result ≡ Status.WriteFault → Rose (K.faults sink.old) (K.faults sink.new) }
{
    match spur_report::text(alloc, report, &flags) {
        Ok(text) => say(sink, text.as_slice(), status_of(report)),
        Err(AllocError) => Status::NoMemory,
    }
}

/// Writes a report, with what its flags ask for. Want of memory for its text leaves nothing written.
pub(crate) fn tell<K: Sink, B>(
    alloc: Global,
    done: Reported<B>,
    flags: Flags,
    sink: &mut K,
) -> Outcome<B>
    requires head { IsHead done.report.head }
    requires entries { All (IsWellFormed done.report.head.boards) done.report.history }
    ensures report { result.report ≡ Some done.report }
    ensures verdict { result.verdict ≡ None }
    ensures backing { result.backing ≡ done.backing }
    ensures written { IsWritten (report_text done.report flags) (run_status done.report) result.status
        (K.written sink.old) (K.written sink.new) }
    ensures read_back { flags.trace ≡ true → result.status ≢ Status.NoMemory
        → IsTrace (trace_text done.report.head done.report.history) done.report.head done.report.history }
    ensures write { result.status ≡ Status.WriteFault → Rose (K.faults sink.old) (K.faults sink.new) }
{
    let Reported { report, backing } = done;
    Outcome {
        status: put_report(alloc, &report, flags, sink),
        report: Some(report),
        verdict: None,
        backing,
    }
}

/// Writes a verdict. Want of memory for its line leaves nothing written.
pub(crate) fn tell_verdict<K: Sink, B>(
    alloc: Global,
    verdict: Verdict,
    sink: &mut K,
    backing: B,
) -> Outcome<B>
    ensures said { IsSaid (verdict_line verdict) (verdict_status verdict) (Some verdict)
        (K.written sink.old) (K.written sink.new) backing result }
    ensures write { result.status ≡ Status.WriteFault → Rose (K.faults sink.old) (K.faults sink.new) }
{
    let status = match text::verdict_line(alloc, verdict) {
        Ok(line) => say(sink, line.as_slice(), verdict_status(verdict)),
        Err(AllocError) => Status::NoMemory,
    };
    Outcome {
        status,
        report: None,
        verdict: Some(verdict),
        backing,
    }
}

/// The status of a run that did not come to its end.
fn status_of_fault(fault: RunFault) -> Status
    ensures { result ≡ fault_status fault }
{
    match fault {
        RunFault::SwapAtStart => Status::SwapAtStart,
        RunFault::NoMemory => Status::NoMemory,
    }
}

/// The answer of a run that did not come to its end: nothing is written.
pub(crate) fn not_run<B>(refused: NotFinished<B>) -> Outcome<B>
    ensures status { result.status ≡ fault_status refused.fault }
    ensures report { result.report ≡ None }
    ensures verdict { result.verdict ≡ None }
    ensures backing { result.backing ≡ refused.backing }
{
    let NotFinished { fault, backing } = refused;
    silent(status_of_fault(fault), backing)
}
