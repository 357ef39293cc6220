//! The top calls: all that the program does, and all of it that needs no threads.

ghost use Rattle.std.specs.Prelude.{[], IsSome, ◌≡◌, ◌≢◌, ◌<◌, IfSome, None, Ok, map};
ghost use Rattle.spur_io.specs.Faults.{Rose};
ghost use Rattle.spur_io.specs.Told.{Gains};
ghost use Rattle.spur_probe.specs.Shown.{told};
ghost use Rattle.spur_program.specs.Accepted.{asked_alone_by, asked_by};
ghost use Rattle.spur_program.specs.Answer.{AnswersRefusal, AnswersWords, ByTask, EndedOtherwise, HandsBack, HasReadFault, HasSwapFault, IsComplete, IsHeadline, IsInputRefused, IsJudgement, IsStillGiven, MayGive, MayJudge, WasDone, WasStopped, Way};
ghost use Rattle.spur_words.specs.Tasks.{IsAlone, IsTaskInRange};

use crate::answers::refuse_words;
use crate::commands::{
    assemble_text, check_trace, generate_text, run_program, run_program_on_threads,
};
use crate::report::{Outcome, Status};
use spur_io::{Sink, Source};
use spur_probe::Probe;
use spur_swap::Backing;
use spur_threads::Gate;
use spur_words::{Order, Task, task_alone, task_of};
use std::alloc::Global;
use std::sync::Wait;
use std::thread::Threads;

/// What is done for a task that needs no threads.
fn answer_task<S: Source, K: Sink, B: Backing>(
    alloc: Global,
    task: Task,
    source: &mut S,
    sink: &mut K,
    backing: B,
    probes: Vec<Box<dyn Probe>>,
) -> Outcome<B>
    requires range { IsTaskInRange task }
    requires alone { IsAlone task }
    ensures way { Way B.meaning (map (λ b. told (rule b) (reads b) (kept b)) probes.items) (Ok task)
        (S.left source.old) (S.left source.new) (K.written sink.old) (K.written sink.new) backing result }
    ensures read { result.status ≡ Status.ReadFault → Rose (S.faults source.old) (S.faults source.new) }
    ensures write { result.status ≡ Status.WriteFault → Rose (K.faults sink.old) (K.faults sink.new) }
{
    match task {
        Task::Run {
            order,
            options,
            flags,
        } => {
            let Order::Scheduled(schedule) = order else {
                unreachable!()
            };
            run_program(
                alloc, schedule, options, flags, source, sink, backing, probes,
            )
        }
        Task::Check { budget } => check_trace(alloc, budget, source, sink, backing),
        Task::Asm => assemble_text(alloc, source, sink, backing),
        Task::Gen {
            number,
            boards,
            pages,
        } => { generate_text(alloc, number, boards, pages, sink, backing) }
    }
}

/// What is done with the words, the source, the sink, the swap and the probes where there are no threads.
fn answer_alone<S: Source, K: Sink, B: Backing>(
    alloc: Global,
    words: &[String],
    source: &mut S,
    sink: &mut K,
    backing: B,
    probes: Vec<Box<dyn Probe>>,
) -> Outcome<B>
    ensures way { Way B.meaning (map (λ b. told (rule b) (reads b) (kept b)) probes.items)
        (asked_alone_by words.now)
        (S.left source.old) (S.left source.new) (K.written sink.old) (K.written sink.new) backing result }
    ensures read { result.status ≡ Status.ReadFault → Rose (S.faults source.old) (S.faults source.new) }
    ensures write { result.status ≡ Status.WriteFault → Rose (K.faults sink.old) (K.faults sink.new) }
{
    match task_alone(words) {
        Ok(task) => answer_task(alloc, task, source, sink, backing, probes),
        Err(number) => refuse_words(alloc, number, sink, backing),
    }
}

/// What is done for a task, on threads where it asks for them.
fn answer_any<S: Source, K: Sink, B: Backing + Send, G: Gate + Sync, R: Threads + Wait + Sync>(
    rt: &R,
    alloc: Global,
    task: Task,
    source: &mut S,
    sink: &mut K,
    backing: B,
    gate: &G,
    probes: Vec<Box<dyn Probe>>,
) -> Outcome<B>
    requires range { IsTaskInRange task }
    ensures way { Way B.meaning (map (λ b. told (rule b) (reads b) (kept b)) probes.items) (Ok task)
        (S.left source.old) (S.left source.new) (K.written sink.old) (K.written sink.new) backing result }
    ensures read { result.status ≡ Status.ReadFault → Rose (S.faults source.old) (S.faults source.new) }
    ensures write { result.status ≡ Status.WriteFault → Rose (K.faults sink.old) (K.faults sink.new) }
{
    match task {
        Task::Run {
            order,
            options,
            flags,
        } => match order {
            Order::Threads => run_program_on_threads(
                rt, alloc, options, flags, source, sink, backing, gate, probes,
            ),
            Order::Scheduled(schedule) => run_program(
                alloc, schedule, options, flags, source, sink, backing, probes,
            ),
        },
        Task::Check { budget } => check_trace(alloc, budget, source, sink, backing),
        Task::Asm => assemble_text(alloc, source, sink, backing),
        Task::Gen {
            number,
            boards,
            pages,
        } => { generate_text(alloc, number, boards, pages, sink, backing) }
    }
}

/// What is done with the words, the source, the sink, the swap, the gate and the probes.
fn answer<S: Source, K: Sink, B: Backing + Send, G: Gate + Sync, R: Threads + Wait + Sync>(
    rt: &R,
    alloc: Global,
    words: &[String],
    source: &mut S,
    sink: &mut K,
    backing: B,
    gate: &G,
    probes: Vec<Box<dyn Probe>>,
) -> Outcome<B>
    ensures way { Way B.meaning (map (λ b. told (rule b) (reads b) (kept b)) probes.items) (asked_by words.now)
        (S.left source.old) (S.left source.new) (K.written sink.old) (K.written sink.new) backing result }
    ensures read { result.status ≡ Status.ReadFault → Rose (S.faults source.old) (S.faults source.new) }
    ensures write { result.status ≡ Status.WriteFault → Rose (K.faults sink.old) (K.faults sink.new) }
{
    match task_of(words) {
        Ok(task) => answer_any(rt, alloc, task, source, sink, backing, gate, probes),
        Err(number) => refuse_words(alloc, number, sink, backing),
    }
}

/// All that the program does, with the words after its name.
///
/// `run` and `sched N` read a program, as a text or as an object, load it, run its boards over their caches on one
/// bus with the swap that is handed in, and write each board's outcome and registers, and the counts and the trace
/// where flags ask for them. `run` runs each board on a thread of its own, where one can be made, in whatever order
/// these get to their steps, and calls the gate around each turn; `sched N` runs the boards by the schedule. `check`
/// reads a program's text and a trace behind it, and writes what the trace is judged. `asm` reads a text and writes
/// its object. `gen` reads nothing and writes the generator's text. Words or an input that are refused get one line
/// that says why.
///
/// The order is: words, reading, the input's length, its text or object, the trace's header and its number of boards,
/// loading, the trace's lines, the swap at the start, the run, writing. The text is built whole before the first byte
/// is put. Nothing is written after a fault in reading, after a fault of the swap at the start, nor after want of
/// memory. The swap is handed back in every case, and is untouched where no run was begun.
///
/// `sched N` shows the probes the entries when they are joined to the history, up to the first wish of one of them to
/// stop: it ends the run with the step that joined that entry, or at the end. Entries behind it are not shown, and stay
/// in the history. `run` shows them the
/// whole history when it is made, and heeds no wish. A report tells each probe's number. The probes are dropped in
/// every case. What `--watch` says is no matter of this call: `watched` of the words gives the addresses, and who calls
/// makes probes of them.
pub fn spur<S: Source, K: Sink, B: Backing + Send, G: Gate + Sync, R: Threads + Wait + Sync>(
    rt: &R,
    alloc: Global,
    words: &[String],
    source: &mut S,
    sink: &mut K,
    backing: B,
    gate: &G,
    probes: Vec<Box<dyn Probe>>,
) -> Outcome<B>
    // The headline, of the report that is given and its own history, and that paging is invisible in it, whatever frames
    // and lines there are. It is said of some input, and where the source tells its bytes, this input is what the source
    // gave. Where the swap does not tell its pages, all is said but the values that were read, the data words of memory,
    // the swap, and that the trace is judged good.
    ensures headline { IfSome result.report (IsHeadline (map (λ b. told (rule b) (reads b) (kept b)) probes.items)
        (asked_by words.now) (S.left source.old) (S.left source.new) (K.written sink.old) (K.written sink.new)
        (B.meaning backing) (B.meaning result.backing) result.status) }

    // A verdict that is given is what the trace of the input is judged.
    ensures judged { IfSome result.verdict (IsJudgement (asked_by words.now) (S.left source.old) (S.left source.new)
        (K.written sink.old) (K.written sink.new) result.status) }

    // The call ends in one of six ways, and each says what was found and what is answered there.
    ensures way { Way B.meaning (map (λ b. told (rule b) (reads b) (kept b)) probes.items) (asked_by words.now)
        (S.left source.old) (S.left source.new) (K.written sink.old) (K.written sink.new) backing result }

    // When a report or a verdict is given: always where a command that has one came to its end, and where writing
    // failed behind words and an input that are accepted.
    ensures kept { result.status ≡ Status.WriteFault
        → ByTask (IsStillGiven (S.left source.old)) (asked_by words.now) result }
    ensures reported { IsSome result.report → MayGive result.status }
    ensures given { IsSome result.verdict → MayJudge result.status }
    ensures fine { result.status ≡ Status.Fine → ByTask
        (WasDone (K.written sink.old) (K.written sink.new)) (asked_by words.now) result }
    ensures ended { result.status ≡ Status.Ended → ByTask EndedOtherwise (asked_by words.now) result }
    ensures stopped { result.status ≡ Status.Stopped → ByTask WasStopped (asked_by words.now) result }

    // The words are refused exactly where they are not of the table; the input only where it is too long, has a fault
    // or can't be loaded, and a told one of these always, but for faults in reading and writing and for want of memory.
    ensures refused_words { AnswersWords (asked_by words.now) (K.written sink.old) (K.written sink.new) result }
    ensures refused_input { result.status ≡ Status.Input → IsInputRefused (asked_by words.now)
        (S.left source.old) (S.left source.new) (K.written sink.old) (K.written sink.new) }
    ensures refused_told { AnswersRefusal (asked_by words.now) (S.left source.old)
        (K.written sink.old) (K.written sink.new) result }

    // Reading, writing and making the swap ready failed only where the count of the source, of the sink or of the swap
    // rose.
    ensures read_fault { result.status ≡ Status.ReadFault → Rose (S.faults source.old) (S.faults source.new) }
    ensures not_read { result.status ≡ Status.ReadFault → HasReadFault (asked_by words.now)
        (K.written sink.old) (K.written sink.new) result }
    ensures write_fault { result.status ≡ Status.WriteFault → Rose (K.faults sink.old) (K.faults sink.new) }
    ensures swap_at_start { result.status ≡ Status.SwapAtStart → HasSwapFault B.meaning (asked_by words.now)
        (S.left source.old) (S.left source.new) (K.written sink.old) (K.written sink.new) backing result }

    // Want of memory may come at any time, and nothing was put.
    ensures no_memory { result.status ≡ Status.NoMemory → Gains (K.written sink.old) (K.written sink.new) [] }

    // The swap is as it was where no run was begun: where words or input are refused, where reading failed, and with
    // every command that runs no boards.
    ensures untouched { result.report ≡ None → result.status ≢ Status.SwapAtStart → result.status ≢ Status.NoMemory
        → result.backing ≡ backing }
    ensures handed_back { ByTask (HandsBack backing) (asked_by words.now) result }

    // Where the words and a told input are accepted and no count rose, the text was put whole, or memory was wanting.
    ensures complete { ¬ Rose (S.faults source.old) (S.faults source.new)
        → ¬ Rose (K.faults sink.old) (K.faults sink.new)
        → ¬ ((B.meaning backing).faults < (B.meaning result.backing).faults)
        → ByTask (IsComplete (S.left source.old) (K.written sink.old) (K.written sink.new))
        (asked_by words.now) result }
{
    let outcome = answer(rt, alloc, words, source, sink, backing, gate, probes);
    outcome
}

/// All that the program does for words whose first is not `run`, as `spur` does it, and without threads. The word `run`
/// is none of the table here, and so is refused as word 1. This call always returns.
pub fn spur_alone<S: Source, K: Sink, B: Backing>(
    alloc: Global,
    words: &[String],
    source: &mut S,
    sink: &mut K,
    backing: B,
    probes: Vec<Box<dyn Probe>>,
) -> Outcome<B>
    // The headline, of the report that is given and its own history, and that paging is invisible in it, whatever frames
    // and lines there are. It is said of some input, and where the source tells its bytes, this input is what the source
    // gave. Where the swap does not tell its pages, all is said but the values that were read, the data words of memory,
    // the swap, and that the trace is judged good.
    ensures headline { IfSome result.report (IsHeadline (map (λ b. told (rule b) (reads b) (kept b)) probes.items)
        (asked_alone_by words.now) (S.left source.old) (S.left source.new) (K.written sink.old) (K.written sink.new)
        (B.meaning backing) (B.meaning result.backing) result.status) }

    // A verdict that is given is what the trace of the input is judged.
    ensures judged { IfSome result.verdict (IsJudgement (asked_alone_by words.now)
        (S.left source.old) (S.left source.new) (K.written sink.old) (K.written sink.new) result.status) }

    // The call ends in one of six ways, and each says what was found and what is answered there.
    ensures way { Way B.meaning (map (λ b. told (rule b) (reads b) (kept b)) probes.items) (asked_alone_by words.now)
        (S.left source.old) (S.left source.new) (K.written sink.old) (K.written sink.new) backing result }

    // When a report or a verdict is given: always where a command that has one came to its end, and where writing
    // failed behind words and an input that are accepted.
    ensures kept { result.status ≡ Status.WriteFault
        → ByTask (IsStillGiven (S.left source.old)) (asked_alone_by words.now) result }
    ensures reported { IsSome result.report → MayGive result.status }
    ensures given { IsSome result.verdict → MayJudge result.status }
    ensures fine { result.status ≡ Status.Fine → ByTask
        (WasDone (K.written sink.old) (K.written sink.new)) (asked_alone_by words.now) result }
    ensures ended { result.status ≡ Status.Ended → ByTask EndedOtherwise (asked_alone_by words.now) result }
    ensures stopped { result.status ≡ Status.Stopped → ByTask WasStopped (asked_alone_by words.now) result }

    // The words are refused exactly where they are not of the table; the input only where it is too long, has a fault
    // or can't be loaded, and a told one of these always, but for faults in reading and writing and for want of memory.
    ensures refused_words { AnswersWords (asked_alone_by words.now) (K.written sink.old) (K.written sink.new) result }
    ensures refused_input { result.status ≡ Status.Input → IsInputRefused (asked_alone_by words.now)
        (S.left source.old) (S.left source.new) (K.written sink.old) (K.written sink.new) }
    ensures refused_told { AnswersRefusal (asked_alone_by words.now) (S.left source.old)
        (K.written sink.old) (K.written sink.new) result }

    // Reading, writing and making the swap ready failed only where the count of the source, of the sink or of the swap
    // rose.
    ensures read_fault { result.status ≡ Status.ReadFault → Rose (S.faults source.old) (S.faults source.new) }
    ensures not_read { result.status ≡ Status.ReadFault → HasReadFault (asked_alone_by words.now)
        (K.written sink.old) (K.written sink.new) result }
    ensures write_fault { result.status ≡ Status.WriteFault → Rose (K.faults sink.old) (K.faults sink.new) }
    ensures swap_at_start { result.status ≡ Status.SwapAtStart → HasSwapFault B.meaning (asked_alone_by words.now)
        (S.left source.old) (S.left source.new) (K.written sink.old) (K.written sink.new) backing result }

    // Want of memory may come at any time, and nothing was put.
    ensures no_memory { result.status ≡ Status.NoMemory → Gains (K.written sink.old) (K.written sink.new) [] }

    // The swap is as it was where no run was begun: where words or input are refused, where reading failed, and with
    // every command that runs no boards.
    ensures untouched { result.report ≡ None → result.status ≢ Status.SwapAtStart → result.status ≢ Status.NoMemory
        → result.backing ≡ backing }
    ensures handed_back { ByTask (HandsBack backing) (asked_alone_by words.now) result }

    // Where the words and a told input are accepted and no count rose, the text was put whole, or memory was wanting.
    ensures complete { ¬ Rose (S.faults source.old) (S.faults source.new)
        → ¬ Rose (K.faults sink.old) (K.faults sink.new)
        → ¬ ((B.meaning backing).faults < (B.meaning result.backing).faults)
        → ByTask (IsComplete (S.left source.old) (K.written sink.old) (K.written sink.new))
        (asked_alone_by words.now) result }
{
    let outcome = answer_alone(alloc, words, source, sink, backing, probes);
    outcome
}
