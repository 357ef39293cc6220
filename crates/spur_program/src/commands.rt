//! The commands: what each does with the input that it reads.

ghost use Rattle.std.specs.Prelude.{◌≡◌, ◌≤◌, List, None, Ok, length, map};
ghost use Rattle.spur_gen.specs.Ranges.{outside};
ghost use Rattle.spur_gen.specs.Text.{generated_text};
ghost use Rattle.spur_input.specs.Program.{check_limit, program_limit};
ghost use Rattle.spur_io.specs.Faults.{Rose};
ghost use Rattle.spur_loader.specs.Limits.{IsOptions};
ghost use Rattle.spur_probe.specs.Shown.{Told, told};
ghost use Rattle.spur_program.specs.Answer.{InputAnswered, IsSaid, Way};

use crate::answers::{answer_with, not_accepted, not_read, not_run, silent, tell, tell_verdict};
use crate::plain::{run_plain, run_plain_on_threads};
use crate::report::{Outcome, Status};
use spur_gen::generate;
use spur_input::{judge, object_of, program_opening};
use spur_io::{Sink, Source, read_all};
use spur_loader::Options;
use spur_probe::Probe;
use spur_report::Flags;
use spur_swap::Backing;
use spur_threads::Gate;
use spur_words::{Order, Schedule, Task};
use std::alloc::Global;
use std::sync::Wait;
use std::thread::Threads;

/// The most bytes of a program, as a text or as an object.
const PROGRAM_LIMIT: u32 = 1_048_576;

/// The most bytes of a program with a trace behind it.
const CHECK_LIMIT: u32 = 67_108_864;

/// What `sched` with this schedule does with an input that was read whole.
fn run_input<K: Sink, B: Backing>(
    alloc: Global,
    input: &[u8],
    schedule: Schedule,
    options: Options,
    flags: Flags,
    sink: &mut K,
    backing: B,
    probes: Vec<Box<dyn Probe>>,
) -> Outcome<B>
    requires within { length input.now ≤ program_limit }
    requires options { IsOptions options }
    ensures answered { InputAnswered B.meaning (map (λ b. told (rule b) (reads b) (kept b)) probes.items)
        (Task.Run (Order.Scheduled schedule) options flags) input.now
        (K.written sink.old) (K.written sink.new) backing result }
    ensures write { result.status ≡ Status.WriteFault → Rose (K.faults sink.old) (K.faults sink.new) }
{
    let opening = match program_opening(alloc, input, &options) {
        Ok(opening) => opening,
        Err(why) => return not_accepted(alloc, why, sink, backing),
    };
    match run_plain(alloc, opening, backing, schedule, probes) {
        Ok(done) => tell(alloc, done, flags, sink),
        Err(refused) => not_run(refused),
    }
}

/// What `run` does with an input that was read whole.
fn run_input_on_threads<K: Sink, B: Backing + Send, G: Gate + Sync, R: Threads + Wait + Sync>(
    rt: &R,
    alloc: Global,
    input: &[u8],
    options: Options,
    flags: Flags,
    sink: &mut K,
    backing: B,
    gate: &G,
    probes: Vec<Box<dyn Probe>>,
) -> Outcome<B>
    requires within { length input.now ≤ program_limit }
    requires options { IsOptions options }
    ensures answered { InputAnswered B.meaning (map (λ b. told (rule b) (reads b) (kept b)) probes.items)
        (Task.Run Order.Threads options flags) input.now
        (K.written sink.old) (K.written sink.new) backing result }
    ensures write { result.status ≡ Status.WriteFault → Rose (K.faults sink.old) (K.faults sink.new) }
{
    let opening = match program_opening(alloc, input, &options) {
        Ok(opening) => opening,
        Err(why) => return not_accepted(alloc, why, sink, backing),
    };
    match run_plain_on_threads(rt, alloc, opening, backing, gate, probes) {
        Ok(done) => tell(alloc, done, flags, sink),
        Err(refused) => not_run(refused),
    }
}

/// What `check` does with an input that was read whole: the trace behind its program is judged under this budget.
fn check_input<K: Sink, B: Backing>(
    alloc: Global,
    input: &[u8],
    budget: u32,
    sink: &mut K,
    backing: B,
) -> Outcome<B>
    requires within { length input.now ≤ check_limit }
    requires some { 1 ≤ budget }
    requires few { budget ≤ 250000 }
    ensures answered { (probes : List Told) → InputAnswered B.meaning probes (Task.Check budget) input.now
        (K.written sink.old) (K.written sink.new) backing result }
    ensures write { result.status ≡ Status.WriteFault → Rose (K.faults sink.old) (K.faults sink.new) }
{
    match judge(alloc, input, budget) {
        Ok(verdict) => tell_verdict(alloc, verdict, sink, backing),
        Err(why) => not_accepted(alloc, why, sink, backing),
    }
}

/// What `asm` does with an input that was read whole: the object of the unit that it says is written.
fn assemble_input<K: Sink, B: Backing>(
    alloc: Global,
    input: &[u8],
    sink: &mut K,
    backing: B,
) -> Outcome<B>
    requires within { length input.now ≤ program_limit }
    ensures answered { (probes : List Told) → InputAnswered B.meaning probes Task.Asm input.now
        (K.written sink.old) (K.written sink.new) backing result }
    ensures write { result.status ≡ Status.WriteFault → Rose (K.faults sink.old) (K.faults sink.new) }
{
    match object_of(alloc, input) {
        Ok(object) => answer_with(sink, object.as_slice(), Status::Fine, None, backing),
        Err(why) => not_accepted(alloc, why, sink, backing),
    }
}

/// What `sched` with this schedule does: a program is read, and its boards are run by the schedule.
pub(crate) fn run_program<S: Source, K: Sink, B: Backing>(
    alloc: Global,
    schedule: Schedule,
    options: Options,
    flags: Flags,
    source: &mut S,
    sink: &mut K,
    backing: B,
    probes: Vec<Box<dyn Probe>>,
) -> Outcome<B>
    requires options { IsOptions options }
    ensures way { Way B.meaning (map (λ b. told (rule b) (reads b) (kept b)) probes.items)
        (Ok (Task.Run (Order.Scheduled schedule) options flags))
        (S.left source.old) (S.left source.new) (K.written sink.old) (K.written sink.new) backing result }
    ensures read { result.status ≡ Status.ReadFault → Rose (S.faults source.old) (S.faults source.new) }
    ensures write { result.status ≡ Status.WriteFault → Rose (K.faults sink.old) (K.faults sink.new) }
{
    match read_all(alloc, source, PROGRAM_LIMIT) {
        Ok(input) => run_input(
            alloc,
            input.as_slice(),
            schedule,
            options,
            flags,
            sink,
            backing,
            probes,
        ),
        Err(why) => not_read(alloc, why, PROGRAM_LIMIT, sink, backing),
    }
}

/// What `run` does: a program is read, and its boards are run on threads.
pub(crate) fn run_program_on_threads<
    S: Source,
    K: Sink,
    B: Backing + Send,
    G: Gate + Sync,
    R: Threads + Wait + Sync,
>(
    rt: &R,
    alloc: Global,
    options: Options,
    flags: Flags,
    source: &mut S,
    sink: &mut K,
    backing: B,
    gate: &G,
    probes: Vec<Box<dyn Probe>>,
) -> Outcome<B>
    requires options { IsOptions options }
    ensures way { Way B.meaning (map (λ b. told (rule b) (reads b) (kept b)) probes.items)
        (Ok (Task.Run Order.Threads options flags))
        (S.left source.old) (S.left source.new) (K.written sink.old) (K.written sink.new) backing result }
    ensures read { result.status ≡ Status.ReadFault → Rose (S.faults source.old) (S.faults source.new) }
    ensures write { result.status ≡ Status.WriteFault → Rose (K.faults sink.old) (K.faults sink.new) }
{
    match read_all(alloc, source, PROGRAM_LIMIT) {
        Ok(input) => run_input_on_threads(
            rt,
            alloc,
            input.as_slice(),
            options,
            flags,
            sink,
            backing,
            gate,
            probes,
        ),
        Err(why) => not_read(alloc, why, PROGRAM_LIMIT, sink, backing),
    }
}

/// What `check` does: a text with a trace behind it is read, and the trace is judged under this budget.
pub(crate) fn check_trace<S: Source, K: Sink, B: Backing>(
    alloc: Global,
    budget: u32,
    source: &mut S,
    sink: &mut K,
    backing: B,
) -> Outcome<B>
    requires some { 1 ≤ budget }
    requires few { budget ≤ 250000 }
    ensures way { (probes : List Told) → Way B.meaning probes (Ok (Task.Check budget))
        (S.left source.old) (S.left source.new) (K.written sink.old) (K.written sink.new) backing result }
    ensures read { result.status ≡ Status.ReadFault → Rose (S.faults source.old) (S.faults source.new) }
    ensures write { result.status ≡ Status.WriteFault → Rose (K.faults sink.old) (K.faults sink.new) }
{
    match read_all(alloc, source, CHECK_LIMIT) {
        Ok(input) => check_input(alloc, input.as_slice(), budget, sink, backing),
        Err(why) => not_read(alloc, why, CHECK_LIMIT, sink, backing),
    }
}

/// What `asm` does: a text is read, and its object is written.
pub(crate) fn assemble_text<S: Source, K: Sink, B: Backing>(
    alloc: Global,
    source: &mut S,
    sink: &mut K,
    backing: B,
) -> Outcome<B>
    ensures way { (probes : List Told) → Way B.meaning probes (Ok Task.Asm)
        (S.left source.old) (S.left source.new) (K.written sink.old) (K.written sink.new) backing result }
    ensures read { result.status ≡ Status.ReadFault → Rose (S.faults source.old) (S.faults source.new) }
    ensures write { result.status ≡ Status.WriteFault → Rose (K.faults sink.old) (K.faults sink.new) }
{
    match read_all(alloc, source, PROGRAM_LIMIT) {
        Ok(input) => assemble_input(alloc, input.as_slice(), sink, backing),
        Err(why) => not_read(alloc, why, PROGRAM_LIMIT, sink, backing),
    }
}

/// What `gen` does: the generator's text is written. Want of memory for it leaves nothing written.
pub(crate) fn generate_text<K: Sink, B>(
    alloc: Global,
    number: u32,
    boards: u32,
    pages: u32,
    sink: &mut K,
    backing: B,
) -> Outcome<B>
    requires { outside boards pages ≡ None }
    ensures said { IsSaid (generated_text number boards pages) Status.Fine None
        (K.written sink.old) (K.written sink.new) backing result }
    ensures write { result.status ≡ Status.WriteFault → Rose (K.faults sink.old) (K.faults sink.new) }
{
    match generate(alloc, number, boards, pages) {
        Ok(text) => answer_with(sink, text.as_slice(), Status::Fine, None, backing),
        Err(_) => silent(Status::NoMemory, backing),
    }
}
