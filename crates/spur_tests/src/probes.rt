//! Probes through the top call, by rows that were worked out by hand.

ghost use Rattle.std.specs.Prelude.{◌≡◌};
ghost use Rattle.spur_cpu.specs.Meaning.{is_ending};
ghost use Rattle.spur_tests.specs.Faults.{is_sought};

use crate::runs::{answer_to, words_in};
use crate::texts::SUM;
use spur_addr::GlobalAddr;
use spur_flat::{Entry, FaultKind};
use spur_io::{SinkSure, SourceSure};
use spur_probe::{CountProbe, LastProbe, Probe, ProbeLine, WatchProbe, Wish};
use spur_program::{Outcome, Status, spur_alone};
use spur_report::Report;
use spur_swap::SwapMemory;
use spur_words::watched;
use std::alloc::Global;
use std::test::Fail;

/// A probe that another crate might define: it wishes a stop at each fault, or at those alone that end a board, and tells
/// how many entries it was shown.
#[derive(Drop)]
pub(crate) struct FaultProbe {
    seen: u64,
    ending: bool,
}

/// Whether a fault ends its board.
fn is_ending(kind: FaultKind) -> bool
    ensures { result ≡ is_ending kind }
{
    match kind {
        FaultKind::Align | FaultKind::Unmapped | FaultKind::Protection => true,
        FaultKind::Missing | FaultKind::Leaving | FaultKind::Reference | FaultKind::Dirty => false,
    }
}

/// Whether an entry is a fault, or one that ends its board.
fn is_sought(ending: bool, entry: &Entry) -> bool
    ensures { result ≡ is_sought ending entry.now }
{
    match entry {
        Entry::Fault { kind, .. } => is_ending(*kind) || !ending,
        _ => false,
    }
}

impl FaultProbe {
    /// A probe that was shown nothing yet.
    pub(crate) fn new(ending: bool) -> FaultProbe {
        FaultProbe { seen: 0, ending }
    }
}

impl Probe for FaultProbe {
    ghost use Rattle.std.specs.Prelude.{[], ◌∷◌};
    ghost use Rattle.spur_probe.specs.Rules.{first_number};
    ghost use Rattle.spur_tests.specs.Faults.{stops_at_faults};

    ghost kept = { λ probe. probe.seen ∷ [] };

    ghost rule = { λ probe. stops_at_faults probe.ending };

    ghost reads = { λ _. first_number };

    fn saw(&mut self, entry: &Entry) -> Wish {
        self.seen = self.seen.saturating_add(1);
        if is_sought(self.ending, entry) {
            Wish::Stop
        } else {
            Wish::GoOn
        }
    }

    fn line(&self) -> ProbeLine {
        ProbeLine { number: self.seen }
    }
}

/// A probe that a row hands in, with the number of its address.
#[derive(Clone, Copy)]
enum Kind {
    Count,
    Last(u64),
    Watch(u64),
    Fault,
}

use Kind::{Count, Fault, Last, Watch};

/// The words, the probes, the answer's status, where a probe stopped the run, and the probes' numbers.
type Row = (
    &'static str,
    &'static [Kind],
    Status,
    Option<(u64, u32)>,
    &'static [u64],
);

/// The rows of the sum. Its history has 12 entries: the claim of the page's entry is the fourth, and behind the load,
/// which is the seventh, the claim of the block is the eleventh; the first fault is the third.
const ROWS: &[Row] = &[
    ("sched 1", &[], Status::Fine, None, &[]),
    (
        "sched 1",
        &[Count, Last(0x40)],
        Status::Fine,
        None,
        &[12, 42],
    ),
    (
        "sched 1",
        &[Watch(0x3f_c000_0000), Watch(0x3f_c000_0000)],
        Status::Stopped,
        Some((4, 0)),
        &[1, 0],
    ),
    (
        "sched 1",
        &[Count, Watch(0x40)],
        Status::Stopped,
        Some((11, 1)),
        &[11, 1],
    ),
    ("sched 1", &[Watch(0x1000)], Status::Fine, None, &[0]),
    (
        "sched 1",
        &[Count, Fault, Count],
        Status::Stopped,
        Some((3, 1)),
        &[3, 3, 2],
    ),
];

/// Whether a report tells of its probes what a row says.
fn tells(report: &Report, stopped: Option<(u64, u32)>, numbers: &[u64]) -> bool {
    let lines = report.lines.as_slice();
    if report.stopped != stopped || lines.len() != numbers.len() {
        return false;
    }
    lines
        .iter()
        .zip(numbers)
        .all(|(line, number)| line.number == *number)
}

/// Whether the sum is answered as a row says.
fn is_answered(alloc: Global, (words, kinds, status, stopped, numbers): Row) -> Result<bool, Fail> {
    let mut probes: Vec<Box<dyn Probe>> = Vec::new(alloc);
    for kind in kinds {
        match *kind {
            Count => probes.push(Box::new(alloc, CountProbe::new())?)?,
            Last(at) => {
                let at = GlobalAddr::of(at).ok_or("an address")?;
                probes.push(Box::new(alloc, LastProbe::new(at))?)?;
            }
            Watch(at) => {
                let at = GlobalAddr::of(at).ok_or("an address")?;
                probes.push(Box::new(alloc, WatchProbe::new(at))?)?;
            }
            Fault => probes.push(Box::new(alloc, FaultProbe::new(false))?)?,
        }
    }
    let words = words_in(alloc, words)?;
    let mut source = SourceSure::new(SUM.to_vec(alloc)?);
    let mut sink = SinkSure::new(alloc, 4096)?;
    let swap = SwapMemory::new(alloc);
    let outcome = spur_alone(alloc, &words, &mut source, &mut sink, swap, probes);
    let told = match &outcome.report {
        Some(report) => tells(report, stopped, numbers),
        None => false,
    };
    Ok(told && outcome.status == status)
}

#[test]
fn probes_see_the_history_up_to_a_stop(rt: HostRuntime) -> Result<(), Fail> {
    for (i, row) in ROWS.iter().enumerate() {
        assert!(rt; is_answered(rt.alloc(), *row)?, "row {i}");
    }
    Ok(())
}

/// What is written of the sum where the claim of its page's entry is watched, and the trace is asked for.
const WATCHED: &str = "stopped 4 0
board 0 running retired 1
regs 0 00000000 00000029 00000000 00000000 00000000 00000000 00000000 00000000 00000000 00000000 00000000 00000000 00000000 00000000 00000000 00000000
probe 0 1
";

/// Its trace: the step that was stopped is in it whole.
const WATCHED_TRACE: &str = "%trace 1 1 256 4096
fill 0 root read 3fcff00000
fill 0 pte read 3fc0000000
fault 0 missing load 0000000040
claim 0 3fc0000000
in 0 0000000000 65
fill 0 data read 0000000040
load 0 0000000040 00000029
";

/// What is written of the sum where the words are these, and each address that they watch has its probe; and the
/// status.
fn watched_sum(alloc: Global, words: &str) -> Result<(Status, Vec<u8>), Fail> {
    let words = words_in(alloc, words)?;
    let mut probes: Vec<Box<dyn Probe>> = Vec::new(alloc);
    for at in watched(alloc, &words)? {
        probes.push(Box::new(alloc, WatchProbe::new(at))?)?;
    }
    let mut source = SourceSure::new(SUM.to_vec(alloc)?);
    let mut sink = SinkSure::new(alloc, 4096)?;
    let swap = SwapMemory::new(alloc);
    let outcome = spur_alone(alloc, &words, &mut source, &mut sink, swap, probes);
    Ok((outcome.status, sink.bytes().to_vec(alloc)?))
}

#[test]
fn a_watch_of_the_words_stops_the_run(rt: HostRuntime) -> Result<(), Fail> {
    let alloc = rt.alloc();
    let (status, written) = watched_sum(alloc, "sched 1 --watch 3fc0000000 --trace")?;
    assert_eq!(rt; status, Status::Stopped);
    let wanted = format!(in alloc; "{WATCHED}{WATCHED_TRACE}")?;
    assert_eq!(rt; written.as_slice(), wanted.as_bytes());

    // its trace is judged good
    let mut input = SUM.to_vec(alloc)?;
    input.extend_from_slice(WATCHED_TRACE.as_bytes())?;
    let (outcome, sink) = answer_to(
        alloc,
        &words_in(alloc, "check")?,
        &input,
        SwapMemory::new(alloc),
    )?;
    assert_eq!(rt; outcome.status, Status::Fine);
    assert_eq!(rt; sink.bytes(), b"good 7\n".as_slice());

    // words that are refused watch nothing
    let (status, written) = watched_sum(alloc, "sched 1 --watch 40 --watch 4A")?;
    assert_eq!(rt; status, Status::Words);
    assert_eq!(rt; written.as_slice(), b"refused: word 6\n".as_slice());
    Ok(())
}
