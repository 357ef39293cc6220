//! What the words of the command line ask for.

use spur_loader::Options;
use spur_report::Flags;

/// A schedule: from which number it picks the boards, and when their logs are joined to the history.
#[derive(Clone, Copy, Debug, PartialEq, Eq)]
pub struct Schedule {
    /// With which number it starts.
    pub start: u64,
    /// Whether logs are joined at turns on the bus and at the end alone, and not after each instruction.
    pub late: bool,
}

/// In which order boards take their steps.
#[derive(Clone, Copy, Debug, PartialEq, Eq)]
pub enum Order {
    /// Each board takes its steps on a thread of its own, in whatever order these get to them.
    Threads,
    /// Each instruction is that of the board that this schedule picks.
    Scheduled(Schedule),
}

/// What the words of the command line ask for.
#[derive(Clone, Copy, Debug, PartialEq, Eq)]
pub enum Task {
    /// `run` and `sched N`: a program is read and its boards are run in this order, with these numbers of frames, cache
    /// lines and instructions, and these flags say what its report has besides the boards.
    Run {
        order: Order,
        options: Options,
        flags: Flags,
    },
    /// `check`: a program's text and a trace behind it are read, and the trace is judged under this budget: the number
    /// of instructions that each board may do.
    Check {
        budget: u32,
    },
    /// `asm`: a text is read, and its unit is written as an object.
    Asm,
    /// `gen N B P`: nothing is read, and the generator's text of these numbers is written.
    Gen {
        number: u32,
        boards: u32,
        pages: u32,
    },
}
