//! What a call of the program answers.

ghost use Rattle.std.specs.Prelude.{◌≡◌};
ghost use Rattle.spur_program.specs.Statuses.{status_number};

use spur_check::Verdict;
use spur_report::Report;

/// How a call of the program ended. The program's exit status is its number.
#[derive(Clone, Copy, Debug, PartialEq, Eq)]
pub enum Status {
    /// 0: the command was done; where boards were run each of them halted and no probe stopped the run, and where a
    /// trace was judged the verdict is good.
    Fine,
    /// 1: some board's ending is another and no probe stopped the run, or the verdict is bad.
    Ended,
    /// 2: the words of the command line are not of the table.
    Words,
    /// 3: the input is refused: it is too long, its text, object or trace has a fault, or it can't be loaded.
    Input,
    /// 4: the input could not be read.
    ReadFault,
    /// 5: the output could not be written to its end.
    WriteFault,
    /// 6: the swap failed before the run, when it was made ready.
    SwapAtStart,
    /// 7: a probe stopped the run, at the entry that the report names.
    Stopped,
    /// 9: want of memory.
    NoMemory,
}

impl Status {
    /// The exit status of the program.
    pub fn number(self) -> u8
        ensures { result ≡ status_number self }
    {
        match self {
            Status::Fine => 0,
            Status::Ended => 1,
            Status::Words => 2,
            Status::Input => 3,
            Status::ReadFault => 4,
            Status::WriteFault => 5,
            Status::SwapAtStart => 6,
            Status::Stopped => 7,
            Status::NoMemory => 9,
        }
    }
}

/// The answer of the top call.
#[derive(Debug, Drop)]
pub struct Outcome<B> {
    /// How the call ended.
    pub status: Status,
    /// What came of a run: given where the boards were run to their ends, or up to a probe's stop, and memory was not
    /// wanting for it, also where it could not be written.
    pub report: Option<Report>,
    /// What a trace was judged: given where it was, also where the verdict could not be written.
    pub verdict: Option<Verdict>,
    /// The swap object that was handed in, with the pages that it holds at the end.
    pub backing: B,
}
