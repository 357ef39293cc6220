//! What the words fill, whatever their command is.

ghost use Rattle.std.specs.Prelude.{◌≡◌};
ghost use Rattle.spur_words.specs.Tasks.{first_settings};

use crate::task::Schedule;
use spur_loader::Options;
use spur_report::Flags;

/// A place for each number and for each flag without a value. A command's task is made of those that it has.
#[derive(Clone, Copy, Debug, PartialEq, Eq)]
pub struct Settings {
    /// The schedule by which boards are run.
    pub schedule: Schedule,
    /// The first number of a text that is generated.
    pub number: u32,
    /// How many boards such a text has.
    pub boards: u32,
    /// How many pages it has.
    pub pages: u32,
    /// The numbers of a run.
    pub options: Options,
    /// What a report has besides the boards.
    pub flags: Flags,
}

impl Settings {
    /// What holds where no word says more.
    pub(crate) fn first() -> Settings
        ensures { result ≡ first_settings }
    {
        let options = Options {
            frames: 256,
            lines: 4096,
            budget: 100_000,
            ahead: 0,
        };
        let flags = Flags {
            counts: false,
            trace: false,
        };
        let schedule = Schedule {
            start: 0,
            late: false,
        };
        Settings {
            schedule,
            number: 0,
            boards: 1,
            pages: 1,
            options,
            flags,
        }
    }
}
