//! The table of the words: a row for each command, a row for each flag, and a row for each field that a number fills.

ghost use Rattle.std.specs.Prelude.{◌≡◌, true};
ghost use Rattle.spur_words.specs.Tasks.{fits_field, task_for, with_field, with_flag};
ghost use Rattle.spur_words.specs.Words.{command_fields, command_flags, command_named, flag_fields, flag_name, flag_times};

use crate::settings::Settings;
use crate::task::{Order, Task};

/// A row of the table of commands.
#[derive(Clone, Copy, Debug, PartialEq, Eq)]
pub enum Verb {
    Run,
    Sched,
    Check,
    Asm,
    Gen,
}

/// A row of the table of flags.
#[derive(Clone, Copy, Debug, PartialEq, Eq)]
pub enum Flag {
    Frames,
    Lines,
    Budget,
    Ahead,
    Counts,
    Trace,
    Late,
    Watch,
}

/// A row of the table of fields: what a number on the command line sets. An address that is watched sets nothing here.
#[derive(Clone, Copy, Debug, PartialEq, Eq)]
pub enum Field {
    Start,
    Number,
    Boards,
    Pages,
    Frames,
    Lines,
    Budget,
    Ahead,
    Watch,
}

impl Verb {
    /// The command with this name.
    pub(crate) fn named(name: &str) -> Option<Verb>
        ensures { result ≡ command_named name.now }
    {
        match name {
            "run" => Some(Verb::Run),
            "sched" => Some(Verb::Sched),
            "check" => Some(Verb::Check),
            "asm" => Some(Verb::Asm),
            "gen" => Some(Verb::Gen),
            _ => None,
        }
    }

    /// The fields that the words behind the command's name fill.
    pub(crate) fn fields(self) -> &'static [Field]
        ensures { result.now ≡ command_fields self }
    {
        match self {
            Verb::Run | Verb::Check | Verb::Asm => &[],
            Verb::Sched => &[Field::Start],
            Verb::Gen => &[Field::Number, Field::Boards, Field::Pages],
        }
    }

    /// The flags that may stand behind them.
    pub(crate) fn flags(self) -> &'static [Flag]
        ensures { result.now ≡ command_flags self }
    {
        match self {
            Verb::Run => &[
                Flag::Frames,
                Flag::Lines,
                Flag::Budget,
                Flag::Ahead,
                Flag::Counts,
                Flag::Trace,
            ],
            Verb::Sched => &[
                Flag::Frames,
                Flag::Lines,
                Flag::Budget,
                Flag::Ahead,
                Flag::Counts,
                Flag::Trace,
                Flag::Late,
                Flag::Watch,
            ],
            Verb::Check => &[Flag::Budget],
            Verb::Asm | Verb::Gen => &[],
        }
    }

    /// What the command asks for with these settings.
    pub(crate) fn task(self, settings: Settings) -> Task
        ensures { result ≡ task_for self settings }
    {
        match self {
            Verb::Run => Task::Run {
                order: Order::Threads,
                options: settings.options,
                flags: settings.flags,
            },
            Verb::Sched => Task::Run {
                order: Order::Scheduled(settings.schedule),
                options: settings.options,
                flags: settings.flags,
            },
            Verb::Check => Task::Check {
                budget: settings.options.budget,
            },
            Verb::Asm => Task::Asm,
            Verb::Gen => Task::Gen {
                number: settings.number,
                boards: settings.boards,
                pages: settings.pages,
            },
        }
    }
}

impl Flag {
    /// The name of the flag.
    pub(crate) fn name(self) -> &'static [u8]
        ensures { result.now ≡ flag_name self }
    {
        match self {
            Flag::Frames => b"--frames",
            Flag::Lines => b"--lines",
            Flag::Budget => b"--budget",
            Flag::Ahead => b"--ahead",
            Flag::Counts => b"--counts",
            Flag::Trace => b"--trace",
            Flag::Late => b"--late",
            Flag::Watch => b"--watch",
        }
    }

    /// How often the flag may stand.
    pub(crate) fn times(self) -> usize
        ensures { result ≡ flag_times self }
    {
        match self {
            Flag::Frames
            | Flag::Lines
            | Flag::Budget
            | Flag::Ahead
            | Flag::Counts
            | Flag::Trace
            | Flag::Late => 1,
            Flag::Watch => 8,
        }
    }

    /// The fields that the words behind the flag fill.
    pub(crate) fn fields(self) -> &'static [Field]
        ensures { result.now ≡ flag_fields self }
    {
        match self {
            Flag::Frames => &[Field::Frames],
            Flag::Lines => &[Field::Lines],
            Flag::Budget => &[Field::Budget],
            Flag::Ahead => &[Field::Ahead],
            Flag::Watch => &[Field::Watch],
            Flag::Counts | Flag::Trace | Flag::Late => &[],
        }
    }

    /// The settings with what the flag itself sets.
    pub(crate) fn set(self, settings: Settings) -> Settings
        ensures { result ≡ with_flag self settings }
    {
        let mut set = settings;
        match self {
            Flag::Frames | Flag::Lines | Flag::Budget | Flag::Ahead | Flag::Watch => {}
            Flag::Counts => set.flags.counts = true,
            Flag::Trace => set.flags.trace = true,
            Flag::Late => set.schedule.late = true,
        }
        set
    }
}

impl Field {
    /// Whether a number may fill the field.
    pub(crate) fn allows(self, number: u128) -> bool
        ensures { result ≡ fits_field self number }
    {
        match self {
            Field::Start => number < 1 << 64,
            Field::Number => number < 1 << 32,
            Field::Boards => 1 <= number && number <= 12,
            Field::Pages => 1 <= number && number <= 512,
            Field::Frames => 1 <= number && number <= 3900,
            Field::Lines => 16 <= number && number <= 4096 && number.is_power_of_two(),
            Field::Budget => 1 <= number && number <= 250_000,
            Field::Ahead => number <= 128,
            Field::Watch => number < 1 << 38,
        }
    }

    /// The settings with a number in this field; an address that is watched leaves them as they are.
    pub(crate) fn filled(self, settings: Settings, number: u128) -> Settings
        requires { fits_field self number ≡ true }
        ensures { result ≡ with_field self settings number }
    {
        let mut filled = settings;
        match self {
            Field::Start => filled.schedule.start = number as u64,
            Field::Number => filled.number = number as u32,
            Field::Boards => filled.boards = number as u32,
            Field::Pages => filled.pages = number as u32,
            Field::Frames => filled.options.frames = number as u32,
            Field::Lines => filled.options.lines = number as u32,
            Field::Budget => filled.options.budget = number as u32,
            Field::Ahead => filled.options.ahead = number as u32,
            Field::Watch => {}
        }
        filled
    }
}
