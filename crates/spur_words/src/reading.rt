//! How the words are read by the table.
//!
//! A line is a command, then the command's numbers, then flags in any order, each with its value, where it has one, as
//! the word behind it.

ghost use Rattle.std.specs.Prelude.{◌≡◌, [], IfOk};
ghost use Rattle.spur_words.specs.Tasks.{first_settings, IsAlone, IsTaskInRange};
ghost use Rattle.spur_words.specs.Words.{asks_to_run, command_fields, filled_by, flag_among, next_flag, task_alone, task_from, task_of, texts, times_in};

use crate::settings::Settings;
use crate::table::{Field, Flag, Verb};
use crate::task::Task;

impl Field {
    /// The settings with the number of a word in this field. `None` where the word is no number that may fill it.
    fn read(self, settings: Settings, word: &str) -> Option<Settings>
        ensures { result ≡ filled_by self settings word.now }
    {
        let number = self.number_in(word.as_bytes())?;
        if self.allows(number) {
            Some(self.filled(settings, number))
        } else {
            None
        }
    }
}

impl Flag {
    /// The flag of these with this name. `None` where none has it.
    fn among(flags: &[Flag], name: &[u8]) -> Option<Flag>
        ensures { result ≡ flag_among flags.now name.now }
    {
        for flag in flags {
            if name == flag.name() {
                return Some(*flag);
            }
        }
        None
    }

    /// How often the flag's name stands among these words.
    fn times_in(self, words: &[String]) -> usize
        ensures { result ≡ times_in self (texts words.now) }
    {
        let name = self.name();
        words.iter().filter(|word| word.as_bytes() == name).count()
    }
}

impl Verb {
    /// The flag that a word behind these names, where it may stand once more.
    fn next_flag(self, before: &[String], word: &str) -> Option<Flag>
        ensures { result ≡ next_flag self (texts before.now) word.now }
    {
        let flag = Flag::among(self.flags(), word.as_bytes())?;
        if flag.times_in(before) < flag.times() {
            Some(flag)
        } else {
            None
        }
    }
}

/// The task of the words behind a command's name, of which the first is word 2 of the line; or the number of the word
/// that offends.
fn task_from(verb: Verb, words: &[String]) -> Result<Task, usize>
    ensures { result ≡ task_from verb first_settings (command_fields verb) [] (texts words.now) }
{
    let mut settings = Settings::first();
    let mut wanted = verb.fields();
    for (place, word) in words.iter().enumerate() {
        match wanted {
            [field, more @ ..] => {
                let Some(filled) = field.read(settings, word.as_str()) else {
                    return Err(place + 2);
                };
                settings = filled;
                wanted = more;
            }
            [] => {
                let Some(flag) = verb.next_flag(&words[..place], word.as_str()) else {
                    return Err(place + 2);
                };
                settings = flag.set(settings);
                wanted = flag.fields();
            }
        }
    }
    if wanted.is_empty() {
        Ok(verb.task(settings))
    } else {
        Err(words.len() + 2)
    }
}

/// What the words ask for, as the definitions read them.
fn read(words: &[String]) -> Result<Task, usize>
    ensures { result ≡ task_of (texts words.now) }
{
    let [name, behind @ ..] = words else {
        return Err(1);
    };
    let Some(verb) = Verb::named(name.as_str()) else {
        return Err(1);
    };
    task_from(verb, behind)
}

/// What the words behind the program's name ask for. The table of the words is this project's own.
///
/// The first word is the command. `run`, `check` and `asm` stand alone; behind `sched` stands its start, from 0 to
/// 2^64-1; and behind `gen` stand a number from 0 to 2^32-1, 1 to 12 boards, and 1 to 512 pages. Flags follow in any
/// order, each once but `--watch`, and the word behind a flag that has a value is its value. `run` and `sched` have
/// `--frames` 1 to 3900 (256 without it), `--lines` a power of two from 16 to 4096 (4096), `--budget` 1 to 250000
/// instructions (100000), `--ahead` 0 to 128 lines (0), and `--counts` and `--trace`, which have no value; `check` has
/// `--budget` alone; `asm` and `gen` have no flag. Each of these numbers is 1 to 20 decimal digits, of which the first may be zeros.
///
/// `sched` alone has `--late`, which has no value: the boards' logs are joined at turns on the bus and at the end alone.
/// And it has `--watch`, up to 8 times. Its value is a global address: the number of a byte below 2^38, in 1 to 10
/// lower-case hexadecimal digits with nothing before them, of which the first may be zeros. The task has nothing of it;
/// `watched` gives these addresses.
///
/// `Err` has the number, counted from 1, of the first word that is not of the table. A line that ends too early is
/// answered by the number behind its last word.
pub fn task_of(words: &[String]) -> Result<Task, usize>
    ensures task { result ≡ task_of (texts words.now) }
    ensures ranges { IfOk result IsTaskInRange }
{
    let task = read(words);
    task
}

/// Whether the first word is `run`.
fn asks_to_run(words: &[String]) -> bool
    ensures { result ≡ asks_to_run (texts words.now) }
{
    match words {
        [name, ..] => name.as_str() == "run",
        [] => false,
    }
}

/// What the words behind the program's name ask for where there are no threads: as `task_of` answers, but that the word
/// `run` is none of the table, and so is refused as word 1.
pub fn task_alone(words: &[String]) -> Result<Task, usize>
    ensures task { result ≡ task_alone (texts words.now) }
    ensures ranges { IfOk result IsTaskInRange }
    ensures alone { IfOk result IsAlone }
{
    if asks_to_run(words) {
        Err(1)
    } else {
        task_of(words)
    }
}
