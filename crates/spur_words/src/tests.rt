//! Rows of words, with what they ask for.

use crate::{Order, Schedule, Task, task_of, watched};
use spur_loader::Options;
use spur_report::Flags;
use std::alloc::{AllocError, Global};
use std::test::Fail;

/// A line's words.
type Row = &'static [&'static str];

/// The options where no word says more.
const DEFAULT: Options = Options {
    frames: 256,
    lines: 4096,
    budget: 100_000,
    ahead: 0,
};

/// A line with two addresses.
const TWO: Row = &[
    "sched",
    "1",
    "--watch",
    "3fc0000000",
    "--trace",
    "--watch",
    "40",
];

/// A line with the first address of all and the last.
const ENDS: Row = &[
    "sched",
    "7",
    "--watch",
    "0000000000",
    "--watch",
    "3fffffffff",
];

/// A line with nine addresses.
const NINE: Row = &[
    "sched", "1", "--watch", "1", "--watch", "2", "--watch", "3", "--watch", "4", "--watch", "5",
    "--watch", "6", "--watch", "7", "--watch", "8", "--watch", "9",
];

/// A line's words, each as a text of its own.
fn words_of(alloc: Global, row: &[&str]) -> Result<Vec<String>, AllocError> {
    let mut words = Vec::new(alloc);
    for word in row {
        words.push(String::from_str(alloc, word)?)?;
    }
    Ok(words)
}

/// The task of these words, or the number of the first offending one.
fn task_in(alloc: Global, row: &[&str]) -> Result<Result<Task, usize>, AllocError> {
    let words = words_of(alloc, row)?;
    Ok(task_of(&words))
}

/// The numbers of the addresses that these words watch.
fn watched_in(alloc: Global, row: &[&str]) -> Result<Vec<u64>, AllocError> {
    let words = words_of(alloc, row)?;
    let mut numbers = Vec::new(alloc);
    for at in &watched(alloc, &words)? {
        numbers.push(at.number())?;
    }
    Ok(numbers)
}

#[test]
fn words_choose_the_order_and_the_options(rt: HostRuntime) -> Result<(), Fail> {
    let schedule = |start| Order::Scheduled(Schedule { start, late: false });
    let late = |start| Order::Scheduled(Schedule { start, late: true });
    let rows: [(Row, Order, (u32, u32, u32)); 11] = [
        (&["run"], Order::Threads, (256, 4096, 100_000)),
        (&["sched", "0"], schedule(0), (256, 4096, 100_000)),
        (
            &["sched", "18446744073709551615"],
            schedule(u64::MAX),
            (256, 4096, 100_000),
        ),
        (
            &["sched", "00000000000000000007", "--lines", "16"],
            schedule(7),
            (256, 16, 100_000),
        ),
        (
            &[
                "run", "--budget", "250000", "--frames", "3900", "--lines", "2048",
            ],
            Order::Threads,
            (3900, 2048, 250_000),
        ),
        (
            &["run", "--frames", "1", "--budget", "00001"],
            Order::Threads,
            (1, 4096, 1),
        ),
        (
            &["run", "--lines", "4096"],
            Order::Threads,
            (256, 4096, 100_000),
        ),
        (
            &["sched", "1", "--frames", "2"],
            schedule(1),
            (2, 4096, 100_000),
        ),
        (&["sched", "1", "--late"], late(1), (256, 4096, 100_000)),
        (
            &["sched", "0", "--frames", "2", "--late", "--lines", "16"],
            late(0),
            (2, 16, 100_000),
        ),
        (
            &["sched", "1", "--budget", "3"],
            schedule(1),
            (256, 4096, 3),
        ),
    ];
    for (row, order, (frames, lines, budget)) in rows {
        let task = Task::Run {
            order,
            options: Options {
                frames,
                lines,
                budget,
                ahead: 0,
            },
            flags: Flags {
                counts: false,
                trace: false,
            },
        };
        assert_eq!(rt; task_in(rt.alloc(), row)?, Ok(task), "{row:?}");
    }
    Ok(())
}

#[test]
fn words_choose_how_many_lines_are_flushed_ahead(rt: HostRuntime) -> Result<(), Fail> {
    let rows: [(Row, Order, u32); 4] = [
        (&["run", "--ahead", "0"], Order::Threads, 0),
        (&["run", "--ahead", "128"], Order::Threads, 128),
        (&["run", "--ahead", "007"], Order::Threads, 7),
        (
            &["sched", "1", "--ahead", "1"],
            Order::Scheduled(Schedule {
                start: 1,
                late: false,
            }),
            1,
        ),
    ];
    for (row, order, ahead) in rows {
        let task = Task::Run {
            order,
            options: Options { ahead, ..DEFAULT },
            flags: Flags {
                counts: false,
                trace: false,
            },
        };
        assert_eq!(rt; task_in(rt.alloc(), row)?, Ok(task), "{row:?}");
    }
    Ok(())
}

#[test]
fn words_choose_what_a_report_has(rt: HostRuntime) -> Result<(), Fail> {
    let two = Options {
        frames: 2,
        ..DEFAULT
    };
    let order = |start| Order::Scheduled(Schedule { start, late: false });
    let rows: [(Row, Order, Options, (bool, bool)); 8] = [
        (&["run", "--counts"], Order::Threads, DEFAULT, (true, false)),
        (&["run", "--trace"], Order::Threads, DEFAULT, (false, true)),
        (
            &["run", "--counts", "--trace"],
            Order::Threads,
            DEFAULT,
            (true, true),
        ),
        (
            &["run", "--trace", "--frames", "2"],
            Order::Threads,
            two,
            (false, true),
        ),
        (
            &["run", "--frames", "2", "--counts"],
            Order::Threads,
            two,
            (true, false),
        ),
        (
            &["sched", "7", "--counts"],
            order(7),
            DEFAULT,
            (true, false),
        ),
        (
            &["sched", "7", "--trace", "--frames", "2", "--counts"],
            order(7),
            two,
            (true, true),
        ),
        (TWO, order(1), DEFAULT, (false, true)),
    ];
    for (row, order, options, (counts, trace)) in rows {
        let task = Task::Run {
            order,
            options,
            flags: Flags { counts, trace },
        };
        assert_eq!(rt; task_in(rt.alloc(), row)?, Ok(task), "{row:?}");
    }
    Ok(())
}

#[test]
fn words_choose_what_runs_nothing(rt: HostRuntime) -> Result<(), Fail> {
    let text_of = |number, boards, pages| Task::Gen {
        number,
        boards,
        pages,
    };
    let rows: [(Row, Task); 8] = [
        (&["check"], Task::Check { budget: 100_000 }),
        (&["check", "--budget", "1"], Task::Check { budget: 1 }),
        (
            &["check", "--budget", "250000"],
            Task::Check { budget: 250_000 },
        ),
        (&["asm"], Task::Asm),
        (&["gen", "7", "4", "64"], text_of(7, 4, 64)),
        (&["gen", "0", "1", "1"], text_of(0, 1, 1)),
        (
            &["gen", "4294967295", "12", "512"],
            text_of(4_294_967_295, 12, 512),
        ),
        (&["gen", "007", "02", "0003"], text_of(7, 2, 3)),
    ];
    for (row, task) in rows {
        assert_eq!(rt; task_in(rt.alloc(), row)?, Ok(task), "{row:?}");
    }
    Ok(())
}

#[test]
fn the_first_offending_word_of_a_run_is_told(rt: HostRuntime) -> Result<(), Fail> {
    let rows: [(Row, usize); 32] = [
        (&[], 1),
        (&["Run"], 1),
        (&["--budget", "5"], 1),
        (&["run", "more"], 2),
        (&["run", "1"], 2),
        (&["run", "--ahead"], 3),
        (&["run", "--ahead", "129"], 3),
        (&["sched", "1", "--ahead", "-1"], 4),
        (&["sched", "1", "--ahead", "1", "--ahead", "1"], 5),
        (&["run", "--watch", "40"], 2),
        (&["sched"], 2),
        (&["sched", "--lines", "16"], 2),
        (&["sched", "18446744073709551616"], 2),
        (&["sched", "000000000000000000001"], 2),
        (&["sched", "-1"], 2),
        (&["sched", ""], 2),
        (&["sched", "1", "2"], 3),
        (&["run", "--late"], 2),
        (&["sched", "--late"], 2),
        (&["sched", "1", "--late", "--late"], 4),
        (&["sched", "1", "--late", "1"], 4),
        (&["run", "--frames"], 3),
        (&["run", "--frames", "0"], 3),
        (&["run", "--frames", "3901"], 3),
        (&["run", "--lines", "24"], 3),
        (&["run", "--lines", "8"], 3),
        (&["sched", "1", "--lines", "8192"], 4),
        (&["run", "--budget", "250001"], 3),
        (&["run", "--counts", "--counts"], 3),
        (&["run", "--trace", "--counts", "--trace"], 4),
        (&["run", "--trace", "1"], 3),
        (
            &["run", "--budget", "5", "--frames", "1", "--budget", "5"],
            6,
        ),
    ];
    for (row, number) in rows {
        assert_eq!(rt; task_in(rt.alloc(), row)?, Err(number), "{row:?}");
    }
    Ok(())
}

#[test]
fn the_first_offending_word_of_what_runs_nothing_is_told(rt: HostRuntime) -> Result<(), Fail> {
    let rows: [(Row, usize); 19] = [
        (&["gen"], 2),
        (&["gen", "1"], 3),
        (&["gen", "1", "2"], 4),
        (&["gen", "4294967296", "1", "1"], 2),
        (&["gen", "0", "0", "1"], 3),
        (&["gen", "7", "13", "64"], 3),
        (&["gen", "0", "1", "0"], 4),
        (&["gen", "0", "1", "513"], 4),
        (&["gen", "0", "1", "1", "--trace"], 5),
        (&["asm", "more"], 2),
        (&["asm", "--counts"], 2),
        (&["check", "--frames", "1"], 2),
        (&["check", "--ahead", "0"], 2),
        (&["check", "--counts"], 2),
        (&["check", "5"], 2),
        (&["check", "--budget"], 3),
        (&["check", "--budget", "0"], 3),
        (&["check", "--budget", "250001"], 3),
        (&["check", "--budget", "5", "--budget", "5"], 4),
    ];
    for (row, number) in rows {
        assert_eq!(rt; task_in(rt.alloc(), row)?, Err(number), "{row:?}");
    }
    Ok(())
}

#[test]
fn the_first_offending_word_of_a_watch_is_told(rt: HostRuntime) -> Result<(), Fail> {
    let rows: [(Row, usize); 13] = [
        (&["sched", "--watch", "40"], 2),
        (&["check", "--watch", "40"], 2),
        (&["asm", "--watch", "40"], 2),
        (&["gen", "0", "1", "1", "--watch", "40"], 5),
        (&["sched", "1", "--watch"], 4),
        (&["sched", "1", "--watch", ""], 4),
        (&["sched", "1", "--watch", "4A"], 4),
        (&["sched", "1", "--watch", "0x40"], 4),
        (&["sched", "1", "--watch", "00000000040"], 4),
        (&["sched", "1", "--watch", "4000000000"], 4),
        (&["sched", "1", "--watch", "40", "--watch", "g"], 6),
        (&["sched", "1", "--watch", "--watch", "40"], 4),
        (NINE, 19),
    ];
    for (row, number) in rows {
        assert_eq!(rt; task_in(rt.alloc(), row)?, Err(number), "{row:?}");
    }
    Ok(())
}

#[test]
fn addresses_are_watched_in_their_order(rt: HostRuntime) -> Result<(), Fail> {
    let rows: [(Row, &'static [u64]); 12] = [
        (&[], &[]),
        (&["run"], &[]),
        (&["sched", "1"], &[]),
        (&["sched", "1", "--watch", "40"], &[64]),
        (TWO, &[0x3f_c000_0000, 64]),
        (ENDS, &[0, 0x3f_ffff_ffff]),
        (
            &["sched", "7", "--watch", "abcdef", "--watch", "abcdef"],
            &[0xab_cdef, 0xab_cdef],
        ),
        (NINE.split_at(18).0, &[1, 2, 3, 4, 5, 6, 7, 8]),
        (NINE, &[]),
        (&["run", "--watch", "40"], &[]),
        (&["sched", "1", "--watch", "40", "--watch"], &[]),
        (&["sched", "1", "--watch", "40", "--watch", "4A"], &[]),
    ];
    for (row, numbers) in rows {
        let found = watched_in(rt.alloc(), row)?;
        assert_eq!(rt; found.as_slice(), numbers, "{row:?}");
    }
    Ok(())
}
