//! The text of a report.

ghost use Rattle.std.specs.Prelude.{◌≡◌, ◌<◌, ◌++◌, IfOk, OnOk, true};
ghost use Rattle.std.specs.List.{All, flat_map};
ghost use Rattle.spur_flat.specs.WellFormed.{HasWord, IsWellFormed};
ghost use Rattle.spur_trace.specs.Formed.{IsHead};
ghost use Rattle.spur_trace.specs.Line.{trace_text};
ghost use Rattle.spur_report.specs.Counts.{counts_of};
ghost use Rattle.spur_report.specs.Texts.{boards_text, counts_text, ending_line, ending_text, fault_text, lines_from, lines_text, name_at, named_line, part_if, probe_line, probes_text, registers_line, report_text, row_text, rows_text, shown_line, spaced_word, stop_line, stop_text};

use crate::report::{BoardReport, Flags, Report};
use crate::tally::{EntryCounts, counts};
use spur_addr::GlobalAddr;
use spur_board::Ending;
use spur_flat::{Entry, FaultKind};
use spur_probe::ProbeLine;
use spur_text::{Text, address_digits, fault_word, put, word_digits};
use spur_trace::{TraceHead, put_trace, trace_room};
use std::alloc::{AllocError, Global};

/// The text of a report: where a probe stopped the run, a line with the entry's number, from 1, and the probe's, from 0; the
/// lines of each board, in the order of the board numbers, which are counted from 0; a line for each probe with the number
/// that it tells; where its flag is set, a line for the count of each kind of entry; and where its flag is set, the trace of
/// the history.
///
/// A board has a line for its ending and the number of instructions that it completed, one for its registers, and one for
/// each value that it showed. Each line is ended by a line feed. The head is in its ranges, and the entries are well formed
/// for its boards; where the trace was written, the values that they name are seen to have 32 bits. The answer is an error
/// only for want of memory; a trace is held once.
pub fn text(alloc: Global, report: &Report, flags: &Flags) -> Result<Vec<u8>, AllocError>
    requires head { IsHead report.now.head }
    requires entries { All (IsWellFormed report.now.head.boards) report.now.history }
    ensures text { IfOk result (λ text. text.items ≡ report_text report.now flags.now) }
    ensures words { flags.now.trace ≡ true → OnOk result (All HasWord report.now.history) }
{
    let lines = lines_of(alloc, report, flags.counts)?;
    with_trace_if(
        alloc,
        lines,
        flags.trace,
        &report.head,
        report.history.as_slice(),
    )
}

/// The lines of a stop, of the boards and of the probes, and those of the counts where they are asked for.
fn lines_of(alloc: Global, report: &Report, counts: bool) -> Result<Vec<u8>, AllocError>
    ensures { IfOk result (λ lines. lines.items ≡ lines_text report.now counts) }
{
    let mut lines = Vec::new(alloc);
    put_lines(alloc, &mut lines, report, counts)?;
    Ok(lines)
}

/// Writes the lines of a stop, of the boards and of the probes, and those of the counts where they are asked for.
fn put_lines(
    alloc: Global,
    out: &mut Vec<u8>,
    report: &Report,
    counts: bool,
) -> Result<(), AllocError>
    ensures { OnOk result (out.new.items ≡ out.old.items ++ lines_text report.now counts) }
{
    put_stop(alloc, out, report.stopped)?;
    put_boards(alloc, out, report)?;
    put_probes(alloc, out, report.lines.as_slice())?;
    put_counts_if(alloc, out, counts, report.history.as_slice())
}

/// Writes the line that says where a probe stopped the run, where one did.
fn put_stop(alloc: Global, out: &mut Vec<u8>, stopped: Option<(u64, u32)>) -> Result<(), AllocError>
    ensures { OnOk result (out.new.items ≡ out.old.items ++ stop_text stopped) }
{
    match stopped {
        Some((entry, probe)) => put_stop_line(alloc, out, entry, probe),
        None => Ok(()),
    }
}

/// Writes the line of a stop: the entry's number, and the probe's.
fn put_stop_line(alloc: Global, out: &mut Vec<u8>, entry: u64, probe: u32) -> Result<(), AllocError>
    ensures { OnOk result (out.new.items ≡ out.old.items ++ stop_line entry probe) }
{
    let line = format!(in alloc; "stopped {entry} {probe}\n")?;
    put(out, line.as_bytes())
}

/// Writes a line for each probe. They are counted from 0.
fn put_probes(alloc: Global, out: &mut Vec<u8>, lines: &[ProbeLine]) -> Result<(), AllocError>
    ensures { OnOk result (out.new.items ≡ out.old.items ++ probes_text 0 lines.now) }
{
    for (number, line) in lines.iter().enumerate() {
        put_probe(alloc, out, number, line)?;
    }
    Ok(())
}

/// Writes the line of a probe.
fn put_probe(
    alloc: Global,
    out: &mut Vec<u8>,
    number: usize,
    line: &ProbeLine,
) -> Result<(), AllocError>
    ensures { OnOk result (out.new.items ≡ out.old.items ++ probe_line number line.now) }
{
    let told = line.number;
    let line = format!(in alloc; "probe {number} {told}\n")?;
    put(out, line.as_bytes())
}

/// Writes the lines of the boards.
#[tactic(auto, unfolding(crate::specs::Texts::boards_text))]
fn put_boards(alloc: Global, out: &mut Vec<u8>, report: &Report) -> Result<(), AllocError>
    ensures { OnOk result (out.new.items ≡ out.old.items ++ boards_text report.now) }
{
    put_rows(alloc, out, b"board", report.boards.as_slice())
}

/// Lines, and a trace behind them where it is asked for.
fn with_trace_if(
    alloc: Global,
    lines: Vec<u8>,
    asked: bool,
    head: &TraceHead,
    entries: &[Entry],
) -> Result<Vec<u8>, AllocError>
    requires head { IsHead head.now }
    requires entries { All (IsWellFormed head.now.boards) entries.now }
    ensures text { IfOk result (λ text. text.items
        ≡ lines.items ++ part_if asked (trace_text head.now entries.now)) }
    ensures words { asked ≡ true → OnOk result (All HasWord entries.now) }
{
    if asked {
        with_trace(alloc, lines.as_slice(), head, entries)
    } else {
        Ok(lines)
    }
}

/// Lines, and a trace behind them.
fn with_trace(
    alloc: Global,
    lines: &[u8],
    head: &TraceHead,
    entries: &[Entry],
) -> Result<Vec<u8>, AllocError>
    requires head { IsHead head.now }
    requires entries { All (IsWellFormed head.now.boards) entries.now }
    ensures text { IfOk result (λ text. text.items ≡ lines.now ++ trace_text head.now entries.now) }
    ensures words { OnOk result (All HasWord entries.now) }
{
    let room = trace_room(entries)
        .and_then(|room| room.checked_add(lines.len()))
        .ok_or(AllocError)?;
    let mut text = Text::new(alloc, room)?;
    text.put(lines);
    put_trace(&mut text, head, entries);
    Ok(text.into_bytes())
}

/// Writes the lines of the counts of a history, where they are asked for.
#[tactic(auto, unfolding(crate::specs::Texts::counts_text))]
fn put_counts_if(
    alloc: Global,
    out: &mut Vec<u8>,
    asked: bool,
    entries: &[Entry],
) -> Result<(), AllocError>
    ensures { OnOk result (out.new.items ≡ out.old.items ++ part_if asked (counts_text entries.now)) }
{
    if asked {
        put_counts(alloc, out, &counts(entries))
    } else {
        Ok(())
    }
}

/// Writes a line for each count.
fn put_counts(alloc: Global, out: &mut Vec<u8>, counts: &EntryCounts) -> Result<(), AllocError>
    ensures { OnOk result (out.new.items ≡ out.old.items ++ lines_from 0 counts.now.numbers) }
{
    for (place, number) in counts.numbers.iter().enumerate() {
        put_count(alloc, out, place, *number)?;
    }
    Ok(())
}

/// Writes the line of the count at a place, from 0 to 20.
fn put_count(alloc: Global, out: &mut Vec<u8>, place: usize, number: u64) -> Result<(), AllocError>
    requires { place < 21 }
    ensures { OnOk result (out.new.items ≡ out.old.items ++ named_line place number) }
{
    put(out, name_of(place))?;
    let tail = format!(in alloc; " {number}\n")?;
    put(out, tail.as_bytes())
}

/// The name of the count at a place, from 0 to 20.
fn name_of(place: usize) -> &'static [u8]
    requires { place < 21 }
    ensures { result.now ≡ name_at place }
{
    match place {
        0 => b"loads",
        1 => b"stores",
        2 => b"tas",
        3 => b"align",
        4 => b"unmapped",
        5 => b"missing",
        6 => b"leaving",
        7 => b"protection",
        8 => b"reference",
        9 => b"dirty",
        10 => b"fills",
        11 => b"claims",
        12 => b"writebacks",
        13 => b"refreshes",
        14 => b"flushes",
        15 => b"leaves",
        16 => b"outs",
        17 => b"ins",
        18 => b"setrefs",
        19 => b"setdirties",
        _ => b"clearrefs",
    }
}

/// Writes the lines of rows, which are counted from 0. `what` is the word for what a row is of.
fn put_rows(
    alloc: Global,
    out: &mut Vec<u8>,
    what: &[u8],
    rows: &[BoardReport],
) -> Result<(), AllocError>
    ensures { OnOk result (out.new.items ≡ out.old.items ++ rows_text what.now 0 rows.now) }
{
    for (number, row) in rows.iter().enumerate() {
        put_row(alloc, out, what, number, row)?;
    }
    Ok(())
}

/// Writes the lines of a row.
#[tactic(auto, unfolding(crate::specs::Texts::row_text))]
fn put_row(
    alloc: Global,
    out: &mut Vec<u8>,
    what: &[u8],
    number: usize,
    row: &BoardReport,
) -> Result<(), AllocError>
    ensures { OnOk result (out.new.items ≡ out.old.items ++ row_text what.now number row.now) }
{
    put_ending_line(alloc, out, what, number, row)?;
    put_registers_line(alloc, out, number, &row.registers)?;
    put_shown_lines(alloc, out, number, row.shown.as_slice())
}

/// Writes the line with a row's ending and the number of instructions that it completed.
fn put_ending_line(
    alloc: Global,
    out: &mut Vec<u8>,
    what: &[u8],
    number: usize,
    row: &BoardReport,
) -> Result<(), AllocError>
    ensures { OnOk result (out.new.items ≡ out.old.items ++ ending_line what.now number row.now) }
{
    put(out, what)?;
    let place = format!(in alloc; " {number} ")?;
    put(out, place.as_bytes())?;
    put_ending(out, row.ending)?;
    let retired = row.retired;
    let tail = format!(in alloc; " retired {retired}\n")?;
    put(out, tail.as_bytes())
}

/// Writes how a board has ended, or that it has not.
fn put_ending(out: &mut Vec<u8>, ending: Option<Ending>) -> Result<(), AllocError>
    ensures { OnOk result (out.new.items ≡ out.old.items ++ ending_text ending) }
{
    let Some(ending) = ending else {
        return put(out, b"running");
    };
    match ending {
        Ending::Halted => put(out, b"halted"),
        Ending::Faulted { kind, at } => put_fault(out, kind, at),
        Ending::Spent => put(out, b"spent"),
        Ending::SwapFault => put(out, b"swap"),
    }
}

/// Writes the ending of a board by a fault of an access at a global address.
fn put_fault(out: &mut Vec<u8>, kind: FaultKind, at: GlobalAddr) -> Result<(), AllocError>
    ensures { OnOk result (out.new.items ≡ out.old.items ++ fault_text kind at) }
{
    put(out, b"faulted ")?;
    put(out, fault_word(kind))?;
    put(out, b" ")?;
    put(out, address_digits(at).as_slice())
}

/// Writes the line with a board's registers.
fn put_registers_line(
    alloc: Global,
    out: &mut Vec<u8>,
    number: usize,
    registers: &[u32; 16],
) -> Result<(), AllocError>
    ensures { OnOk result (out.new.items ≡ out.old.items ++ registers_line number registers.now) }
{
    let head = format!(in alloc; "regs {number}")?;
    put(out, head.as_bytes())?;
    put_registers(out, registers.as_slice())?;
    put(out, b"\n")
}

/// Writes registers, each behind a space.
fn put_registers(out: &mut Vec<u8>, registers: &[u32]) -> Result<(), AllocError>
    ensures { OnOk result (out.new.items ≡ out.old.items ++ flat_map spaced_word registers.now) }
{
    for word in registers {
        put(out, b" ")?;
        put(out, word_digits(*word).as_slice())?;
    }
    Ok(())
}

/// Writes a line for each value that a board showed.
fn put_shown_lines(
    alloc: Global,
    out: &mut Vec<u8>,
    number: usize,
    values: &[u32],
) -> Result<(), AllocError>
    ensures { OnOk result (out.new.items ≡ out.old.items ++ flat_map (shown_line number) values.now) }
{
    for value in values {
        put_shown_line(alloc, out, number, *value)?;
    }
    Ok(())
}

/// Writes the line with a value that a board showed.
fn put_shown_line(
    alloc: Global,
    out: &mut Vec<u8>,
    number: usize,
    value: u32,
) -> Result<(), AllocError>
    ensures { OnOk result (out.new.items ≡ out.old.items ++ shown_line number value) }
{
    let line = format!(in alloc; "shown {number} {value}\n")?;
    put(out, line.as_bytes())
}
