//! The lines that refuse an input. Their form is this project's own.

ghost use Rattle.std.specs.Prelude.{◌≡◌, ◌++◌, IfOk, OnOk};
ghost use Rattle.spur_text.specs.Digits.{address_digits};
ghost use Rattle.spur_text.specs.Line.{feed};
ghost use Rattle.spur_input.specs.Texts.{load_line, number_text, numbered_line, object_words, place_text, placed_line, refusal_line, text_line, text_words, trace_words};

use crate::refusal::Refusal;
use spur_addr::GlobalAddr;
use spur_asm::AsmKind;
use spur_loader::LoadFault;
use spur_object::ObjKind;
use spur_text::{address_digits, put};
use spur_trace::TraceKind;
use std::alloc::{AllocError, Global};

/// The line that refuses an input. The answer is an error only for want of memory.
pub fn refusal_line(alloc: Global, refusal: Refusal) -> Result<Vec<u8>, AllocError>
    ensures { IfOk result (λ line. line.items ≡ refusal_line refusal) }
{
    let mut out = Vec::new(alloc);
    put_refusal_line(alloc, &mut out, refusal)?;
    Ok(out)
}

/// Writes the line that refuses an input.
fn put_refusal_line(alloc: Global, out: &mut Vec<u8>, refusal: Refusal) -> Result<(), AllocError>
    ensures { OnOk result (out.new.items ≡ out.old.items ++ refusal_line refusal) }
{
    match refusal {
        Refusal::TooLong { most } => {
            put_numbered_line(alloc, out, b"refused: more than ", most, b" bytes")
        }
        Refusal::Text { kind, line, column } => put_text_line(alloc, out, kind, line, column),
        Refusal::Object { kind, byte } => {
            put_placed_line(alloc, out, b"refused: byte ", byte, object_words(kind))
        }
        Refusal::Trace { kind, line } => {
            put_placed_line(alloc, out, b"refused: trace line ", line, trace_words(kind))
        }
        Refusal::Load(fault) => put_load_line(alloc, out, fault),
    }
}

/// Writes the line that refuses a text for its first fault.
fn put_text_line(
    alloc: Global,
    out: &mut Vec<u8>,
    kind: AsmKind,
    line: u32,
    column: u32,
) -> Result<(), AllocError>
    ensures { OnOk result (out.new.items ≡ out.old.items ++ text_line kind line column) }
{
    put_place(alloc, out, line, column)?;
    put(out, text_words(kind))?;
    put(out, b"\n")
}

/// Writes the front of that line, with the place of the fault.
#[tactic(auto, unfolding(crate::specs::Texts::place_text))]
fn put_place(alloc: Global, out: &mut Vec<u8>, line: u32, column: u32) -> Result<(), AllocError>
    ensures { OnOk result (out.new.items ≡ out.old.items ++ place_text line column) }
{
    put_numbers(
        alloc,
        out,
        b"refused: line ",
        line,
        b" column ",
        column,
        b": ",
    )
}

/// Writes two numbers, each behind bytes, and the bytes that follow them.
fn put_numbers(
    alloc: Global,
    out: &mut Vec<u8>,
    first: &[u8],
    line: u32,
    second: &[u8],
    column: u32,
    third: &[u8],
) -> Result<(), AllocError>
    ensures { OnOk result (out.new.items
        ≡ out.old.items ++ (number_text first.now line ++ number_text second.now column ++ third.now)) }
{
    put_number(alloc, out, first, line)?;
    put_number(alloc, out, second, column)?;
    put(out, third)
}

/// Writes a line with a place that one number tells, and what is wrong there.
#[tactic(auto, unfolding(crate::specs::Texts::placed_line))]
fn put_placed_line(
    alloc: Global,
    out: &mut Vec<u8>,
    before: &[u8],
    number: u32,
    what: &[u8],
) -> Result<(), AllocError>
    ensures { OnOk result (out.new.items ≡ out.old.items ++ placed_line before.now number what.now) }
{
    put_number(alloc, out, before, number)?;
    put(out, b": ")?;
    put(out, what)?;
    put(out, b"\n")
}

/// Writes a line with one number in it.
fn put_numbered_line(
    alloc: Global,
    out: &mut Vec<u8>,
    before: &[u8],
    number: u32,
    behind: &[u8],
) -> Result<(), AllocError>
    ensures { OnOk result (out.new.items ≡ out.old.items ++ numbered_line before.now number behind.now) }
{
    put_number(alloc, out, before, number)?;
    put(out, behind)?;
    put(out, b"\n")
}

/// Writes a line that ends in a number.
fn put_counted_line(
    alloc: Global,
    out: &mut Vec<u8>,
    before: &[u8],
    number: u32,
) -> Result<(), AllocError>
    ensures { OnOk result (out.new.items ≡ out.old.items ++ (number_text before.now number ++ feed)) }
{
    put_number(alloc, out, before, number)?;
    put(out, b"\n")
}

/// Writes a number behind bytes.
#[tactic(auto, unfolding(crate::specs::Texts::number_text))]
fn put_number(
    alloc: Global,
    out: &mut Vec<u8>,
    before: &[u8],
    number: u32,
) -> Result<(), AllocError>
    ensures { OnOk result (out.new.items ≡ out.old.items ++ number_text before.now number) }
{
    put(out, before)?;
    let digits = format!(in alloc; "{number}")?;
    put(out, digits.as_bytes())
}

/// Writes the line that refuses a unit which can't be loaded. Want of memory has none.
fn put_load_line(alloc: Global, out: &mut Vec<u8>, fault: LoadFault) -> Result<(), AllocError>
    ensures { OnOk result (out.new.items ≡ out.old.items ++ load_line fault) }
{
    match fault {
        LoadFault::Segment255 => put(out, b"refused: load: segment 255\n"),
        LoadFault::PageTwice(at) => put_address_line(out, b"refused: load: page twice ", at),
        LoadFault::WordOutside(at) => put_address_line(out, b"refused: load: word outside ", at),
        LoadFault::NoRoom(frames) => {
            put_counted_line(alloc, out, b"refused: load: no room ", frames)
        }
        LoadFault::NoMemory => Ok(()),
    }
}

/// Writes a line that ends in a global address.
fn put_address_line(out: &mut Vec<u8>, what: &[u8], at: GlobalAddr) -> Result<(), AllocError>
    ensures { OnOk result (out.new.items ≡ out.old.items ++ (what.now ++ address_digits at ++ feed)) }
{
    put(out, what)?;
    put(out, address_digits(at).as_slice())?;
    put(out, b"\n")
}

/// The words for a kind of fault of a text.
fn text_words(kind: AsmKind) -> &'static [u8]
    ensures { result.now ≡ text_words kind }
{
    match kind {
        AsmKind::BadByte => b"bad byte",
        AsmKind::BadToken => b"bad token",
        AsmKind::BadNumber => b"bad number",
        AsmKind::UnknownName => b"unknown name",
        AsmKind::Twice => b"name twice",
        AsmKind::NoLabel => b"no label",
        AsmKind::Limit => b"limit",
        AsmKind::NoBoard => b"no board",
    }
}

/// The words for a kind of fault of an object.
fn object_words(kind: ObjKind) -> &'static [u8]
    ensures { result.now ≡ object_words kind }
{
    match kind {
        ObjKind::Magic => b"magic",
        ObjKind::Version => b"version",
        ObjKind::Short => b"short",
        ObjKind::Trailing => b"trailing",
        ObjKind::BadWord => b"bad instruction",
        ObjKind::Field => b"field",
    }
}

/// The words for a kind of fault of a trace.
fn trace_words(kind: TraceKind) -> &'static [u8]
    ensures { result.now ≡ trace_words kind }
{
    match kind {
        TraceKind::BadHeader => b"bad header",
        TraceKind::BadLine => b"bad line",
        TraceKind::Boards => b"boards",
    }
}
