//! From a unit to its object.

ghost use Rattle.std.specs.Prelude.{◌≡◌, ◌++◌, ◌<◌, ◌≤◌, ◌^◌, IfOk, OnOk, length};
ghost use Rattle.std.specs.List.{flat_map};
ghost use Rattle.spur_addr.specs.PageEntry.{protection_number};
ghost use Rattle.spur_object.specs.Fields.{board_fields, bytes_of, counts_of, head_fields, number_bytes, object_bytes, page_fields, word_fields};
ghost use Rattle.spur_object.specs.Limits.{IsUnit};

use crate::cursor::FIELD_BYTES;
use crate::parts::{MAGIC, VERSION};
use crate::unit::{BoardText, PageText, Unit, WordText};
use byteorder::{BigEndian, ByteOrder};
use spur_addr::Protection;
use spur_isa::encode;
use std::alloc::{AllocError, Global};

/// How many bytes a segment has, as a power of two.
const SEGMENT_BITS: u32 = 30;

/// Puts a number's field.
#[tactic(auto, unfolding(crate::specs::Fields::number_bytes))]
fn put_number(out: &mut Vec<u8>, number: u32) -> Result<(), AllocError>
    ensures { OnOk result (out.new.items ≡ out.old.items ++ number_bytes number) }
{
    let mut field = [0; FIELD_BYTES];
    BigEndian::write_u32(&mut field, number);
    out.extend_from_slice(&field)
}

/// Puts what stands before the boards.
fn put_head(out: &mut Vec<u8>, unit: &Unit) -> Result<(), AllocError>
    requires { IsUnit unit.now }
    ensures { OnOk result (out.new.items ≡ out.old.items ++ bytes_of (head_fields (counts_of unit.now))) }
{
    put_number(out, MAGIC)?;
    put_number(out, VERSION)?;
    put_number(out, unit.boards.len() as u32)?;
    put_number(out, unit.pages.len() as u32)?;
    put_number(out, unit.words.len() as u32)?;
    Ok(())
}

/// Puts a board.
fn put_board(out: &mut Vec<u8>, board: &BoardText) -> Result<(), AllocError>
    requires { length board.now.code ≤ 4096 }
    ensures { OnOk result (out.new.items ≡ out.old.items ++ bytes_of (board_fields board.now)) }
{
    out.extend_from_slice(&board.segs)?;
    put_number(out, board.code.len() as u32)?;
    for instr in board.code.as_slice() {
        put_number(out, encode(instr))?;
    }
    Ok(())
}

/// The number of a protection.
fn protection_number(prot: Protection) -> u32
    ensures { result ≡ protection_number prot }
{
    match prot {
        Protection::Nothing => 0,
        Protection::ReadOnly => 1,
        Protection::ReadWrite => 2,
    }
}

/// Puts a page.
fn put_page(out: &mut Vec<u8>, page: PageText) -> Result<(), AllocError>
    ensures { OnOk result (out.new.items ≡ out.old.items ++ bytes_of (page_fields page)) }
{
    put_number(out, page.page)?;
    put_number(out, protection_number(page.prot))?;
    Ok(())
}

/// Puts a word.
fn put_word(out: &mut Vec<u8>, word: WordText) -> Result<(), AllocError>
    ensures { OnOk result (out.new.items ≡ out.old.items ++ bytes_of (word_fields word)) }
{
    let at = word.at.number();
    put_number(out, (at >> SEGMENT_BITS) as u32)?;
    put_number(out, (at % (1 << SEGMENT_BITS)) as u32)?;
    put_number(out, word.value)?;
    Ok(())
}

/// The object of a unit: its bytes, by fields of four bytes, which hold numbers with their highest byte first.
///
/// First come the number 93535052 (in hexadecimal), the version 1 and how many boards, pages and words there are. Then
/// for each board its four segment registers, a byte each, how many instructions it has, and their words; for each page
/// its number and 0, 1 or 2 for its protection; and for each word its segment, its place there in bytes, and its value.
/// The form is this project's own. The only error is want of memory.
pub fn write_object(alloc: Global, unit: &Unit) -> Result<Vec<u8>, AllocError>
    requires { IsUnit unit.now }
    ensures { IfOk result (λ bytes. bytes.items ≡ object_bytes unit.now) }
{
    let mut out = Vec::new(alloc);
    put_head(&mut out, unit)?;
    for board in unit.boards.as_slice() {
        put_board(&mut out, board)?;
    }
    for page in unit.pages.as_slice() {
        put_page(&mut out, *page)?;
    }
    for word in unit.words.as_slice() {
        put_word(&mut out, *word)?;
    }
    Ok(out)
}
