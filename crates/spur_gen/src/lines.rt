//! The text, line by line.

ghost use Rattle.std.specs.Prelude.{◌≡◌, ◌*◌, ◌<◌, ◌≤◌, ◌++◌, ◌↔◌, ℕ, Some, Err, IfOk, OnOk};
ghost use Rattle.spur_gen.specs.Ranges.{outside};
ghost use Rattle.spur_gen.specs.Text.{board_line, board_text, closing_lines, comment_line, generated_text, page_line, pages_line, setting_lines, step_line, step_of, word_line};
ghost use Rattle.spur_gen.specs.declared.fault.GenFault.TheVariants as faults;

use crate::fault::GenFault;
use std::alloc::{AllocError, Global};

/// How many boards there may be.
const MAX_BOARDS: u32 = 12;

/// How many pages there may be.
const MAX_PAGES: u32 = 512;

/// The lines of each board before its rounds.
const SETTING: &[u8] = b"li r4, 0\n\
    li r7, 4096\n\
    li r8, 2\n\
    again:\n";

/// The lines with which each board ends.
const CLOSING: &[u8] = b"first:\n\
    ld r5, 0(r1)\n\
    add r5, r5, r2\n\
    st r5, 0(r1)\n\
    add r4, r4, r5\n\
    add r1, r1, r7\n\
    addi r3, r3, -1\n\
    bne r3, r0, first\n\
    addi r8, r8, -1\n\
    bne r8, r0, again\n\
    show r4\n\
    halt\n";

/// The text of a program with so many boards and pages.
///
/// Each board has a word of its own in each page of segment 0, at the byte that is 4 times its number. In two rounds
/// over the pages it adds to each of these words its own step, which is `(number + 17 * board) mod 1000 + 1`, and sums
/// up what it stores; then it shows the sum, which is 3 times the step for each page, whatever the order of the boards'
/// steps. The program is this project's own.
///
/// The answer is `Range` exactly where there are not 1 to 12 boards (2) or not 1 to 512 pages (3), and 2 where neither
/// is so. `NoMemory` where memory is wanting.
pub fn generate(alloc: Global, number: u32, boards: u32, pages: u32) -> Result<Vec<u8>, GenFault>
    ensures text { IfOk result (λ text. text.items ≡ generated_text number boards pages) }
    ensures range { (which : ℕ) → (result ≡ Err (faults.Range which)) ↔ (outside boards pages ≡ Some which) }
{
    if boards < 1 || MAX_BOARDS < boards {
        return Err(GenFault::Range { which: 2 });
    }
    if pages < 1 || MAX_PAGES < pages {
        return Err(GenFault::Range { which: 3 });
    }
    let text = text(alloc, number, boards, pages)?;
    Ok(text)
}

/// The text of so many boards and pages.
fn text(alloc: Global, number: u32, boards: u32, pages: u32) -> Result<Vec<u8>, AllocError>
    requires { boards ≤ 12 }
    ensures { IfOk result (λ text. text.items ≡ generated_text number boards pages) }
{
    let mut text = Vec::new(alloc);
    put_comment(alloc, &mut text, number, boards, pages)?;
    for page in 0..pages {
        put_page(alloc, &mut text, page)?;
    }
    for board in 0..boards {
        put_board(alloc, &mut text, number, pages, board)?;
    }
    Ok(text)
}

/// Puts the first line.
#[tactic(auto, unfolding(crate::specs::Text::comment_line))]
fn put_comment(
    alloc: Global,
    text: &mut Vec<u8>,
    number: u32,
    boards: u32,
    pages: u32,
) -> Result<(), AllocError>
    ensures { OnOk result (text.new.items ≡ text.old.items ++ comment_line number boards pages) }
{
    let line = format!(in alloc; "; gen {number} {boards} {pages}\n")?;
    text.extend_from_slice(line.as_bytes())
}

/// Puts the line of a page.
#[tactic(auto, unfolding(crate::specs::Text::page_line))]
fn put_page(alloc: Global, text: &mut Vec<u8>, page: u32) -> Result<(), AllocError>
    ensures { OnOk result (text.new.items ≡ text.old.items ++ page_line page) }
{
    let line = format!(in alloc; ".page 0 {page} rw\n")?;
    text.extend_from_slice(line.as_bytes())
}

/// What a board adds to each page's word.
fn step_of(number: u32, board: u32) -> u64
    ensures { result ≡ step_of number board }
{
    (u64::from(number) + 17 * u64::from(board)) % 1000 + 1
}

/// Puts the lines of a board.
fn put_board(
    alloc: Global,
    text: &mut Vec<u8>,
    number: u32,
    pages: u32,
    board: u32,
) -> Result<(), AllocError>
    requires { board < 12 }
    ensures { OnOk result (text.new.items ≡ text.old.items ++ board_text number pages board) }
{
    put_board_line(text)?;
    put_step(alloc, text, step_of(number, board))?;
    put_setting(text)?;
    put_word(alloc, text, 4 * board)?;
    put_pages(alloc, text, pages)?;
    put_closing(text)
}

/// Puts the line with which a board begins.
#[tactic(auto, unfolding(crate::specs::Text::board_line))]
fn put_board_line(text: &mut Vec<u8>) -> Result<(), AllocError>
    ensures { OnOk result (text.new.items ≡ text.old.items ++ board_line) }
{
    text.extend_from_slice(b".board\n")
}

/// Puts the line that says what a board adds.
#[tactic(auto, unfolding(crate::specs::Text::step_line))]
fn put_step(alloc: Global, text: &mut Vec<u8>, step: u64) -> Result<(), AllocError>
    ensures { OnOk result (text.new.items ≡ text.old.items ++ step_line step) }
{
    let line = format!(in alloc; "li r2, {step}\n")?;
    text.extend_from_slice(line.as_bytes())
}

/// Puts the lines that stand before the rounds.
#[tactic(auto, unfolding(crate::specs::Text::setting_lines))]
fn put_setting(text: &mut Vec<u8>) -> Result<(), AllocError>
    ensures { OnOk result (text.new.items ≡ text.old.items ++ setting_lines) }
{
    text.extend_from_slice(SETTING)
}

/// Puts the line that says where a round begins: a byte of page 0.
#[tactic(auto, unfolding(crate::specs::Text::word_line))]
fn put_word(alloc: Global, text: &mut Vec<u8>, word: u32) -> Result<(), AllocError>
    ensures { OnOk result (text.new.items ≡ text.old.items ++ word_line word) }
{
    let line = format!(in alloc; "li r1, {word}\n")?;
    text.extend_from_slice(line.as_bytes())
}

/// Puts the line that says how many pages a round takes.
#[tactic(auto, unfolding(crate::specs::Text::pages_line))]
fn put_pages(alloc: Global, text: &mut Vec<u8>, pages: u32) -> Result<(), AllocError>
    ensures { OnOk result (text.new.items ≡ text.old.items ++ pages_line pages) }
{
    let line = format!(in alloc; "li r3, {pages}\n")?;
    text.extend_from_slice(line.as_bytes())
}

/// Puts the lines with which a board ends.
#[tactic(auto, unfolding(crate::specs::Text::closing_lines))]
fn put_closing(text: &mut Vec<u8>) -> Result<(), AllocError>
    ensures { OnOk result (text.new.items ≡ text.old.items ++ closing_lines) }
{
    text.extend_from_slice(CLOSING)
}
