//! Whether a unit names the segment in which the page table stands.

ghost use Rattle.std.specs.Prelude.{◌≡◌};
ghost use Rattle.std.specs.List.{list_any};
ghost use Rattle.spur_loader.specs.Faults.{board_names_255, names_255, page_names_255, word_names_255};

use spur_object::{BoardText, PageText, Unit, WordText};

/// The segment in which the page table stands.
const TABLE_SEGMENT: u64 = 255;

/// How many pages a segment has.
const PAGES_PER_SEGMENT: u64 = 1 << 18;

/// How many bytes a segment has.
const BYTES_PER_SEGMENT: u64 = 1 << 30;

/// Whether a segment register, a page or a word names the segment in which the page table stands.
pub(crate) fn names_table_segment(unit: &Unit) -> bool
    ensures { result ≡ names_255 unit.now }
{
    is_named_by_boards(unit.boards.as_slice())
        || is_named_by_pages(unit.pages.as_slice())
        || is_named_by_words(unit.words.as_slice())
}

fn is_named_by_boards(boards: &[BoardText]) -> bool
    ensures { result ≡ list_any board_names_255 boards.now }
{
    boards.iter().any(|board| is_named_by_board(board))
}

fn is_named_by_pages(pages: &[PageText]) -> bool
    ensures { result ≡ list_any page_names_255 pages.now }
{
    pages.iter().any(|page| is_named_by_page(page))
}

fn is_named_by_words(words: &[WordText]) -> bool
    ensures { result ≡ list_any word_names_255 words.now }
{
    words.iter().any(|word| is_named_by_word(word))
}

fn is_named_by_board(board: &BoardText) -> bool
    ensures { result ≡ board_names_255 board.now }
{
    board.segs.iter().any(|seg| *seg as u64 == TABLE_SEGMENT)
}

fn is_named_by_page(page: &PageText) -> bool
    ensures { result ≡ page_names_255 page.now }
{
    page.page as u64 / PAGES_PER_SEGMENT == TABLE_SEGMENT
}

fn is_named_by_word(word: &WordText) -> bool
    ensures { result ≡ word_names_255 word.now }
{
    word.at.number() / BYTES_PER_SEGMENT == TABLE_SEGMENT
}
