//! What stands before a line, and what may stand in it.
ghost use Rattle.std.specs.Prelude.{◌≡◌, ◌+◌, ◌-◌, ◌^◌, ℕ, Some, None};
ghost use Rattle.std.specs.Option.{option_copied};
ghost use Rattle.spur_asm.specs.Context.{first_context, immediate_of, label_fault, limit_fault, misplacement, with_label, with_sort, IsWithin};

use crate::fault::AsmKind;
use crate::label;
use crate::statement::{Context, Sort};
use crate::table::Labels;

/// The fault of one more statement of a sort: `Limit` where `most` of them or more stand before.
fn limit_fault(most: usize, before: usize) -> Option<AsmKind>
    ensures { result ≡ limit_fault most before }
{
    if before < most {
        None
    } else {
        Some(AsmKind::Limit)
    }
}

impl Context {
    /// Before the first line, where nothing stands.
    pub fn first() -> Context
        ensures { result ≡ first_context }
    {
        Context {
            pages: 0,
            words: 0,
            boards: 0,
            segs: 0,
            codes: 0,
            labels: 0,
        }
    }

    /// Behind a line with this label and a statement of this sort, or without one. A board begins with no instruction
    /// and no `.seg`; the label on the line of a `.board` is of the board before.
    pub fn after(self, label: Option<&[u8]>, sort: Option<Sort>) -> Context
        requires { IsWithin (2 ^ 64 - 2) self }
        ensures after { result ≡ with_sort sort (with_label (option_copied label.entry) self) }
        ensures within { (k : ℕ) → IsWithin k self → IsWithin (k + 1) result }
    {
        let mut after = self;
        if label.is_some() {
            after.labels += 1;
        }
        match sort {
            Some(Sort::Page) => after.pages += 1,
            Some(Sort::Word) => after.words += 1,
            Some(Sort::Board) => {
                after.boards += 1;
                after.segs = 0;
                after.codes = 0;
            }
            Some(Sort::Seg) => after.segs += 1,
            Some(Sort::Code(_)) => after.codes += 1,
            None => {}
        }
        after
    }

    /// The fault of a statement of this sort that stands here, or `None` where it may stand here. There are at most
    /// 2048 pages, 65536 words and 12 boards, and for each board one `.seg` and 4096 instructions, which stand behind
    /// its `.board`: `Limit` where there are as many already, `Twice` for a further `.seg`, and `BadToken` before the
    /// first board.
    pub fn misplacement(self, sort: Sort) -> Option<AsmKind>
        ensures { result ≡ misplacement self sort }
    {
        match sort {
            Sort::Page => limit_fault(2048, self.pages),
            Sort::Word => limit_fault(65536, self.words),
            Sort::Board => limit_fault(12, self.boards),
            Sort::Seg | Sort::Code(_) if self.boards == 0 => Some(AsmKind::BadToken),
            Sort::Seg if self.segs == 0 => None,
            Sort::Seg => Some(AsmKind::Twice),
            Sort::Code(_) => limit_fault(4096, self.codes),
        }
    }

    /// The fault of a label of this line, or `None` where it may stand here: `BadToken` before the first board, and
    /// `Twice` where one of the board's labels before has its name. `labels` are those of all lines, in their order.
    pub fn label_fault<'a>(self, labels: &Labels<'a>, name: &'a [u8]) -> Option<AsmKind>
        ensures { result ≡ label_fault labels.now self name.now }
    {
        if self.boards == 0 {
            Some(AsmKind::BadToken)
        } else if labels.has_before(self.labels, self.boards, name) {
            Some(AsmKind::Twice)
        } else {
            None
        }
    }

    /// The immediate of an instruction of this line that goes to the label of its board with this name. `None` where
    /// the board has none. `labels` are those of all lines.
    pub fn immediate<'a>(self, labels: &Labels<'a>, name: &'a [u8]) -> Option<i16>
        ensures { result ≡ immediate_of labels.now self name.now }
    {
        let there = labels.place_named(self.boards, name)?;
        Some(label::distance(self.codes, there))
    }
}
