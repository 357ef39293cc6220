//! A unit that is being read.
ghost use Rattle.std.specs.Prelude.{◌≡◌, IfOk, OnOk};

use crate::statement::Statement;
use spur_list::Items;
use spur_object::{BoardText, PageText, Unit, WordText};
use std::alloc::{AllocError, Global};

/// What the lines so far have said: the boards that are complete, the board that the last `.board` began, the pages and
/// the words.
#[derive(Drop)]
pub struct Draft {
    pub boards: Items<BoardText>,
    pub begun: Option<BoardText>,
    pub pages: Items<PageText>,
    pub words: Items<WordText>,
}

impl Draft {
    ghost use Rattle.spur_asm.specs.Draft.{empty_draft, unit_in, with_line_statement, with_statement};

    /// Before the first line, which takes no memory yet.
    pub fn new(alloc: Global) -> Draft
        ensures { result ≡ empty_draft }
    {
        Draft {
            boards: Items::new(alloc),
            begun: None,
            pages: Items::new(alloc),
            words: Items::new(alloc),
        }
    }

    /// Puts what a statement says behind what the earlier ones said. `.seg` and instructions count for the board that
    /// was begun last, and for none before the first `.board`.
    fn add(&mut self, alloc: Global, statement: Statement) -> Result<(), AllocError>
        ensures { OnOk result (self.new ≡ with_statement self.old statement) }
    {
        match statement {
            Statement::Page(page) => self.pages.push(page),
            Statement::Word(word) => self.words.push(word),
            Statement::Board => self.begin(alloc),
            Statement::Seg(segs) => {
                if let Some(board) = &mut self.begun {
                    board.segs = segs;
                }
                Ok(())
            }
            Statement::Code(instr) => match &mut self.begun {
                Some(board) => board.code.push(instr),
                None => Ok(()),
            },
        }
    }

    /// Begins a further board, without instructions, and with segment registers 0, 1, 2 and 3.
    fn begin(&mut self, alloc: Global) -> Result<(), AllocError>
        ensures { OnOk result (self.new ≡ with_statement self.old Statement.Board) }
    {
        let fresh = BoardText {
            segs: [0, 1, 2, 3],
            code: Items::new(alloc),
        };
        match self.begun.replace(fresh) {
            Some(board) => self.boards.push(board),
            None => Ok(()),
        }
    }

    /// Puts what a line says behind what the earlier ones said, if it has a statement.
    pub fn add_line(
        &mut self,
        alloc: Global,
        statement: Option<Statement>,
    ) -> Result<(), AllocError>
        ensures { OnOk result (self.new ≡ with_line_statement self.old statement) }
    {
        match statement {
            Some(statement) => self.add(alloc, statement),
            None => Ok(()),
        }
    }

    /// The unit of all that was said.
    pub fn into_unit(self) -> Result<Unit, AllocError>
        ensures { IfOk result (λ unit. unit ≡ unit_in self) }
    {
        let Draft {
            mut boards,
            begun,
            pages,
            words,
        } = self;
        if let Some(board) = begun {
            boards.push(board)?;
        }
        Ok(Unit {
            boards,
            pages,
            words,
        })
    }
}
