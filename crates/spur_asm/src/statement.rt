//! What a line says, and what stands before it.
ghost use Rattle.std.specs.Prelude.{◌≡◌};

use spur_isa::Instr;
use spur_object::{PageText, WordText};

/// An operation, by the name with which its statement begins.
#[derive(Clone, Copy)]
pub enum Operation {
    Halt,
    Nop,
    Li,
    Lih,
    AddI,
    Add,
    Sub,
    And,
    Or,
    Xor,
    Shl,
    Shr,
    Slt,
    SltU,
    Ld,
    St,
    Tas,
    Beq,
    Bne,
    Blt,
    Bge,
    Jmp,
    Call,
    Jr,
    Show,
}

impl Operation {
    ghost use Rattle.spur_asm.specs.Names.{operation_among, operation_name, operation_named};

    const ALL: [Operation; 25] = [
        Operation::Halt,
        Operation::Nop,
        Operation::Li,
        Operation::Lih,
        Operation::AddI,
        Operation::Add,
        Operation::Sub,
        Operation::And,
        Operation::Or,
        Operation::Xor,
        Operation::Shl,
        Operation::Shr,
        Operation::Slt,
        Operation::SltU,
        Operation::Ld,
        Operation::St,
        Operation::Tas,
        Operation::Beq,
        Operation::Bne,
        Operation::Blt,
        Operation::Bge,
        Operation::Jmp,
        Operation::Call,
        Operation::Jr,
        Operation::Show,
    ];

    /// The name of the operation.
    fn name(self) -> &'static [u8]
        ensures { result.now ≡ operation_name self }
    {
        match self {
            Operation::Halt => b"halt",
            Operation::Nop => b"nop",
            Operation::Li => b"li",
            Operation::Lih => b"lih",
            Operation::AddI => b"addi",
            Operation::Add => b"add",
            Operation::Sub => b"sub",
            Operation::And => b"and",
            Operation::Or => b"or",
            Operation::Xor => b"xor",
            Operation::Shl => b"shl",
            Operation::Shr => b"shr",
            Operation::Slt => b"slt",
            Operation::SltU => b"sltu",
            Operation::Ld => b"ld",
            Operation::St => b"st",
            Operation::Tas => b"tas",
            Operation::Beq => b"beq",
            Operation::Bne => b"bne",
            Operation::Blt => b"blt",
            Operation::Bge => b"bge",
            Operation::Jmp => b"jmp",
            Operation::Call => b"call",
            Operation::Jr => b"jr",
            Operation::Show => b"show",
        }
    }

    /// The first of these operations with this name. `None` where none has it.
    fn among(operations: &[Operation], name: &[u8]) -> Option<Operation>
        ensures { result ≡ operation_among operations.now name.now }
    {
        for operation in operations {
            if name == operation.name() {
                return Some(*operation);
            }
        }
        None
    }

    /// The operation with this name. `None` for any other name.
    fn named(name: &[u8]) -> Option<Operation>
        ensures { result ≡ operation_named name.now }
    {
        Operation::among(&Operation::ALL, name)
    }
}

/// A statement's sort, by the name with which it begins.
#[derive(Clone, Copy)]
pub enum Sort {
    Page,
    Word,
    Board,
    Seg,
    Code(Operation),
}

impl Sort {
    ghost use Rattle.spur_asm.specs.Names.{sort_named};

    /// The sort of the statements with this name: a directive or an operation. `None` for any other name.
    pub fn named(name: &[u8]) -> Option<Sort>
        ensures { result ≡ sort_named name.now }
    {
        if name == b".page".as_slice() {
            Some(Sort::Page)
        } else if name == b".word".as_slice() {
            Some(Sort::Word)
        } else if name == b".board".as_slice() {
            Some(Sort::Board)
        } else if name == b".seg".as_slice() {
            Some(Sort::Seg)
        } else {
            Operation::named(name).map(Sort::Code)
        }
    }
}

/// A statement.
#[derive(Clone, Copy)]
pub enum Statement {
    Page(PageText),
    Word(WordText),
    Board,
    Seg([u8; 4]),
    Code(Instr),
}

/// How much stands before a line. Instructions and `.seg` are counted since the last `.board`.
#[derive(Clone, Copy)]
pub struct Context {
    pub pages: usize,
    pub words: usize,
    pub boards: usize,
    pub segs: usize,
    pub codes: usize,
    pub labels: usize,
}
