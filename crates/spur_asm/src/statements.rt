//! The statements, each by its fields, which stand behind its name.
ghost use Rattle.std.specs.Prelude.{◌≡◌};
ghost use Rattle.spur_asm.specs.Context.{immediate_of};
ghost use Rattle.spur_asm.specs.Statements.{access_at, addi_at, branch_at, call_at, fields_at, jmp_at, li_at, lih_at, one_at, operation_at, page_text_at, seg_at, three_at, word_text_at};

use crate::cursor::Cursor;
use crate::fault::Misfit;
use crate::number::low_word;
use crate::statement::{Context, Operation, Sort, Statement};
use crate::table::Labels;
use spur_addr::GlobalAddr;
use spur_isa::{Instr, Reg};
use spur_object::{PageText, WordText};

/// The fields `S P W` of `.page`: a segment from 0 to 255, a page of it from 0 to 262143, and a protection.
#[tactic(auto, unfolding(crate::specs::Statements::page_text_at))]
fn page(line: &mut Cursor<'_>) -> Result<PageText, Misfit>
    ensures { result ≡ page_text_at line.old }
{
    let segment = line.natural(255)?;
    let place = line.natural(262143)?;
    let prot = line.protection()?;
    line.end(PageText {
        page: segment * (1 << 18) + place,
        prot,
    })
}

/// The fields `S O V` of `.word`: a segment from 0 to 255, an offset in it, and a value from -2147483648 to
/// 4294967295, which the word holds modulo 2^32.
#[tactic(auto, unfolding(crate::specs::Statements::word_text_at))]
fn word(line: &mut Cursor<'_>) -> Result<WordText, Misfit>
    ensures { result ≡ word_text_at line.old }
{
    let segment = line.natural(255)?;
    let offset = line.offset()?;
    let value = line.number(-2147483648, 4294967295)?;
    let number = u64::from(segment) * (1 << 30) + u64::from(offset);
    let at = GlobalAddr::of(number).unwrap();
    line.end(WordText {
        at,
        value: low_word(value),
    })
}

/// The fields `A B C D` of `.seg`: four segments from 0 to 255.
#[tactic(auto, unfolding(crate::specs::Statements::seg_at))]
fn seg(line: &mut Cursor<'_>) -> Result<[u8; 4], Misfit>
    ensures { result ≡ seg_at line.old }
{
    let a = line.natural(255)?;
    let b = line.natural(255)?;
    let c = line.natural(255)?;
    let d = line.natural(255)?;
    line.end([a as u8, b as u8, c as u8, d as u8])
}

/// The operand `a`.
#[tactic(auto, unfolding(crate::specs::Statements::one_at))]
fn one(line: &mut Cursor<'_>) -> Result<Reg, Misfit>
    ensures { result ≡ one_at line.old }
{
    let a = line.register()?;
    line.end(a)
}

/// The operands `a, i` of `li`.
#[tactic(auto, unfolding(crate::specs::Statements::li_at))]
fn li(line: &mut Cursor<'_>) -> Result<(Reg, i16), Misfit>
    ensures { result ≡ li_at line.old }
{
    let a = line.register()?;
    line.mark(b',')?;
    let i = line.immediate()?;
    line.end((a, i))
}

/// The operands `a, u` of `lih`: u is from 0 to 65535.
#[tactic(auto, unfolding(crate::specs::Statements::lih_at))]
fn lih(line: &mut Cursor<'_>) -> Result<(Reg, u16), Misfit>
    ensures { result ≡ lih_at line.old }
{
    let a = line.register()?;
    line.mark(b',')?;
    let u = line.natural(65535)?;
    line.end((a, u as u16))
}

/// The operands `a, b, i` of `addi`.
#[tactic(auto, unfolding(crate::specs::Statements::addi_at))]
fn addi(line: &mut Cursor<'_>) -> Result<(Reg, Reg, i16), Misfit>
    ensures { result ≡ addi_at line.old }
{
    let a = line.register()?;
    line.mark(b',')?;
    let b = line.register()?;
    line.mark(b',')?;
    let i = line.immediate()?;
    line.end((a, b, i))
}

/// The operands `a, b, c` of an operation on two registers into a third.
#[tactic(auto, unfolding(crate::specs::Statements::three_at))]
fn three(line: &mut Cursor<'_>) -> Result<(Reg, Reg, Reg), Misfit>
    ensures { result ≡ three_at line.old }
{
    let a = line.register()?;
    line.mark(b',')?;
    let b = line.register()?;
    line.mark(b',')?;
    let c = line.register()?;
    line.end((a, b, c))
}

/// The operands `a, i(b)` of `ld`, `st` and `tas`, as a, b and i.
#[tactic(auto, unfolding(crate::specs::Statements::access_at))]
fn access(line: &mut Cursor<'_>) -> Result<(Reg, Reg, i16), Misfit>
    ensures { result ≡ access_at line.old }
{
    let a = line.register()?;
    line.mark(b',')?;
    let i = line.immediate()?;
    line.mark(b'(')?;
    let b = line.register()?;
    line.mark(b')')?;
    line.end((a, b, i))
}

/// The operands `a, b, label` of a branch, as a, b and the immediate that leads to the label.
#[tactic(auto, unfolding(crate::specs::Statements::branch_at))]
fn branch<'a>(
    labels: &Labels<'a>,
    context: Context,
    line: &mut Cursor<'a>,
) -> Result<(Reg, Reg, i16), Misfit>
    ensures { result ≡ branch_at (immediate_of labels.now context) line.old }
{
    let a = line.register()?;
    line.mark(b',')?;
    let b = line.register()?;
    line.mark(b',')?;
    let i = line.label(labels, context)?;
    line.end((a, b, i))
}

/// The operand `label` of `jmp`, as the immediate that leads to it.
#[tactic(auto, unfolding(crate::specs::Statements::jmp_at))]
fn jmp<'a>(labels: &Labels<'a>, context: Context, line: &mut Cursor<'a>) -> Result<i16, Misfit>
    ensures { result ≡ jmp_at (immediate_of labels.now context) line.old }
{
    let i = line.label(labels, context)?;
    line.end(i)
}

/// The operands `a, label` of `call`, as a and the immediate that leads to the label.
#[tactic(auto, unfolding(crate::specs::Statements::call_at))]
fn call<'a>(
    labels: &Labels<'a>,
    context: Context,
    line: &mut Cursor<'a>,
) -> Result<(Reg, i16), Misfit>
    ensures { result ≡ call_at (immediate_of labels.now context) line.old }
{
    let a = line.register()?;
    line.mark(b',')?;
    let i = line.label(labels, context)?;
    line.end((a, i))
}

/// The instruction of an operation, by its operands up to the end of the line.
fn instr<'a>(
    labels: &Labels<'a>,
    context: Context,
    operation: Operation,
    line: &mut Cursor<'a>,
) -> Result<Instr, Misfit>
    ensures { result ≡ operation_at (immediate_of labels.now context) operation line.old }
{
    match operation {
        Operation::Halt => line.end(Instr::Halt),
        Operation::Nop => line.end(Instr::Nop),
        Operation::Li => li(line).map(|(a, i)| Instr::Li { a, i }),
        Operation::Lih => lih(line).map(|(a, u)| Instr::Lih { a, u }),
        Operation::AddI => addi(line).map(|(a, b, i)| Instr::AddI { a, b, i }),
        Operation::Add => three(line).map(|(a, b, c)| Instr::Add { a, b, c }),
        Operation::Sub => three(line).map(|(a, b, c)| Instr::Sub { a, b, c }),
        Operation::And => three(line).map(|(a, b, c)| Instr::And { a, b, c }),
        Operation::Or => three(line).map(|(a, b, c)| Instr::Or { a, b, c }),
        Operation::Xor => three(line).map(|(a, b, c)| Instr::Xor { a, b, c }),
        Operation::Shl => three(line).map(|(a, b, c)| Instr::Shl { a, b, c }),
        Operation::Shr => three(line).map(|(a, b, c)| Instr::Shr { a, b, c }),
        Operation::Slt => three(line).map(|(a, b, c)| Instr::Slt { a, b, c }),
        Operation::SltU => three(line).map(|(a, b, c)| Instr::SltU { a, b, c }),
        Operation::Ld => access(line).map(|(a, b, i)| Instr::Ld { a, b, i }),
        Operation::St => access(line).map(|(a, b, i)| Instr::St { a, b, i }),
        Operation::Tas => access(line).map(|(a, b, i)| Instr::Tas { a, b, i }),
        Operation::Beq => branch(labels, context, line).map(|(a, b, i)| Instr::Beq { a, b, i }),
        Operation::Bne => branch(labels, context, line).map(|(a, b, i)| Instr::Bne { a, b, i }),
        Operation::Blt => branch(labels, context, line).map(|(a, b, i)| Instr::Blt { a, b, i }),
        Operation::Bge => branch(labels, context, line).map(|(a, b, i)| Instr::Bge { a, b, i }),
        Operation::Jmp => jmp(labels, context, line).map(|i| Instr::Jmp { i }),
        Operation::Call => call(labels, context, line).map(|(a, i)| Instr::Call { a, i }),
        Operation::Jr => one(line).map(|a| Instr::Jr { a }),
        Operation::Show => one(line).map(|a| Instr::Show { a }),
    }
}

/// The statement of this sort, of the fields that stand behind its name up to the end of the line. `labels` are those
/// of all lines, and `context` is what stands before this one.
pub fn statement<'a>(
    labels: &Labels<'a>,
    context: Context,
    sort: Sort,
    line: &mut Cursor<'a>,
) -> Result<Statement, Misfit>
    ensures { result ≡ fields_at (immediate_of labels.now context) sort line.old }
{
    match sort {
        Sort::Page => Ok(Statement::Page(page(line)?)),
        Sort::Word => Ok(Statement::Word(word(line)?)),
        Sort::Board => line.end(Statement::Board),
        Sort::Seg => Ok(Statement::Seg(seg(line)?)),
        Sort::Code(operation) => { Ok(Statement::Code(instr(labels, context, operation, line)?)) }
    }
}
