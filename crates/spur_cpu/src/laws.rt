//! Laws of where a board has come, each shown by a function that does nothing.

ghost use Rattle.spur_cpu.specs.Laws.{EndedUsesNothing, EntryLeadsOn, GoingOn, LocalLeadsOn, Pieces};
ghost use Rattle.spur_cpu.specs.OnwardLaws.{BudgetStaysLeft, EmptyFits, FitByTheNext, ToAccessLeadsOn, WantsNoLocal};
ghost use Rattle.spur_cpu.specs.OnwardLaws.{InstructionIsOne, InstructionLeadsOn, MadeOfInstructions, NothingCompleted};
ghost use Rattle.spur_cpu.specs.ZeroRegister.{ZeroStays};

use crate::cpu::Cpu;

/// A board that goes one piece of its entries and instructions and then another has gone both together.
pub fn pieces<C: Cpu>()
    ensures { Pieces C.meaning }
{}

/// One more local instruction, and one more entry, lead a board on.
pub fn leads_on<C: Cpu>()
    ensures local { LocalLeadsOn C.meaning }
    ensures entry { EntryLeadsOn C.meaning }
{}

/// A board that has ended uses no entry and completes no instruction.
pub fn ended_uses_nothing<C: Cpu>()
    ensures { EndedUsesNothing C.meaning }
{}

/// A board has completed as many instructions as it counts. Where it has no ending, its processor wants something and
/// its budget is not spent; where it has halted or faulted, its processor wants nothing more.
pub fn going_on<C: Cpu>()
    ensures { GoingOn C.meaning }
{}

/// A board that is carried on to its next access comes there by the same entries, and wants no local instruction there.
/// Entries fit a board exactly where the first carries it on from its next access and the others fit where that leads.
pub fn carried_to_access<C: Cpu>()
    ensures no_local { WantsNoLocal C.meaning }
    ensures leads { ToAccessLeadsOn C.meaning }
    ensures next { FitByTheNext C.meaning }
    ensures empty { EmptyFits C.meaning }
    ensures budget { BudgetStaysLeft C.meaning }
{}

/// One whole instruction leads a board on by its entries. It completes one instruction, or an ending fault stops the
/// board by it. Each way that a board goes is made of such instructions.
pub fn carried_by_instructions<C: Cpu>()
    ensures leads { InstructionLeadsOn C.meaning }
    ensures one { InstructionIsOne C.meaning }
    ensures made { MadeOfInstructions C.meaning }
    ensures nothing { NothingCompleted C.meaning }
{}

/// Wherever a program has come on a plain processor, register 0 is 0.
pub fn zero_stays()
    ensures { ZeroStays }
{}
