//! Laws of own steps, each shown by a function that does nothing.

ghost use Rattle.spur_board.specs.BudgetLaw.{CompletesWithinBudget};
ghost use Rattle.spur_board.specs.OwnLaws.{CauseIsOne, EventKeepsSound, EventsCount, FaultIsWithin};
ghost use Rattle.spur_board.specs.OwnLaws.{EventIsAnInstruction, StandingIsAStep, StepLeadsOn, StepsChain, StepsKeep};

use spur_cpu::Cpu;

/// Each board that is not torn is an own step after itself, an event leaves a board so, and one own step after another
/// is one. An own step keeps all of a board but its processor, the words of its lines, its log, its count and its
/// ending. So many events complete so many instructions, but for a last one that is a fault, and a turn takes such a
/// fault only where it has instructions left. Of the causes for which a turn stops at most one is there.
pub fn own_steps_chain<C: Cpu>()
    ensures standing { StandingIsAStep C.meaning C.state C.room }
    ensures sound { EventKeepsSound C.meaning C.state C.room }
    ensures chain { StepsChain C.meaning C.state C.room }
    ensures keep { StepsKeep C.meaning C.state C.room }
    ensures count { EventsCount C.meaning C.state C.room }
    ensures fault { FaultIsWithin C.meaning C.state C.room }
    ensures cause { CauseIsOne C.meaning C.state C.room }
{}

/// An event is one whole instruction of the board's program, by the entries that it logs: none, or the one of its
/// access. So an own step leads the program on by what it logs.
pub fn own_steps_lead_on<C: Cpu>()
    ensures instruction { EventIsAnInstruction C.meaning C.state C.room }
    ensures leads { StepLeadsOn C.meaning C.state C.room }
{}

/// Wherever a board's program has come from its beginning, it has completed no more instructions than its budget
/// allows, whether it has ended or not.
pub fn budget_is_kept<C: Cpu>()
    ensures { CompletesWithinBudget C.meaning }
{}
