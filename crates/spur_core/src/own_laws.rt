//! Laws of own steps in a world, each shown by a function that does nothing.

ghost use Rattle.spur_core.specs.Own.{EventsTakeInstructions, EventIsStepped, EventKeepsGood, EventLogsOneAnswer};
ghost use Rattle.spur_core.specs.Own.{GoodBoardsAreSound, GoodRests, OwnStepKeepsGood};
ghost use Rattle.spur_core.specs.Step.{StepsTakeInstructions};

use spur_cpu::Cpu;
use spur_swap::Backing;

/// What a board does alone keeps a good world, whatever the other boards and their logs are: an event does, and so does an
/// own step. No board of a good world is torn, so each of them is an own step after itself.
pub fn own_steps_keep_good<C: Cpu, B: Backing>()
    ensures event { EventKeepsGood C.meaning C.state C.room B.meaning }
    ensures step { OwnStepKeepsGood C.meaning C.state C.room B.meaning }
    ensures sound { GoodBoardsAreSound C.meaning C.state C.room B.meaning }
    ensures rests { GoodRests C.meaning C.state C.room B.meaning }
{}

/// What an event logs is nothing, or the one entry that answers the board's access. Where all logs are empty, it is one
/// whole instruction over the history with the logs; and it is one over the boards' own entries whatever entries of
/// their boards the logs hold. A step on the bus is one over these too.
pub fn own_events_are_steps<C: Cpu, B: Backing>()
    ensures one { EventLogsOneAnswer C.meaning C.state C.room }
    ensures stepped { EventIsStepped C.meaning C.state C.room B }
    ensures instruction { EventsTakeInstructions C.meaning C.state C.room B }
    ensures steps { StepsTakeInstructions C.meaning C.state }
{}
