//! One step of a schedule: a board takes one whole instruction.

ghost use Rattle.std.specs.Prelude.{◌≡◌, OnErr, OnOk, false, true};
ghost use Rattle.spur_core.specs.Boards.{LogsAreEmpty, whole};
ghost use Rattle.spur_core.specs.Step.{HasTakenInstruction, IsStepped};
ghost use Rattle.spur_core.specs.World.{IsGoodWorld, IsPrefix};
ghost use Rattle.spur_core.specs.Own.{IsUnended};
ghost use Rattle.spur_sched.specs.Steps.{MergesAllOrNone, NeedsNoBus};

use spur_board::Turn;
use spur_core::World;
use spur_cpu::Cpu;
use spur_swap::Backing;
use std::alloc::AllocError;

/// Board `b`, which has not ended, takes one whole instruction: alone where it can, and else on the bus.
///
/// A turn on the bus joins all logs to the history. Behind an instruction that was taken alone they are joined too,
/// unless the schedule joins them `late`: then the history, and all else that the boards share, is as it was.
///
/// `AllocError` comes only for want of memory. The cost beside the instruction, its turn on the bus and the entries
/// that are joined is that of the boards.
pub(crate) fn take_step<C: Cpu, B: Backing>(
    world: &mut World<C, B>,
    b: u32,
    late: bool,
) -> Result<(), AllocError>
    requires good { IsGoodWorld C.meaning C.state C.room B.meaning world.old }
    requires empty { late ≡ false → LogsAreEmpty world.old.boards.items }
    requires running { IsUnended world.old.boards.items b }
    ensures good { IsGoodWorld C.meaning C.state C.room B.meaning world.new }
    ensures beginning { world.new.beginning ≡ world.old.beginning }
    ensures prefix { IsPrefix world.old.store.history.entries world.new.store.history.entries }
    ensures instruction { OnOk result (HasTakenInstruction C.meaning C.state b
        (whole world.old.store world.old.boards.items) (whole world.new.store world.new.boards.items)
        world.old.boards.items world.new.boards.items) }
    ensures joined { OnOk result (MergesAllOrNone world.old world.new) }

    // where the logs are joined after each step
    ensures empty { OnOk result (late ≡ false → LogsAreEmpty world.new.boards.items) }
    ensures stepped { OnOk result (late ≡ false
        → IsStepped C.meaning C.state b (whole world.old.store world.old.boards.items)
        (whole world.new.store world.new.boards.items) world.old.boards.items world.new.boards.items) }

    // where they are joined late
    ensures kept { late ≡ true → NeedsNoBus C.meaning C.state C.room world.old.boards.items b
        → world.new.store ≡ world.old.store }
{
    take_instruction(world, b)?;
    if late {
        return Ok(());
    }
    world.merge()
}

/// The instruction: where it is taken alone, its entry stands in the board's log.
fn take_instruction<C: Cpu, B: Backing>(world: &mut World<C, B>, b: u32) -> Result<(), AllocError>
    requires good { IsGoodWorld C.meaning C.state C.room B.meaning world.old }
    requires running { IsUnended world.old.boards.items b }
    ensures good { IsGoodWorld C.meaning C.state C.room B.meaning world.new }
    ensures beginning { world.new.beginning ≡ world.old.beginning }
    ensures prefix { IsPrefix world.old.store.history.entries world.new.store.history.entries }
    ensures instruction { OnOk result (HasTakenInstruction C.meaning C.state b
        (whole world.old.store world.old.boards.items) (whole world.new.store world.new.boards.items)
        world.old.boards.items world.new.boards.items) }
    ensures joined { OnOk result (MergesAllOrNone world.old world.new) }
    ensures stepped { OnOk result (LogsAreEmpty world.old.boards.items
        → IsStepped C.meaning C.state b (whole world.old.store world.old.boards.items)
        (whole world.new.store world.new.boards.items) world.old.boards.items world.new.boards.items) }
    ensures kept { NeedsNoBus C.meaning C.state C.room world.old.boards.items b
        → world.new.store ≡ world.old.store }
{
    match world.own(b, 1) {
        Turn::NeedsBus(_) => world.bus_turn(b),
        Turn::Again | Turn::Ended => Ok(()),
    }
}
