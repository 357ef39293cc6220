//! Own turns of boards with a plain processor, by values that were worked out by hand.

ghost use Rattle.std.specs.Prelude.{◌≤◌, ◌<◌, ◌^◌, IfOk};
ghost use Rattle.spur_cpu.specs.Plain.{plain};
ghost use Rattle.spur_cpu.specs.PlainCpus.{plain_of, room_of};
ghost use Rattle.spur_board.specs.Boards.{IsSound};

use crate::{Board, BusReason, Ending, Turn, budget_is_kept, own_steps_chain, own_steps_lead_on};
use spur_addr::{GlobalAddr, Protection, global};
use spur_cache::{CacheFault, Line};
use spur_cpu::{Cpu, PlainCpu, Want};
use spur_flat::{AccessKind, Entry, FaultKind};
use spur_isa::{Instr, Reg};
use spur_list::Items;
use spur_snoop::BlockState;
use std::alloc::Global;
use std::test::Fail;

/// The segment registers of each board.
const SEGS: [u8; 4] = [0, 1, 2, 3];

/// A line of block 2, whose words are 20 to 27.
fn line(state: BlockState, prot: Protection) -> Line
    ensures { result.tag < 2 ^ 33 }
{
    Line {
        tag: 2,
        state,
        frame: 7,
        prot,
        dirty: true,
        words: [20, 21, 22, 23, 24, 25, 26, 27],
    }
}

/// Board 3 with this program, whose 16 cache lines have this one.
fn board(alloc: Global, code: &[Instr], line: Line, budget: u32) -> Result<Board<PlainCpu>, Fail>
    requires tag { line.tag < 2 ^ 33 }
    requires budget { 1 ≤ budget }
    ensures { IfOk result (IsSound plain plain_of room_of) }
{
    let code = Items::from_vec(code.to_vec(alloc)?);
    let cpu = PlainCpu::new(alloc, code, budget)?;
    if let Want::Ended = cpu.want() {
        return Err(Fail::from("a processor that wants nothing"));
    }
    let mut board = Board::new(alloc, 3, cpu, SEGS, 16, budget)?;
    board.cache.fill(line);
    let _ = board.cache.lines();
    Ok(board)
}

#[test]
fn a_loop_of_loads_goes_on_until_the_log_is_full(rt: HostRuntime) -> Result<(), Fail> {
    let a = Reg::of(1).ok_or("register 1")?;
    let b = Reg::ZERO;
    let code = [Instr::Ld { a, b, i: 64 }, Instr::Jmp { i: -2 }];
    let line = line(BlockState::UnOwned, Protection::ReadOnly);
    let mut board = board(rt.alloc(), &code, line, 5000)?;
    assert_eq!(rt; board.own_turn(4000), Turn::NeedsBus(BusReason::FullLog));
    assert_eq!(rt; board.log.entries().len(), 1024);
    assert_eq!(rt; board.retired, 2048);
    assert_eq!(rt; board.ended, None);
    Ok(())
}

#[test]
fn one_instruction_does_this(rt: HostRuntime) -> Result<(), Fail> {
    let a = Reg::of(1).ok_or("register 1")?;
    let b = Reg::ZERO;
    let read_only = line(BlockState::UnOwned, Protection::ReadOnly);
    let own = line(BlockState::OwnedExclusive, Protection::ReadWrite);
    let shared = line(BlockState::OwnedNonExclusive, Protection::ReadWrite);
    let at = global(&SEGS, 68);
    let odd = global(&SEGS, 66);
    let fault = |kind, access, at| Entry::Fault {
        board: 3,
        kind,
        access,
        at,
    };
    let tas = Entry::Tas {
        board: 3,
        at,
        old: 21,
    };
    let store = Entry::Store {
        board: 3,
        at,
        value: 0,
    };
    let align = fault(FaultKind::Align, AccessKind::Load, odd);
    let denied = fault(FaultKind::Protection, AccessKind::Store, at);
    let away = Turn::NeedsBus(BusReason::Access);
    // the instruction, the line, the answer, the entry in the log, how many instructions are completed, and word 1
    let rows = [
        (Instr::Nop, own, Turn::Again, None, 1, 21),
        (Instr::Halt, own, Turn::Ended, None, 1, 21),
        (
            Instr::Tas { a, b, i: 68 },
            own,
            Turn::Again,
            Some(tas),
            1,
            1,
        ),
        (
            Instr::St { a, b, i: 68 },
            own,
            Turn::Again,
            Some(store),
            1,
            0,
        ),
        (Instr::St { a, b, i: 68 }, shared, away, None, 0, 21),
        (
            Instr::St { a, b, i: 68 },
            read_only,
            Turn::Ended,
            Some(denied),
            0,
            21,
        ),
        (
            Instr::Ld { a, b, i: 66 },
            own,
            Turn::Ended,
            Some(align),
            0,
            21,
        ),
        (Instr::Ld { a, b, i: 96 }, own, away, None, 0, 21),
    ];
    for (instr, line, turn, entry, retired, word) in rows {
        let mut board = board(rt.alloc(), &[instr], line, 9)?;
        assert_eq!(rt; board.own_turn(1), turn, "{instr:?}");
        assert_eq!(rt; board.log.entries().first().copied(), entry, "{instr:?}");
        assert_eq!(rt; board.retired, retired, "{instr:?}");
        assert_eq!(rt;
            board.cache.find(at).map(|line| line.words[1]),
            Some(word),
            "{instr:?}"
        );
    }
    Ok(())
}

#[test]
fn a_board_ends_so(rt: HostRuntime) -> Result<(), Fail> {
    let line = line(BlockState::UnOwned, Protection::ReadOnly);
    let b = Reg::ZERO;
    let kind = FaultKind::Align;
    let at = global(&SEGS, 2);
    let faulted = Ending::Faulted { kind, at };
    for (first, second, ended) in [
        (Instr::Halt, Instr::Nop, Ending::Halted),
        (Instr::Nop, Instr::Halt, Ending::Halted),
        (Instr::Nop, Instr::Nop, Ending::Spent),
        (Instr::Nop, Instr::Tas { a: b, b, i: 2 }, faulted),
    ] {
        let mut board = board(rt.alloc(), &[first, second], line, 2)?;
        assert_eq!(rt; board.own_turn(9), Turn::Ended, "{second:?}");
        assert_eq!(rt; board.ended, Some(ended), "{second:?}");
    }
    Ok(())
}

#[test]
fn lines_that_are_no_power_of_two_from_16_to_4096_are_bad(rt: HostRuntime) -> Result<(), Fail> {
    for lines in [24, 8] {
        let cpu = PlainCpu::new(rt.alloc(), Items::new(rt.alloc()), 1)?;
        if let Want::Ended = cpu.want() {
            return Err(Fail::from("a processor that wants nothing"));
        }
        match Board::new(rt.alloc(), 0, cpu, SEGS, lines, 1) {
            Ok(_) => return Err(Fail::from("a board")),
            Err(fault) => assert_eq!(rt; fault, CacheFault::BadLines(lines)),
        }
    }
    Ok(())
}

/// Takes a value that may go to another thread.
fn take_sendable<T: Send + Drop>(_value: T) {}

/// Takes a board whose processor may go to another thread.
fn take_board<C: Cpu + Send>(board: Board<C>) {
    take_sendable(board);
}

#[test]
fn it_may_go_to_another_thread(rt: HostRuntime) -> Result<(), Fail> {
    let line = line(BlockState::UnOwned, Protection::ReadOnly);
    take_board(board(rt.alloc(), &[Instr::Nop], line, 1)?);
    Ok(())
}

#[test]
fn the_laws_hold_of_a_plain_processor() {
    own_steps_chain::<PlainCpu>();
    own_steps_lead_on::<PlainCpu>();
    budget_is_kept::<PlainCpu>();
}
