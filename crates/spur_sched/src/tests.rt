//! Which boards are picked, by values that were worked out by hand.

ghost use Rattle.std.specs.Prelude.{◌≡◌, ◌≤◌, IfOk, length};

use crate::picking::{next, pick};
use spur_board::{Board, Ending};
use spur_cpu::{Cpu, PlainCpu, Want};
use spur_list::Items;
use std::alloc::Global;
use std::test::Fail;

/// New boards, of which those have halted that are told to have.
fn boards(alloc: Global, halted: &[bool]) -> Result<Vec<Board<PlainCpu>>, Fail>
    requires { length halted.now ≤ 12 }
    ensures { IfOk result (λ boards. length boards.items ≡ length halted.now) }
{
    let mut boards = Vec::new(alloc);
    for (k, halts) in halted.iter().enumerate() {
        let cpu = PlainCpu::new(alloc, Items::new(alloc), 1)?;
        if let Want::Ended = cpu.want() {
            return Err(Fail::from("a processor that wants nothing"));
        }
        let mut board = Board::new(alloc, k as u32, cpu, [0, 1, 2, 3], 16, 1)?;
        if *halts {
            board.ended = Some(Ending::Halted);
        }
        boards.push(board)?;
    }
    Ok(boards)
}

#[test]
fn a_start_makes_its_numbers(rt: HostRuntime) {
    assert_eq!(rt; next(1) >> 33, 908834774);
    assert_eq!(rt; next(0) >> 33, 167951807);
}

#[test]
fn a_number_picks_a_board_that_has_not_ended(rt: HostRuntime) -> Result<(), Fail> {
    let two = boards(rt.alloc(), &[false, false])?;
    assert_eq!(rt; pick(&two, next(1)), Some(0));
    assert_eq!(rt; pick(&two, next(0)), Some(1));
    let three = boards(rt.alloc(), &[false, false, false])?;
    assert_eq!(rt; pick(&three, next(1)), Some(2));
    assert_eq!(rt; pick(&three, next(0)), Some(2));
    // of the boards 1 and 2, which are left, the second
    let left = boards(rt.alloc(), &[true, false, false])?;
    assert_eq!(rt; pick(&left, next(0)), Some(2));
    let none = boards(rt.alloc(), &[true, true])?;
    assert_eq!(rt; pick(&none, next(1)), None);
    Ok(())
}
