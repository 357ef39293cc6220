//! Which board is next.

ghost use Rattle.std.specs.Prelude.{◌≡◌, ◌≤◌, length, slice_get};
ghost use Rattle.spur_sched.specs.Picks.{are_out, next_number, picked_board, running_boards};

use spur_board::Board;

/// The number after a number.
pub(crate) fn next(x: u64) -> u64
    ensures { result ≡ next_number x }
{
    x.wrapping_mul(6364136223846793005)
        .wrapping_add(1442695040888963407)
}

/// The board that a number picks of those that have not ended; `None` exactly where all have.
pub(crate) fn pick<C>(boards: &[Board<C>], x: u64) -> Option<u32>
    requires few { length boards.now ≤ 12 }
    ensures { result ≡ picked_board x (running_boards (are_out boards.now)) }
{
    let running = count_running(boards);
    if running == 0 {
        return None;
    }
    running_at(boards, (x >> 33) as usize % running)
}

/// How many boards have not ended.
fn count_running<C>(boards: &[Board<C>]) -> usize
    requires few { length boards.now ≤ 12 }
    ensures { result ≡ length (running_boards (are_out boards.now)) }
{
    let mut running = 0usize;
    for board in boards {
        if board.ended.is_none() {
            running += 1;
        }
    }
    running
}

/// The board at a position among those that have not ended.
fn running_at<C>(boards: &[Board<C>], position: usize) -> Option<u32>
    requires few { length boards.now ≤ 12 }
    ensures { result ≡ slice_get (running_boards (are_out boards.now)) position }
{
    let mut left = position;
    for i in 0..boards.len() {
        if boards[i].ended.is_none() {
            if left == 0 {
                return Some(i as u32);
            }
            left -= 1;
        }
    }
    None
}
