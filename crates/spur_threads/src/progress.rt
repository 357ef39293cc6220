//! How far boards have come, as their threads know it.

use spur_board::Board;

/// How many boards a world has at most.
pub(crate) const MOST_BOARDS: usize = 12;

/// How far a board had come when it was last looked at.
#[derive(Clone, Copy)]
pub(crate) struct Progress {
    /// How many instructions it had completed.
    pub(crate) retired: u32,
    /// Whether it had ended.
    pub(crate) ended: bool,
}

/// How far a board has come.
pub(crate) fn progress_of<C>(board: &Board<C>) -> Progress {
    Progress {
        retired: board.retired,
        ended: board.ended.is_some(),
    }
}

/// How far the boards had come when the run began. A board that is not there has ended.
#[derive(Drop)]
pub(crate) struct FirstProgress {
    each: [Progress; MOST_BOARDS],
}

impl FirstProgress {
    /// How far these boards have come. It takes no memory.
    pub(crate) fn of<C>(boards: &[Board<C>]) -> FirstProgress {
        let none = Progress {
            retired: 0,
            ended: true,
        };
        let mut each = [none; MOST_BOARDS];
        for (progress, board) in each.iter_mut().zip(boards) {
            *progress = progress_of(board);
        }
        FirstProgress { each }
    }

    /// How far the board of this number had come.
    pub(crate) fn of_board(&self, b: u32) -> Progress {
        match self.each.get(b as usize) {
            Some(progress) => *progress,
            None => Progress {
                retired: 0,
                ended: true,
            },
        }
    }
}
