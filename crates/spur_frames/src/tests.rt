//! A table of three frames, call by call, and turns of its clock.

use crate::FrameTable;
use std::alloc::{AllocError, Global};
use std::marker::Model;
use std::test::Fail;

/// A page and its slot.
type Holder = (u32, u32);

/// A change of a table.
#[derive(Clone, Copy)]
enum Step {
    Take(u32, Holder),
    Release(u32),
    Leave(u32),
    Pass,
}

/// A table of the frames 65, 66 and 67.
#[derive(Drop)]
struct Three {
    table: FrameTable,
}

impl Model for Three {
    ghost use Rattle.std.specs.Prelude.{◌≡◌, length};
    ghost use Rattle.spur_frames.specs.Frames.{Frames};

    ghost Value = { Frames };

    ghost view = { λ a. a.table };

    ghost invariant = { λ a. (a.table.first ≡ 65) × (length a.table.held ≡ 3) };
}

impl Three {
    fn new(alloc: Global) -> Result<Three, AllocError> {
        let table = FrameTable::new(alloc, 65, 3)?;
        Ok(Three { table })
    }

    /// All frames taken, by the pages 5, 3 and 4, in this order.
    fn full(alloc: Global) -> Result<Three, Fail> {
        let mut three = Three::new(alloc)?;
        three.apply(Step::Take(65, (5, 0)))?;
        three.apply(Step::Take(66, (3, 2)))?;
        three.apply(Step::Take(67, (4, 1)))?;
        Ok(three)
    }

    /// What the frames hold; and the least free one, the one that the hand finds, and the leaving one,
    /// with 0 for none.
    fn told(&self) -> ([Option<Holder>; 3], [u32; 3]) {
        let held = [
            self.table.holder(65),
            self.table.holder(66),
            self.table.holder(67),
        ];
        let free = self.table.free_one().unwrap_or(0);
        let next = self.table.look_next().unwrap_or(0);
        let leaving = self.table.leaving().unwrap_or(0);
        (held, [free, next, leaving])
    }

    /// Makes a change that its call allows.
    fn apply(&mut self, step: Step) -> Result<(), Fail> {
        match step {
            Step::Take(frame, (page, slot)) => match frame {
                65..=67 => match self.table.holder(frame) {
                    None => self.table.take(frame, page, slot),
                    Some(_) => return Err(Fail::from("taken")),
                },
                _ => return Err(Fail::from("no frame")),
            },
            Step::Release(frame) => match frame {
                65..=67 => match self.table.holder(frame) {
                    Some(_) => self.table.release(frame),
                    None => return Err(Fail::from("free")),
                },
                _ => return Err(Fail::from("no frame")),
            },
            Step::Leave(frame) => self.leave(frame)?,
            Step::Pass => match self.table.look_next() {
                Some(_) => self.table.pass(),
                None => return Err(Fail::from("none is taken")),
            },
        }
        Ok(())
    }

    /// Has the page of a taken frame leave, where no other leaves.
    fn leave(&mut self, frame: u32) -> Result<(), Fail> {
        match frame {
            65..=67 => match (self.table.holder(frame), self.table.leaving()) {
                (Some(_), None) => self.table.set_leaving(frame),
                _ => return Err(Fail::from("free, or another is leaving")),
            },
            _ => return Err(Fail::from("no frame")),
        }
        Ok(())
    }

    /// A turn of the clock over the R bits of the pages by their numbers: the pages that are cleared,
    /// in their order, and the one that leaves.
    fn turn(&mut self, bits: &mut [bool; 8]) -> Result<([Option<u32>; 3], u32), Fail> {
        let mut cleared = [None; 3];
        for look in 0..4usize {
            let Some(frame) = self.table.look_next() else {
                return Err(Fail::from("none is taken"));
            };
            let Some((page, _)) = self.table.holder(frame) else {
                return Err(Fail::from("free"));
            };
            if page >= 8 {
                return Err(Fail::from("no bit"));
            }
            if bits[page as usize] {
                if look == 3 {
                    return Err(Fail::from("a fourth page is cleared"));
                }
                bits[page as usize] = false;
                cleared[look] = Some(page);
                self.table.pass();
            } else {
                self.table.pass();
                self.leave(frame)?;
                return Ok((cleared, page));
            }
        }
        Err(Fail::from("no page leaves"))
    }
}

#[test]
fn a_new_table_is_free(rt: HostRuntime) -> Result<(), Fail> {
    let three = Three::new(rt.alloc())?;
    assert_eq!(rt; three.table.frames(), 3);
    assert_eq!(rt; three.told(), ([None; 3], [65, 0, 0]));
    assert_eq!(rt; three.table.look_next(), None);
    assert_eq!(rt; three.table.leaving(), None);
    Ok(())
}

#[test]
fn frames_are_taken_leave_and_are_released(rt: HostRuntime) -> Result<(), Fail> {
    let pages = [(5, 0), (3, 2), (4, 1)];
    let [a, b, c] = pages.map(Some);
    let no = None;
    let mut three = Three::new(rt.alloc())?;
    for (step, held, numbers) in [
        (Step::Take(66, pages[0]), [no, a, no], [65, 66, 0]),
        (Step::Take(65, pages[1]), [b, a, no], [67, 65, 0]),
        (Step::Take(67, pages[2]), [b, a, c], [0, 65, 0]),
        (Step::Leave(66), [b, a, c], [0, 65, 66]),
        (Step::Pass, [b, a, c], [0, 66, 66]),
        (Step::Release(65), [no, a, c], [65, 66, 66]),
        // the hand is on 66, so it finds the frame after it
        (Step::Release(66), [no, no, c], [65, 67, 0]),
        (Step::Leave(67), [no, no, c], [65, 67, 67]),
        // and from there it goes round to 65
        (Step::Pass, [no, no, c], [65, 67, 67]),
        (Step::Take(65, pages[0]), [a, no, c], [66, 65, 67]),
        (Step::Release(67), [a, no, no], [66, 65, 0]),
        (Step::Release(65), [no, no, no], [65, 0, 0]),
    ] {
        three.apply(step)?;
        assert_eq!(rt; three.told(), (held, numbers));
    }
    assert_eq!(rt; three.table.free_one(), Some(65));
    Ok(())
}

#[test]
fn no_frame_is_free_where_all_are_taken(rt: HostRuntime) -> Result<(), Fail> {
    let three = Three::full(rt.alloc())?;
    assert_eq!(rt; three.table.free_one(), None);
    Ok(())
}

#[test]
fn the_first_page_whose_bit_is_clear_leaves(rt: HostRuntime) -> Result<(), Fail> {
    // the bits of the pages of 65, 66 and 67; the pages cleared; the page that leaves and its frame;
    // and where the hand is then
    for (set, cleared, leaves, frame, hand) in [
        ([true, true, false], [5, 3, 0], 4, 67, 65),
        ([true, true, true], [5, 3, 4], 5, 65, 66),
        ([false, false, false], [0, 0, 0], 5, 65, 66),
        ([true, false, true], [5, 0, 0], 3, 66, 67),
        ([false, true, true], [0, 0, 0], 5, 65, 66),
    ] {
        let mut three = Three::full(rt.alloc())?;
        let mut bits = [false; 8];
        bits[5] = set[0];
        bits[3] = set[1];
        bits[4] = set[2];
        let (told, page) = three.turn(&mut bits)?;
        assert_eq!(rt; told.map(|page| page.unwrap_or(0)), cleared);
        assert_eq!(rt; page, leaves);
        assert_eq!(rt; three.table.leaving(), Some(frame));
        assert_eq!(rt; three.table.look_next(), Some(hand));
    }
    Ok(())
}

#[test]
fn the_clock_starts_at_the_hand_and_leaves_out_free_frames(rt: HostRuntime) -> Result<(), Fail> {
    let mut three = Three::full(rt.alloc())?;
    three.apply(Step::Pass)?;
    three.apply(Step::Release(66))?;
    // the hand is on 66, which is free, so the order is 67, 65
    let mut bits = [true; 8];
    bits[5] = false;
    assert_eq!(rt; three.turn(&mut bits)?, ([Some(4), None, None], 5));
    assert_eq!(rt; three.table.leaving(), Some(65));
    assert!(rt; !bits[4]);
    assert!(rt; bits[3]);
    // and then it is on 66 again
    three.apply(Step::Take(66, (3, 2)))?;
    assert_eq!(rt; three.table.look_next(), Some(66));
    Ok(())
}

/// Takes a value that may go to another thread.
fn take_sendable<T: Send + Drop>(_value: T) {}

#[test]
fn a_table_may_go_to_another_thread(rt: HostRuntime) -> Result<(), Fail> {
    take_sendable(FrameTable::new(rt.alloc(), 64, 3)?);
    Ok(())
}
