//! The frame table.

ghost use Rattle.std.specs.Prelude.{◌≡◌, ◌+◌, ◌≤◌, ◌<◌, IfOk, IfSome, IsSome, None, Some, is_none, length};
ghost use Rattle.spur_frames.specs.Frames.{AreFrames, IsFrame, IsFree, IsTaken, IsTakenOf, holder_of, least_free, looked_at, new_frames, passed, place_after, release_frame, take_frame, taken_from};

use std::alloc::{AllocError, Global};
use std::marker::Model;

/// The frames of pages, 1 to 4096 of them with consecutive numbers.
///
/// Contracts see the number of the first frame; the list of what each frame holds, which is a page and
/// its slot, or nothing where the frame is free; the place of the hand, counted from the first frame;
/// and the number of the frame whose page is leaving, if there is one. The hand is always on one of
/// the frames, and the leaving frame is a taken one.
#[derive(Debug, Drop)]
pub struct FrameTable {
    first: u32,
    held: Vec<Option<(u32, u32)>>,
    hand: u32,
    leaving: Option<u32>,
    free: u32,
}

impl Model for FrameTable {
    ghost use Rattle.std.specs.Prelude.{◌≡◌};
    ghost use Rattle.spur_frames.specs.Frames.{AreFrames, Frames, free_count};

    ghost Value = { Frames };

    ghost view = { λ a. record { first = a.first; held = a.held.items; hand = a.hand; leaving = a.leaving } };

    ghost invariant = { λ a. AreFrames (record { first = a.first; held = a.held.items; hand = a.hand; leaving = a.leaving })
        × (a.free ≡ free_count a.held.items) };
}

impl FrameTable {
    /// A table of `frames` frames, at least 1, with the numbers from `first` on, all below 4096. All of
    /// them are free, the hand is on the first, and no page is leaving. The answer is
    /// `AllocError` only for want of memory; no other call takes memory.
    pub fn new(alloc: Global, first: u32, frames: u32) -> Result<FrameTable, AllocError>
        requires some { 1 ≤ frames }
        requires few { first + frames ≤ 4096 }
        ensures free { IfOk result (λ table. table ≡ new_frames first frames) }
    {
        let held = vec![in alloc; None; frames as usize]?;
        Ok(FrameTable {
            first,
            held,
            hand: 0,
            leaving: None,
            free: frames,
        })
    }

    /// How many frames there are, from 1 to 4096.
    pub fn frames(&self) -> u32
        ensures value { result ≡ length self.now.held }
        ensures table { AreFrames self.now }
    {
        self.held.len() as u32
    }

    /// Whether no frame is free. Looks at no frame: the table keeps the number of its free frames.
    pub fn is_full(&self) -> bool
        ensures full { result ≡ is_none (least_free self.now) }
    {
        self.free == 0
    }

    /// The free frame with the least number; `None` exactly where none is free. Looks at each frame up
    /// to that one, and at no frame where none is free: the table keeps the number of its free frames.
    pub fn free_one(&self) -> Option<u32>
        ensures least { result ≡ least_free self.now }
        ensures free { IfSome result (IsFree self.now) }
    {
        if self.free == 0 {
            return None;
        }
        for (k, holder) in self.held.iter().enumerate() {
            if holder.is_none() {
                return Some(self.first + k as u32);
            }
        }
        None
    }

    /// The page that a frame of the table holds and the page's slot, in this order; `None` exactly
    /// where the frame is free. Looks at one frame.
    pub fn holder(&self, frame: u32) -> Option<(u32, u32)>
        requires frame { IsFrame self.now frame }
        ensures holder { result ≡ holder_of self.now frame }
    {
        self.held[(frame - self.first) as usize]
    }

    /// The first taken frame at or after the hand, going round; `None` exactly where none is taken.
    /// Looks at each frame from the hand up to that one.
    pub fn look_next(&self) -> Option<u32>
        ensures first { result ≡ looked_at self.now }
        ensures taken { IfSome result (IsTaken self.now) }
    {
        let hand = self.hand as usize;
        match first_taken(self.first + self.hand, &self.held[hand..]) {
            Some(frame) => Some(frame),
            None => first_taken(self.first, &self.held[..hand]),
        }
    }

    /// Puts the hand on the frame after that of `look_next`, going round: after the last frame comes
    /// the first. Some frame has to be taken. Looks at the same frames as `look_next`.
    pub fn pass(&mut self)
        requires taken { IsSome (looked_at self.old) }
        ensures passed { self.new ≡ passed self.old }
    {
        if let Some(frame) = self.look_next() {
            self.hand = self.place_after(frame);
        }
    }

    /// Has a free frame hold a page, with the page's slot. Looks at one frame.
    pub fn take(&mut self, frame: u32, page: u32, slot: u32)
        requires free { IsFree self.old frame }
        ensures taken { self.new ≡ take_frame self.old frame page slot }
    {
        self.held[(frame - self.first) as usize] = Some((page, slot));
        self.free -= 1;
    }

    /// Frees a taken frame. Where it was the leaving one, none is leaving. Looks at one frame.
    pub fn release(&mut self, frame: u32)
        requires taken { IsTaken self.old frame }
        ensures released { self.new ≡ release_frame self.old frame }
    {
        self.held[(frame - self.first) as usize] = None;
        self.free += 1;
        if self.leaving == Some(frame) {
            self.leaving = None;
        }
    }

    /// The frame whose page is leaving, which is a taken one; `None` exactly where no page is leaving.
    /// Looks at no frame.
    pub fn leaving(&self) -> Option<u32>
        ensures leaving { result ≡ self.now.leaving }
        ensures taken { IfSome result (IsTaken self.now) }
    {
        self.leaving
    }

    /// Has the page of a taken frame be the leaving one. No other may be leaving.
    pub fn set_leaving(&mut self, frame: u32)
        requires taken { IsTaken self.old frame }
        requires none { self.old.leaving ≡ None }
        ensures leaving { self.new ≡ record self.old { leaving = Some frame } }
    {
        self.leaving = Some(frame);
    }

    /// The place of the frame after one, going round.
    fn place_after(&self, frame: u32) -> u32
        requires { IsFrame self.now frame }
        ensures value { result ≡ place_after self.now frame }
        ensures within { result < length self.now.held }
    {
        let end = self.first + self.held.len() as u32;
        if frame + 1 == end {
            0
        } else {
            frame + 1 - self.first
        }
    }
}

/// The first taken frame of a part of the table whose first frame has the number `first`.
fn first_taken(first: u32, part: &[Option<(u32, u32)>]) -> Option<u32>
    requires { first + length part.now ≤ 4096 }
    ensures value { result ≡ taken_from first part.now }
    ensures taken { IfSome result (IsTakenOf first part.now) }
{
    for (k, holder) in part.iter().enumerate() {
        if holder.is_some() {
            return Some(first + k as u32);
        }
    }
    None
}
