//! What the cache lines of one board are known to hold.

ghost use Rattle.std.specs.Prelude.{◌≡◌, ◌<◌, IfOk, length, replicate, None};
ghost use Rattle.spur_flat.specs.TagLines.{IsOfBlock, tag_in_state, tag_index, standing_tag, tag_in, snooped_tags, with_tag};
ghost use Rattle.spur_flat.specs.TagRules.{holds_page};

use crate::tag::Tag;
use spur_addr::PAGE_BLOCKS;
use spur_snoop::{BlockState, BusKind, snooped};
use std::alloc::{AllocError, Global};
use std::marker::Model;

/// The tags of one board's lines, at least one.
///
/// The line of a block is that whose number is the block's number modulo the number of lines.
#[derive(Debug, Drop)]
pub struct TagLines {
    lines: Vec<Option<Tag>>,
}

impl Model for TagLines {
    ghost use Rattle.std.specs.Prelude.{List, Option};
    ghost use Rattle.spur_flat.specs.declared.tag.Tag.{Tag};
    ghost use Rattle.spur_flat.specs.TagLines.{AreInPlace};

    ghost Value = { List (Option Tag) };

    ghost view = { λ a. a.lines.items };

    ghost invariant = { λ a. AreInPlace a.lines.items };
}

impl TagLines {
    /// This many lines that hold nothing.
    pub fn new(alloc: Global, lines: u32) -> Result<TagLines, AllocError>
        requires { 0 < lines }
        ensures { IfOk result (λ tags. tags ≡ replicate lines None) }
    {
        Ok(TagLines {
            lines: vec![in alloc; None; lines as usize]?,
        })
    }

    /// What stands on the line of a block, which may be another block.
    pub fn standing(&self, block: u64) -> Option<Tag>
        ensures { result ≡ standing_tag self.now block }
    {
        self.lines[self.line_of(block)]
    }

    /// The tag of a block, where its line holds it.
    pub fn tag(&self, block: u64) -> Option<Tag>
        ensures { result ≡ tag_in self.now block }
    {
        match self.standing(block) {
            Some(tag) if tag.block == block => Some(tag),
            _ => None,
        }
    }

    /// Puts a tag of a block, or nothing, on the block's line.
    pub fn put(&mut self, block: u64, tag: Option<Tag>)
        requires { IsOfBlock block tag }
        ensures { self.new ≡ with_tag self.old block tag }
    {
        let line = self.line_of(block);
        self.lines[line] = tag;
    }

    /// Sees another board's transaction on a block, by the table of the ownership protocol.
    pub fn see(&mut self, block: u64, kind: BusKind)
        ensures { self.new ≡ snooped_tags self.old block kind }
    {
        if let Some(tag) = self.tag(block) {
            let (state, _) = snooped(tag.state, kind);
            self.put(block, in_state(tag, state));
        }
    }

    /// Whether a line holds a block of a page: one of the 128 places of its blocks does.
    pub fn holds(&self, page: u32) -> bool
        ensures { result ≡ holds_page page self.now }
    {
        // each tag is on its block's line, so no other line has a block of the page
        let _ = &self.lines;
        for j in 0..PAGE_BLOCKS as u64 {
            if self.tag(page as u64 * PAGE_BLOCKS as u64 + j).is_some() {
                return true;
            }
        }
        false
    }

    /// The number of a block's line.
    fn line_of(&self, block: u64) -> usize
        ensures value { result ≡ tag_index self.now block }
        ensures within { result < length self.now }
    {
        (block % self.lines.len() as u64) as usize
    }
}

/// A tag in another state: nothing where that is Invalid.
fn in_state(tag: Tag, state: BlockState) -> Option<Tag>
    ensures { result ≡ tag_in_state state tag }
{
    match state {
        BlockState::Invalid => None,
        _ => Some(Tag { state, ..tag }),
    }
}
