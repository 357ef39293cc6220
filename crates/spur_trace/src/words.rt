//! The words of lines: how those are spelled that traces alone have, and which of its kind stands in front.

ghost use Rattle.std.specs.Prelude.{◌≡◌};
ghost use Rattle.spur_text.specs.Words.{access_word, fault_word};
ghost use Rattle.spur_trace.specs.Line.{layer_word, need_word};
ghost use Rattle.spur_trace.specs.Reading.{Reads, access_kinds, fault_kinds, layers, needs, verb_word, verbs, word_at};

use crate::cursor::Cursor;
use spur_flat::{AccessKind, FaultKind, Layer};
use spur_snoop::Need;
use spur_text::{access_word, fault_word};

const FAULT_KINDS: [FaultKind; 7] = [
    FaultKind::Align,
    FaultKind::Unmapped,
    FaultKind::Missing,
    FaultKind::Leaving,
    FaultKind::Protection,
    FaultKind::Reference,
    FaultKind::Dirty,
];

const ACCESS_KINDS: [AccessKind; 3] = [AccessKind::Load, AccessKind::Store, AccessKind::Tas];

const LAYERS: [Layer; 3] = [Layer::RootBlock, Layer::PteBlock, Layer::UserBlock];

const NEEDS: [Need; 2] = [Need::Read, Need::Write];

const VERBS: [Verb; 15] = [
    Verb::Load,
    Verb::Store,
    Verb::Tas,
    Verb::Fault,
    Verb::Fill,
    Verb::Claim,
    Verb::WriteBack,
    Verb::Refresh,
    Verb::Flush,
    Verb::Leave,
    Verb::Out,
    Verb::In,
    Verb::SetRef,
    Verb::SetDirty,
    Verb::ClearRef,
];

/// The first word of an entry's line: one for each kind of entry.
#[derive(Clone, Copy)]
pub enum Verb {
    Load,
    Store,
    Tas,
    Fault,
    Fill,
    Claim,
    WriteBack,
    Refresh,
    Flush,
    Leave,
    Out,
    In,
    SetRef,
    SetDirty,
    ClearRef,
}

/// The first word of an entry's line, as it is spelled.
pub fn verb_word(verb: Verb) -> &'static [u8]
    ensures { result.now ≡ verb_word verb }
{
    match verb {
        Verb::Load => b"load",
        Verb::Store => b"store",
        Verb::Tas => b"tas",
        Verb::Fault => b"fault",
        Verb::Fill => b"fill",
        Verb::Claim => b"claim",
        Verb::WriteBack => b"writeback",
        Verb::Refresh => b"refresh",
        Verb::Flush => b"flush",
        Verb::Leave => b"leave",
        Verb::Out => b"out",
        Verb::In => b"in",
        Verb::SetRef => b"setref",
        Verb::SetDirty => b"setdirty",
        Verb::ClearRef => b"clearref",
    }
}

/// The word for what a block is of.
pub fn layer_word(layer: Layer) -> &'static [u8]
    ensures { result.now ≡ layer_word layer }
{
    match layer {
        Layer::RootBlock => b"root",
        Layer::PteBlock => b"pte",
        Layer::UserBlock => b"data",
    }
}

/// The word for what a block is brought for.
pub fn need_word(need: Need) -> &'static [u8]
    ensures { result.now ≡ need_word need }
{
    match need {
        Need::Read => b"read",
        Need::Write => b"write",
    }
}

/// Takes the word for a kind of fault.
pub fn take_fault_kind(rest: &mut Cursor<'_>) -> Option<FaultKind>
    ensures { Reads (word_at fault_word fault_kinds rest.old) result rest.new }
{
    for kind in FAULT_KINDS {
        if rest.eat(fault_word(kind)) {
            return Some(kind);
        }
    }
    None
}

/// Takes the word for a kind of access.
pub fn take_access_kind(rest: &mut Cursor<'_>) -> Option<AccessKind>
    ensures { Reads (word_at access_word access_kinds rest.old) result rest.new }
{
    for kind in ACCESS_KINDS {
        if rest.eat(access_word(kind)) {
            return Some(kind);
        }
    }
    None
}

/// Takes the word for what a block is of.
pub fn take_layer(rest: &mut Cursor<'_>) -> Option<Layer>
    ensures { Reads (word_at layer_word layers rest.old) result rest.new }
{
    for layer in LAYERS {
        if rest.eat(layer_word(layer)) {
            return Some(layer);
        }
    }
    None
}

/// Takes the word for what a block is brought for.
pub fn take_need(rest: &mut Cursor<'_>) -> Option<Need>
    ensures { Reads (word_at need_word needs rest.old) result rest.new }
{
    for need in NEEDS {
        if rest.eat(need_word(need)) {
            return Some(need);
        }
    }
    None
}

/// Takes the first word of an entry's line.
pub fn take_verb(rest: &mut Cursor<'_>) -> Option<Verb>
    ensures { Reads (word_at verb_word verbs rest.old) result rest.new }
{
    for verb in VERBS {
        if rest.eat(verb_word(verb)) {
            return Some(verb);
        }
    }
    None
}
