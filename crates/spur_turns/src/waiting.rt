//! Looking, parking and waking. None of it is a step of the rule, and no clause rests on it.

ghost use Rattle.std.specs.Prelude.{◌<◌};

use crate::pact::Pact;
use crate::table::SharedTable;
use std::hint::spin_loop;
use std::sync::Wait;
use std::sync::atomic::{AtomicU64, Ordering};

/// How often a taken word is looked at before its finder parks, and how often a seat that gave its place back looks
/// whether the bus has come to take it.
const LOOKS: u32 = 2000;

/// Looks at a word until it is free, a bounded number of times. Says whether it was found free.
pub(crate) fn is_soon_free<P: Pact>(table: &SharedTable<P>, word: usize) -> bool
    requires word { word < table.now.table_id.words }
{
    for _ in 0..LOOKS {
        if table.peek(word) == 0 {
            return true;
        }
        spin_loop();
    }
    false
}

/// Parks on the word of the bus while it is taken, counted among those that park there.
///
/// The count is raised before the word is compared, and who frees the word reads the count afterwards: so whoever
/// falls asleep here is seen there.
pub(crate) fn park_for_bus<P: Pact, R: Wait>(rt: &R, table: &SharedTable<P>, parkers: &AtomicU64)
    requires word { 0 < table.now.table_id.words }
{
    parkers.fetch_add(1, Ordering::SeqCst);
    table.park(rt, 0, 1);
    parkers.fetch_sub(1, Ordering::SeqCst);
}

/// Wakes one of those that park on the word of the bus, where any does.
pub(crate) fn wake_for_bus<P: Pact>(table: &SharedTable<P>, parkers: &AtomicU64)
    requires word { 0 < table.now.table_id.words }
{
    if parkers.load(Ordering::SeqCst) != 0 {
        table.wake_one(0);
    }
}

/// Where a seat has the bus, wakes it on a place's word that was freed, and lets it take the place: looks, a bounded
/// number of times, until the word is taken again or the bus is free.
pub(crate) fn let_bus_pass<P: Pact>(table: &SharedTable<P>, word: usize)
    requires word { word < table.now.table_id.words }
{
    if table.peek(0) == 0 {
        return;
    }
    table.wake_one(word);
    for _ in 0..LOOKS {
        if table.peek(word) != 0 || table.peek(0) == 0 {
            return;
        }
        spin_loop();
    }
}
