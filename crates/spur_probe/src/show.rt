//! Entries are shown to the probes of a list.

ghost use Rattle.std.specs.Prelude.{◌≡◌, map};
ghost use Rattle.spur_probe.specs.Shown.{after_all, after_entries, after_entry, first_stop, moved, stopped_at, told};

use crate::probe::{Probe, Wish};
use spur_flat::Entry;

/// The entry at which a probe wished a stop, and the probe.
#[derive(Clone, Copy, Debug, PartialEq, Eq)]
pub struct StopAt {
    /// The number of the entry, counted from the number that the first of those that were to be shown has: from 0 for
    /// `show_entries`.
    pub entry: usize,
    /// The place of the probe in the list, from 0.
    pub probe: usize,
}

/// Shows one entry to one probe.
fn show(probe: &mut Box<dyn Probe>, entry: &Entry) -> Wish
    ensures moved { (kept probe.new, result) ≡ rule probe.old (kept probe.old) entry.now }
    ensures same_rule { rule probe.new ≡ rule probe.old }
    ensures same_reading { reads probe.new ≡ reads probe.old }
{
    probe.saw(entry)
}

/// Shows an entry to the probes, in the order of the list, up to the first that wishes a stop; and tells which that was.
fn show_entry(probes: &mut Vec<Box<dyn Probe>>, entry: &Entry) -> Option<usize>
    ensures moved { map (λ b. told (rule b) (reads b) (kept b)) probes.new.items
        ≡ after_entry entry.now (map (λ b. told (rule b) (reads b) (kept b)) probes.old.items) }
    ensures stopped { result ≡ stopped_at entry.now (map (λ b. told (rule b) (reads b) (kept b)) probes.old.items) }
{
    for i in 0..probes.len() {
        if let Wish::Stop = show(&mut probes[i], entry) {
            return Some(i);
        }
    }
    None
}

/// Shows entries, one after another, each to the probes in the order of the list, up to the first wish to stop: neither the
/// probes behind that one are shown its entry, nor is any shown the entries behind it. Takes no memory.
pub fn show_entries(probes: &mut Vec<Box<dyn Probe>>, entries: &[Entry]) -> Option<StopAt>
    ensures moved { map (λ b. told (rule b) (reads b) (kept b)) probes.new.items
        ≡ after_entries entries.now (map (λ b. told (rule b) (reads b) (kept b)) probes.old.items) }
    ensures stopped { result ≡ first_stop 0 entries.now (map (λ b. told (rule b) (reads b) (kept b)) probes.old.items) }
{
    for (place, entry) in entries.iter().enumerate() {
        if let Some(probe) = show_entry(probes, entry) {
            return Some(StopAt {
                entry: place,
                probe,
            });
        }
    }
    None
}

/// Shows an entry to all probes, in the order of the list, whatever they wish.
fn show_to_each(probes: &mut Vec<Box<dyn Probe>>, entry: &Entry)
    ensures { map (λ b. told (rule b) (reads b) (kept b)) probes.new.items
        ≡ map (moved entry.now) (map (λ b. told (rule b) (reads b) (kept b)) probes.old.items) }
{
    for i in 0..probes.len() {
        let _wish = show(&mut probes[i], entry);
    }
}

/// Shows entries, one after another, each to all probes in the order of the list. No wish to stop is heeded: this is for a
/// history that is whole. Takes no memory.
pub fn show_all(probes: &mut Vec<Box<dyn Probe>>, entries: &[Entry])
    ensures { map (λ b. told (rule b) (reads b) (kept b)) probes.new.items
        ≡ after_all entries.now (map (λ b. told (rule b) (reads b) (kept b)) probes.old.items) }
{
    for entry in entries {
        show_to_each(probes, entry);
    }
}
