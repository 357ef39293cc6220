//! The entries that a step added to the history are shown to the probes of a list.

ghost use Rattle.std.specs.Prelude.{◌≡◌, map};
ghost use Rattle.spur_probe.specs.Shown.{after_entries, after_entry, first_stop, stopped_at, told};

use spur_flat::Entry;
use spur_probe::{Probe, StopAt, Wish};

/// Shows one entry to one probe.
fn show(probe: &mut Box<dyn Probe>, entry: &Entry) -> Wish
    ensures moved { (kept probe.new, result) ≡ rule probe.old (kept probe.old) entry.now }
    ensures same_rule { rule probe.new ≡ rule probe.old }
    ensures same_reading { reads probe.new ≡ reads probe.old }
{
    probe.saw(entry)
}

/// Shows an entry to the probes, in the order of the list, up to the first that wishes a stop, and tells which that
/// was.
fn show_entry(probes: &mut Vec<Box<dyn Probe>>, entry: &Entry) -> Option<usize>
    ensures moved { map (λ b. told (rule b) (reads b) (kept b)) probes.new.items
        ≡ after_entry entry.now (map (λ b. told (rule b) (reads b) (kept b)) probes.old.items) }
    ensures stopped { result ≡ stopped_at entry.now (map (λ b. told (rule b) (reads b) (kept b)) probes.old.items) }
{
    for i in 0..probes.len() {
        if let Wish::Stop = show(&mut probes[i], entry) {
            return Some(i);
        }
    }
    None
}

/// Shows entries, one after another, each to the probes in the order of the list, up to the first wish to stop, and
/// tells where that was. Neither the probes behind that one are shown its entry, nor is any shown the entries behind
/// it. Takes no memory.
///
/// The probes are asked here, and the list is lent to no other crate: a function that did so would count as one that
/// may put boxes of its own making into a list that its caller keeps.
pub(crate) fn show_new(probes: &mut Vec<Box<dyn Probe>>, entries: &[Entry]) -> Option<StopAt>
    ensures moved { map (λ b. told (rule b) (reads b) (kept b)) probes.new.items
        ≡ after_entries entries.now (map (λ b. told (rule b) (reads b) (kept b)) probes.old.items) }
    ensures stopped { result
        ≡ first_stop 0 entries.now (map (λ b. told (rule b) (reads b) (kept b)) probes.old.items) }
{
    for (place, entry) in entries.iter().enumerate() {
        if let Some(probe) = show_entry(probes, entry) {
            return Some(StopAt {
                entry: place,
                probe,
            });
        }
    }
    None
}
