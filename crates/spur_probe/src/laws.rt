//! Laws of what probes are shown. Nothing runs here: the function stands for what its contract says of all probes and
//! entries.

ghost use Rattle.spur_probe.specs.Laws.{StoppedAreShownUpToIt, UnstoppedAreShownAll};

/// Where no probe wishes a stop each is shown all entries. Where one does, the probes up to that one are shown the entries
/// up to the one at which it does, and the later probes the entries up to the one before.
pub fn probes_are_shown_up_to_a_stop()
    ensures unstopped { UnstoppedAreShownAll }
    ensures stopped { StoppedAreShownUpToIt }
{}
