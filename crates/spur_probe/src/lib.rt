//! Probes: what is shown the entries of a history while it is made, may wish that the run stops, and has a number to tell.
//!
//! Probes are this project's own. They are boxed by who uses them, and no call of this crate makes one.
#![tactic(auto)]

mod count;
mod last;
mod laws;
mod lines;
mod probe;
mod show;
#[cfg(test)]
mod tests;
mod watch;

pub use count::CountProbe;
pub use last::LastProbe;
pub use laws::probes_are_shown_up_to_a_stop;
pub use lines::lines_of;
pub use probe::{Probe, ProbeLine, Wish};
pub use show::{StopAt, show_all, show_entries};
pub use watch::WatchProbe;
