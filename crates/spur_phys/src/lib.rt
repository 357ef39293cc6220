//! The physical memory that all boards share.
//!
//! It is words in frames, as SPUR's main memory is behind the one bus: caches take blocks of eight
//! words from it and put them back, and the pager moves whole pages. It knows no addresses but the
//! numbers of its words and frames.
#![tactic(auto)]

mod phys;

pub use phys::Phys;
