//! Tests that drive several crates: whole runs from the words and a text to what is written, entry by entry where a
//! history was worked out by hand, and the calls of the core, one by one.
#![tactic(auto)]

#[cfg(test)]
mod ahead;
#[cfg(test)]
mod calls;
#[cfg(test)]
mod commands;
#[cfg(test)]
mod gates;
#[cfg(test)]
mod histories;
#[cfg(test)]
mod late;
#[cfg(test)]
mod lines;
#[cfg(test)]
mod probes;
#[cfg(test)]
mod reports;
#[cfg(test)]
mod runs;
#[cfg(test)]
mod swaps;
#[cfg(test)]
mod texts;
#[cfg(test)]
mod threads;
#[cfg(test)]
mod untold;
#[cfg(test)]
mod verdicts;
#[cfg(test)]
mod worlds;
