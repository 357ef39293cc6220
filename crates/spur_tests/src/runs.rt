//! Runs of the top call on words and texts.

use spur_io::{SinkSure, SourceSure};
use spur_program::{Outcome, spur_alone};
use spur_report::Report;
use spur_swap::{Backing, SwapMemory};
use std::alloc::{AllocError, Global};

/// The most bytes that a run writes.
const ROOM: u32 = 1_048_576;

/// The words of a command line.
pub(crate) fn words_of(alloc: Global, words: &[&str]) -> Result<Vec<String>, AllocError> {
    let mut all = Vec::new(alloc);
    for word in words {
        all.push(String::from_str(alloc, word)?)?;
    }
    Ok(all)
}

/// The words of a command line, which stand in a text with blanks between them.
pub(crate) fn words_in(alloc: Global, line: &str) -> Result<Vec<String>, AllocError> {
    let mut all = Vec::new(alloc);
    for word in line.split_whitespace() {
        all.push(String::from_str(alloc, word)?)?;
    }
    Ok(all)
}

/// The answer to words and an input, with this swap object, and what was written.
pub(crate) fn answer_to<B: Backing + Drop>(
    alloc: Global,
    words: &[String],
    input: &[u8],
    swap: B,
) -> Result<(Outcome<B>, SinkSure), AllocError> {
    let mut source = SourceSure::new(input.to_vec(alloc)?);
    let mut sink = SinkSure::new(alloc, ROOM)?;
    let probes = Vec::new(alloc);
    let outcome = spur_alone(alloc, words, &mut source, &mut sink, swap, probes);
    Ok((outcome, sink))
}

/// The answer to words and a text, with this swap object, and what was written.
pub(crate) fn answer_of<B: Backing + Drop>(
    alloc: Global,
    words: &[&str],
    text: &[u8],
    swap: B,
) -> Result<(Outcome<B>, SinkSure), AllocError> {
    let words = words_of(alloc, words)?;
    answer_to(alloc, &words, text, swap)
}

/// The report on a text, with a swap object in memory that does not fail.
pub(crate) fn report_of(
    alloc: Global,
    words: &[&str],
    text: &[u8],
) -> Result<Option<Report>, AllocError> {
    let (outcome, _) = answer_of(alloc, words, text, SwapMemory::new(alloc))?;
    let Outcome {
        status: _,
        report,
        verdict: _,
        backing: _,
    } = outcome;
    Ok(report)
}
