//! What a report tells of probes.

ghost use Rattle.std.specs.Prelude.{◌≡◌, IfOk, map};
ghost use Rattle.spur_probe.specs.Shown.{told, told_line};

use crate::probe::{Probe, ProbeLine};
use std::alloc::{AllocError, Global};

/// What a report tells of one probe.
fn line_of(probe: &Box<dyn Probe>) -> ProbeLine
    ensures { result ≡ told_line (told (rule probe.now) (reads probe.now) (kept probe.now)) }
{
    probe.line()
}

/// What a report tells of each probe, in the order of the list. `AllocError` comes only for want of memory.
pub fn lines_of(alloc: Global, probes: &[Box<dyn Probe>]) -> Result<Vec<ProbeLine>, AllocError>
    ensures { IfOk result (λ lines. lines.items
        ≡ map told_line (map (λ b. told (rule b) (reads b) (kept b)) probes.now)) }
{
    let mut lines = Vec::new(alloc);
    for probe in probes {
        lines.push(line_of(probe))?;
    }
    Ok(lines)
}
