//! The reading of whole traces.

ghost use Rattle.std.specs.Prelude.{◌≡◌, ◌/◌, ◌≤◌, List, IfErr, IfOk, length, vec_capacity};
ghost use Rattle.spur_flat.specs.declared.entry.Entry as traced;
ghost use Rattle.spur_trace.specs.declared.head.TraceHead as heads;
ghost use Rattle.spur_trace.specs.declared.fault.TraceFault.TheVariants as faults;
ghost use Rattle.spur_trace.specs.declared.fault.TraceKind.TheVariants as kinds;
ghost use Rattle.spur_trace.specs.Faults.{Gives, HasFault, HasHeader, IsTrace, TellsFault};

use crate::cursor::Cursor;
use crate::fault::{TraceFault, TraceKind};
use crate::head::TraceHead;
use crate::line;
use spur_flat::Entry;
use std::alloc::Global;

/// No line of an entry has fewer bytes.
const LEAST_LINE: usize = 17;

/// The refusal of a line, by its number, counted from 1.
fn bad(kind: TraceKind, line: u32) -> TraceFault
    ensures { result ≡ faults.Bad kind line }
{
    TraceFault::Bad { kind, line }
}

/// The header of a text, whatever follows its line.
///
/// `BadHeader` at line 1 exactly where the first line of the text is that of no header, or lacks its line feed. No other
/// fault is answered.
pub fn read_head(bytes: &[u8]) -> Result<TraceHead, TraceFault>
    ensures found { IfOk result (λ head. HasHeader bytes.now head) }
    ensures only { IfErr result (λ fault. fault ≡ faults.Bad kinds.BadHeader 1) }
    ensures fault { IfErr result (λ fault. TellsFault bytes.now fault) }
{
    let mut rest = Cursor::new(bytes);
    match line::header(&mut rest) {
        Some(head) => Ok(head),
        None => Err(bad(TraceKind::BadHeader, 1)),
    }
}

/// The entries of a trace.
fn entries(alloc: Global, bytes: &[u8]) -> Result<Vec<Entry>, TraceFault>
    ensures found { IfOk result (λ entries. (head : heads.TraceHead) × IsTrace bytes.now head entries.items) }
    ensures fault { IfErr result (λ fault. TellsFault bytes.now fault) }
    ensures room { IfOk result (λ entries. vec_capacity entries ≤ length bytes.now / 17) }
{
    let mut rest = Cursor::new(bytes);
    let Some(head) = line::header(&mut rest) else {
        return Err(bad(TraceKind::BadHeader, 1));
    };
    let mut entries = Vec::with_capacity(alloc, bytes.len() / LEAST_LINE)?;
    let mut line = 2u32;
    while !rest.is_empty() {
        let Some(entry) = line::entry(&mut rest, head.boards) else {
            return Err(bad(TraceKind::BadLine, line));
        };
        entries.push_reserved(entry);
        line = line.saturating_add(1);
    }
    Ok(entries)
}

/// The entries of a trace, in their order. A text is accepted exactly where it is the writing of well-formed entries
/// under its header, and then these are given.
///
/// `BadHeader` at line 1 exactly where the first line of the text is that of no header, and else `BadLine` at the first
/// later line that is that of no well-formed entry for so many boards, or lacks its line feed. Lines are counted from
/// the header's as 1, up to 4294967295. `Boards` is never answered. `NoMemory` only for want of memory, which is taken
/// once, for no more entries than the text can hold.
pub fn read_trace(alloc: Global, bytes: &[u8]) -> Result<Vec<Entry>, TraceFault>
    ensures found { IfOk result (λ entries. (head : heads.TraceHead) × IsTrace bytes.now head entries.items) }
    ensures under { IfOk result (λ entries. (head : heads.TraceHead) → HasHeader bytes.now head
        → IsTrace bytes.now head entries.items) }
    ensures only { (head : heads.TraceHead) (es : List traced.Entry) → IsTrace bytes.now head es
        → Gives (λ entries. entries.items) result es }
    ensures fault { IfErr result (λ fault. TellsFault bytes.now fault) }
    ensures room { IfOk result (λ entries. vec_capacity entries ≤ length bytes.now / 17) }
{
    let answer = entries(alloc, bytes);
    answer
}
