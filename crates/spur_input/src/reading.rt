//! From bytes that were read to a unit, to its opening, and to the entries of a trace; or why they are refused.

ghost use Rattle.std.specs.Prelude.{◌≡◌, ◌-◌, ◌<◌, ◌^◌, IfOk, IsTrue, Err, length};
ghost use Rattle.spur_object.specs.Fields.{object_bytes};
ghost use Rattle.spur_object.specs.Limits.{IsUnit};
ghost use Rattle.spur_trace.specs.declared.head.TraceHead as heads;
ghost use Rattle.spur_trace.specs.Faults.{HasHeader, IsTrace};
ghost use Rattle.spur_asm.specs.Says.{Says};
ghost use Rattle.spur_loader.specs.Faults.{load_fault_of};
ghost use Rattle.spur_loader.specs.Limits.{IsOptions};
ghost use Rattle.spur_loader.specs.Opening.{opening_of};
ghost use Rattle.spur_input.specs.declared.refusal.Refusal.{Refusal as Reason};
ghost use Rattle.spur_input.specs.Program.{IsProgramOf, is_object};
ghost use Rattle.spur_input.specs.Refused.{not_loaded};
ghost use Rattle.spur_input.specs.Causes.{IsHeadRefusal, IsLoadRefusal, IsObjectRefusal, IsProgramRefusal, IsTextRefusal, IsTraceRefusal};

use crate::refusal::{NotAccepted, Refusal};
use spur_asm::{AsmFault, AsmKind, assemble};
use spur_flat::Entry;
use spur_loader::{LoadFault, Opening, Options, load};
use spur_object::{ObjFault, ObjKind, Unit, read_object};
use spur_trace::{TraceFault, TraceHead, TraceKind, read_head, read_trace};
use std::alloc::Global;

/// The first byte of an object.
const OBJECT_BYTE: u8 = 0x93;

/// A text with this first fault.
fn bad_text(kind: AsmKind, line: u32, column: u32) -> NotAccepted
    ensures { result ≡ NotAccepted.Refused (Reason.Text kind line column) }
{
    NotAccepted::Refused(Refusal::Text { kind, line, column })
}

/// An object with this fault.
fn bad_object(kind: ObjKind, byte: u32) -> NotAccepted
    ensures { result ≡ NotAccepted.Refused (Reason.Object kind byte) }
{
    NotAccepted::Refused(Refusal::Object { kind, byte })
}

/// A trace with this fault.
fn bad_trace(kind: TraceKind, line: u32) -> NotAccepted
    ensures { result ≡ NotAccepted.Refused (Reason.Trace kind line) }
{
    NotAccepted::Refused(Refusal::Trace { kind, line })
}

/// A unit that was not loaded.
fn not_loaded(fault: LoadFault) -> NotAccepted
    ensures { result ≡ not_loaded fault }
{
    match fault {
        LoadFault::NoMemory => NotAccepted::NoMemory,
        fault => NotAccepted::Refused(Refusal::Load(fault)),
    }
}

/// Whether an input is an object: its first byte says so. Any other is a text.
fn is_object(input: &[u8]) -> bool
    ensures { result ≡ is_object input.now }
{
    match input.first() {
        Some(byte) => *byte == OBJECT_BYTE,
        None => false,
    }
}

/// The unit that a text says, or its first fault.
pub fn text_unit(alloc: Global, text: &[u8]) -> Result<Unit, NotAccepted>
    requires { length text.now < 2 ^ 32 - 1 }
    ensures says { IfOk result (λ unit. Says text.now unit) }
    ensures limits { IfOk result IsUnit }
    ensures refused { (refusal : Reason) → result ≡ Err (NotAccepted.Refused refusal)
        → IsTextRefusal text.now refusal }
{
    match assemble(alloc, text) {
        Ok(unit) => Ok(unit),
        Err(AsmFault::Bad { kind, line, column }) => Err(bad_text(kind, line, column)),
        Err(AsmFault::NoMemory) => Err(NotAccepted::NoMemory),
    }
}

/// The unit of an object, or its fault.
fn object_unit(alloc: Global, input: &[u8]) -> Result<Unit, NotAccepted>
    ensures found { IfOk result (λ unit. input.now ≡ object_bytes unit) }
    ensures limits { IfOk result IsUnit }
    ensures refused { (refusal : Reason) → result ≡ Err (NotAccepted.Refused refusal)
        → IsObjectRefusal input.now refusal }
{
    match read_object(alloc, input) {
        Ok(unit) => Ok(unit),
        Err(ObjFault::Bad { kind, byte }) => Err(bad_object(kind, byte)),
        Err(ObjFault::NoMemory) => Err(NotAccepted::NoMemory),
    }
}

/// The unit of a program, as the object or the text that it is; or its fault.
pub fn program_unit(alloc: Global, input: &[u8]) -> Result<Unit, NotAccepted>
    requires { length input.now < 2 ^ 32 - 1 }
    ensures program { IfOk result (λ unit. IsProgramOf unit input.now) }
    ensures limits { IfOk result IsUnit }
    ensures refused { (refusal : Reason) → result ≡ Err (NotAccepted.Refused refusal)
        → IsProgramRefusal input.now refusal }
{
    if is_object(input) {
        object_unit(alloc, input)
    } else {
        text_unit(alloc, input)
    }
}

/// The opening of a unit with these options, or the load fault that applies to it.
pub fn unit_opening(alloc: Global, unit: &Unit, options: &Options) -> Result<Opening, NotAccepted>
    requires unit { IsUnit unit.now }
    requires options { IsOptions options.now }
    ensures opening { IfOk result (λ opening. opening ≡ opening_of unit.now options.now) }
    ensures accepted { IfOk result (λ opening. load_fault_of unit.now options.now ≡ None) }
    ensures refused { (refusal : Reason) → result ≡ Err (NotAccepted.Refused refusal)
        → IsLoadRefusal unit.now options.now refusal }
{
    match load(alloc, unit, options) {
        Ok(opening) => Ok(opening),
        Err(fault) => Err(not_loaded(fault)),
    }
}

/// The header of a trace of so many boards.
pub fn trace_head(trace: &[u8], boards: usize) -> Result<TraceHead, NotAccepted>
    ensures header { IfOk result (λ head. HasHeader trace.now head) }
    ensures boards { IfOk result (λ head. head.boards ≡ boards) }
    ensures refused { (refusal : Reason) → result ≡ Err (NotAccepted.Refused refusal)
        → IsHeadRefusal trace.now boards refusal }
{
    let Ok(head) = read_head(trace) else {
        return Err(bad_trace(TraceKind::BadHeader, 1));
    };
    if head.boards as usize != boards {
        return Err(bad_trace(TraceKind::Boards, 1));
    }
    Ok(head)
}

/// The entries of a trace, or its fault.
pub fn trace_entries(alloc: Global, trace: &[u8]) -> Result<Vec<Entry>, NotAccepted>
    ensures found { IfOk result (λ entries. (head : heads.TraceHead) → HasHeader trace.now head
        → IsTrace trace.now head entries.items) }
    ensures refused { (refusal : Reason) → result ≡ Err (NotAccepted.Refused refusal)
        → IsTraceRefusal trace.now refusal }
{
    match read_trace(alloc, trace) {
        Ok(entries) => Ok(entries),
        Err(TraceFault::Bad { kind, line }) => Err(bad_trace(kind, line)),
        Err(TraceFault::NoMemory) => Err(NotAccepted::NoMemory),
    }
}
