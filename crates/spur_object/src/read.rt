//! From an object to the unit, or the first fault.

ghost use Rattle.std.specs.Prelude.{◌≡◌, ℕ, Ok, Err, IfOk, IfErr};
ghost use Rattle.std.specs.Prelude.{◌⊎◌};
ghost use Rattle.spur_object.specs.Faults.{HasFault};
ghost use Rattle.spur_object.specs.Fields.{object_bytes, unit_fields};
ghost use Rattle.spur_object.specs.Limits.{IsUnit};
ghost use Rattle.spur_object.specs.Reading.{Begins, IsEnd};
ghost use Rattle.spur_object.specs.declared.fault.ObjFault.TheVariants as faults;
ghost use Rattle.spur_object.specs.declared.fault.ObjKind as kinds;
ghost use Rattle.spur_object.specs.declared.unit.Unit as units;

use crate::cursor::Cursor;
use crate::fault::{ObjFault, ObjKind};
use crate::parts::unit;
use crate::stop::Stop;
use crate::unit::Unit;
use std::alloc::Global;

/// Reads a unit, behind which nothing is left.
fn whole(alloc: Global, cursor: &mut Cursor<'_>) -> Result<Unit, Stop>
    ensures found { IfOk result (λ unit. cursor.old ≡ object_bytes unit) }
    ensures limits { IfOk result IsUnit }
    ensures fault { IfErr result (λ stop. IsEnd cursor.old cursor.new stop) }
{
    let unit = unit(alloc, cursor)?;
    if cursor.left() > 0 {
        return Err(Stop::Fault(ObjKind::Trailing));
    }
    Ok(unit)
}

/// The unit whose object these bytes are.
///
/// What is accepted is exactly the objects of units, as [`write_object`](crate::write_object) makes them. `Bad` is the
/// first fault from the front, at its field's first byte: a field is judged as soon as its four bytes are there, and
/// before the bytes end behind it. `NoMemory` where memory is wanting, of which no more is taken than for so many parts
/// as the bytes can hold.
pub fn read_object(alloc: Global, bytes: &[u8]) -> Result<Unit, ObjFault>
    ensures found { IfOk result (λ unit. bytes.now ≡ object_bytes unit) }
    ensures limits { IfOk result IsUnit }
    // what was written is read again as it was
    ensures again { (unit : units.Unit) → IsUnit unit → bytes.now ≡ object_bytes unit
        → (result ≡ Ok unit) ⊎ (result ≡ Err faults.NoMemory) }
    ensures fault { (kind : kinds.ObjKind) (byte : ℕ) → result ≡ Err (faults.Bad kind byte)
        → HasFault bytes.now kind byte }
    // exactly there
    ensures refused { (kind : kinds.ObjKind) (byte : ℕ) → HasFault bytes.now kind byte
        → (result ≡ Err (faults.Bad kind byte)) ⊎ (result ≡ Err faults.NoMemory) }
{
    let mut cursor = Cursor::new(bytes);
    match whole(alloc, &mut cursor) {
        Ok(unit) => Ok(unit),
        Err(Stop::NoMemory) => Err(ObjFault::NoMemory),
        Err(Stop::Fault(kind)) => Err(ObjFault::Bad {
            kind,
            byte: (bytes.len() - cursor.left()) as u32,
        }),
    }
}
