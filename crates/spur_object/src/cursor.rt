//! What is left of an object's bytes, read from the front, field by field.

ghost use Rattle.std.specs.Prelude.{◌≡◌, ◌≤◌, ◌<◌, length, drop, take, IfOk, OnOk, IfErr};
ghost use Rattle.spur_isa.specs.Ranges.{IsInstr};
ghost use Rattle.spur_object.specs.Fields.{instr_fields, number_bytes};
ghost use Rattle.spur_object.specs.Reading.{AreSegments, Begins, IsFieldKind, IsOffset, IsProtection, IsStop, IsWithin, one_field, protection_fields, segment_fields};
ghost use Rattle.spur_object.specs.declared.fault.ObjKind.TheVariants as kinds;
ghost use Rattle.spur_object.specs.declared.stop.Stop.TheVariants as stops;

use crate::fault::ObjKind;
use crate::stop::Stop;
use byteorder::{BigEndian, ByteOrder};
use spur_addr::Protection;
use spur_isa::{Instr, decode};
use std::marker::Model;

/// How many bytes a field has.
pub const FIELD_BYTES: usize = 4;

/// One past the last byte of a segment.
const SEGMENT_END: u32 = 1 << 30;

/// What is left of an object's bytes. Contracts see these bytes.
#[derive(Drop)]
pub struct Cursor<'a> {
    rest: &'a [u8],
}

impl<'a> Model for Cursor<'a> {
    ghost use Rattle.std.specs.Prelude.{List, ℕ};

    ghost Value = { List ℕ };

    ghost view = { λ c. c.rest.now };
}

impl<'a> Cursor<'a> {
    /// At the beginning.
    pub fn new(bytes: &'a [u8]) -> Cursor<'a>
        ensures { result ≡ bytes.now }
    {
        Cursor { rest: bytes }
    }

    /// How many bytes are left.
    pub fn left(&self) -> usize
        ensures { result ≡ length self.now }
    {
        self.rest.len()
    }

    /// The bytes of the field that comes next, which stay where they are.
    fn next(&self) -> Result<[u8; FIELD_BYTES], Stop>
        ensures four { IfOk result (λ four. four ≡ take 4 self.now) }
        ensures there { OnOk result (4 ≤ length self.now) }
        ensures short { IfErr result (λ stop. (stop ≡ stops.Fault kinds.Short) × (length self.now < 4)) }
    {
        match self.rest.first_chunk::<FIELD_BYTES>() {
            Some(four) => Ok(*four),
            None => Err(Stop::Fault(ObjKind::Short)),
        }
    }

    /// The number of the field that comes next, which stays where it is.
    fn next_number(&self) -> Result<u32, Stop>
        ensures bytes { IfOk result (λ n. take 4 self.now ≡ number_bytes n) }
        ensures there { OnOk result (4 ≤ length self.now) }
        ensures short { IfErr result (λ stop. (stop ≡ stops.Fault kinds.Short) × (length self.now < 4)) }
    {
        let four = self.next()?;
        Ok(BigEndian::read_u32(&four))
    }

    /// Goes on behind the field that comes next.
    fn pass(&mut self)
        requires { 4 ≤ length self.old }
        ensures { self.new ≡ drop 4 self.old }
    {
        self.rest = &self.rest[FIELD_BYTES..];
    }

    /// Reads four segment registers, a byte each.
    pub fn segments(&mut self) -> Result<[u8; FIELD_BYTES], Stop>
        ensures found { IfOk result (λ segs. Begins AreSegments segment_fields self.old segs self.new) }
        ensures fault { IfErr result (λ stop. IsStop AreSegments segment_fields self.old self.new stop) }
    {
        let four = self.next()?;
        self.pass();
        Ok(four)
    }

    /// Reads a number from `least` to `most`. Another one is a fault of this kind.
    pub fn number(&mut self, kind: ObjKind, least: u32, most: u32) -> Result<u32, Stop>
        requires kind { IsFieldKind kind }
        requires range { least ≤ most }
        ensures found { IfOk result (λ n. Begins (IsWithin least most) (one_field kind) self.old n self.new) }
        ensures fault { IfErr result (λ stop. IsStop (IsWithin least most) (one_field kind) self.old self.new stop) }
    {
        let number = self.next_number()?;
        if number < least || most < number {
            return Err(Stop::Fault(kind));
        }
        self.pass();
        Ok(number)
    }

    /// Reads the byte of a word's segment at which the word begins.
    pub fn offset(&mut self) -> Result<u32, Stop>
        ensures found { IfOk result (λ n. Begins IsOffset (one_field kinds.Field) self.old n self.new) }
        ensures fault { IfErr result (λ stop. IsStop IsOffset (one_field kinds.Field) self.old self.new stop) }
    {
        let offset = self.next_number()?;
        if offset % 4 != 0 || SEGMENT_END <= offset {
            return Err(Stop::Fault(ObjKind::Field));
        }
        self.pass();
        Ok(offset)
    }

    /// Reads a protection.
    pub fn protection(&mut self) -> Result<Protection, Stop>
        ensures found { IfOk result (λ prot. Begins IsProtection protection_fields self.old prot self.new) }
        ensures fault { IfErr result (λ stop. IsStop IsProtection protection_fields self.old self.new stop) }
    {
        let prot = match self.number(ObjKind::Field, 0, 2)? {
            0 => Protection::Nothing,
            1 => Protection::ReadOnly,
            _ => Protection::ReadWrite,
        };
        Ok(prot)
    }

    /// Reads an instruction.
    pub fn instr(&mut self) -> Result<Instr, Stop>
        ensures found { IfOk result (λ instr. Begins IsInstr instr_fields self.old instr self.new) }
        ensures fault { IfErr result (λ stop. IsStop IsInstr instr_fields self.old self.new stop) }
    {
        let word = self.next_number()?;
        let Ok(instr) = decode(word) else {
            return Err(Stop::Fault(ObjKind::BadWord));
        };
        self.pass();
        Ok(instr)
    }
}
