//! Labels, and the way to them.
ghost use Rattle.std.specs.Prelude.{◌≡◌};
ghost use Rattle.spur_asm.specs.Context.{distance};

/// A label: the number of its board, counted from 1, its name, and its place, which is the number of the board's
/// instructions before it.
#[derive(Clone, Copy)]
pub struct Label<'a> {
    pub board: usize,
    pub name: &'a [u8],
    pub place: usize,
}

/// That by which a label is looked up: the number of its board, and its name.
#[derive(Clone, Copy, PartialEq, Eq, PartialOrd, Ord)]
pub struct Key<'a> {
    pub board: usize,
    pub name: &'a [u8],
}

/// From the place behind this one to another, in instructions, as a number of 16 bits with a sign.
pub fn distance(here: usize, there: usize) -> i16
    ensures { result ≡ distance here there }
{
    let behind = (here % 65536 + 1) % 65536;
    (((there % 65536 + (65536 - behind)) % 65536) as u16).cast_signed()
}
