//! Kinds of bytes, and how many of a kind stand first.
ghost use Rattle.std.specs.Prelude.{◌≡◌, ◌≤◌, length};
ghost use Rattle.std.specs.List.{prefix_len};
ghost use Rattle.spur_asm.specs.Bytes.{is_blank, is_mark, is_name_byte, is_name_start, is_number_byte, is_number_start};

/// Whether a byte is a space, a tab or a carriage return.
fn is_blank(b: u8) -> bool
    ensures { result ≡ is_blank b }
{
    b == b' ' || b == b'\t' || b == b'\r'
}

/// Whether a name may begin with this byte: a letter, `_` or `.`.
pub fn is_name_start(b: u8) -> bool
    ensures { result ≡ is_name_start b }
{
    b.is_ascii_alphabetic() || b == b'_' || b == b'.'
}

/// Whether a name may go on with this byte: a letter, a digit or `_`.
fn is_name_byte(b: u8) -> bool
    ensures { result ≡ is_name_byte b }
{
    b.is_ascii_alphanumeric() || b == b'_'
}

/// Whether a number may begin with this byte: a digit or `-`.
pub fn is_number_start(b: u8) -> bool
    ensures { result ≡ is_number_start b }
{
    b.is_ascii_digit() || b == b'-'
}

/// Whether a number goes on with this byte: it takes all letters and digits that follow.
fn is_number_byte(b: u8) -> bool
    ensures { result ≡ is_number_byte b }
{
    b.is_ascii_alphanumeric()
}

/// Whether a byte is one of the marks `,` `:` `(` `)`.
pub fn is_mark(b: u8) -> bool
    ensures { result ≡ is_mark b }
{
    b == b',' || b == b':' || b == b'(' || b == b')'
}

/// How many blanks stand first.
pub fn blanks(bytes: &[u8]) -> usize
    ensures len { result ≡ prefix_len is_blank bytes.now }
    ensures within { result ≤ length bytes.now }
{
    for (i, b) in bytes.iter().enumerate() {
        if !is_blank(*b) {
            return i;
        }
    }
    bytes.len()
}

/// How many bytes with which a name goes on stand first.
pub fn name_bytes(bytes: &[u8]) -> usize
    ensures len { result ≡ prefix_len is_name_byte bytes.now }
    ensures within { result ≤ length bytes.now }
{
    for (i, b) in bytes.iter().enumerate() {
        if !is_name_byte(*b) {
            return i;
        }
    }
    bytes.len()
}

/// How many bytes with which a number goes on stand first.
pub fn number_bytes(bytes: &[u8]) -> usize
    ensures len { result ≡ prefix_len is_number_byte bytes.now }
    ensures within { result ≤ length bytes.now }
{
    for (i, b) in bytes.iter().enumerate() {
        if !is_number_byte(*b) {
            return i;
        }
    }
    bytes.len()
}
