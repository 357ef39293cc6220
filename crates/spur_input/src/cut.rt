//! Where the trace begins, in an input with a program's text and a trace behind it.

ghost use Rattle.std.specs.Prelude.{◌≡◌, ◌≤◌, drop, length, take};
ghost use Rattle.spur_input.specs.Judged.{program_part, trace_part};

/// How many bytes stand before the first line that begins with a percent sign: all of them where no line does.
fn program_length(input: &[u8]) -> usize
    ensures within { result ≤ length input.now }
    ensures program { take result input.now ≡ program_part input.now }
    ensures trace { drop result input.now ≡ trace_part input.now }
{
    let mut begins = true;
    for (place, byte) in input.iter().enumerate() {
        if begins && *byte == b'%' {
            return place;
        }
        begins = *byte == b'\n';
    }
    input.len()
}

/// The program's text and the text of the trace: what stands before the first line that begins with a percent sign, and
/// what begins there.
pub fn parts(input: &[u8]) -> (&[u8], &[u8])
    ensures program { result.0.now ≡ program_part input.now }
    ensures trace { result.1.now ≡ trace_part input.now }
{
    input.split_at(program_length(input))
}
