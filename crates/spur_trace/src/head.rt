//! What a trace is of.

/// What a trace says of itself in its first line.
#[derive(Clone, Copy, Debug, PartialEq, Eq)]
pub struct TraceHead {
    /// How many boards there are: 1 to 12.
    pub boards: u32,
    /// With how many data frames the program was loaded: 1 to 3900.
    pub frames: u32,
    /// How many lines the cache of each board has: a power of two from 16 to 4096.
    pub lines: u32,
}

/// The numbers that a field of a header's line may have.
#[derive(Clone, Copy)]
pub struct FieldRange {
    pub least: u32,
    pub most: u32,
}

/// The first word of a header's line.
pub const HEADER_WORD: &[u8] = b"%trace";

/// The version of the format.
pub const VERSION: u32 = 1;

/// The ranges of the numbers of a header's line, in their order: the version of the format, the boards, the frames and
/// the lines.
pub const RANGES: [FieldRange; 4] = [
    FieldRange {
        least: VERSION,
        most: VERSION,
    },
    FieldRange { least: 1, most: 12 },
    FieldRange {
        least: 1,
        most: 3900,
    },
    FieldRange {
        least: 16,
        most: 4096,
    },
];
