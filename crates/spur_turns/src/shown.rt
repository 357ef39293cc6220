//! What contracts see of a seat, beside its table.

/// What a seat holds between two calls.
pub enum Holding<P> {
    Nothing,
    /// Its own place, as it was when it was taken.
    Own(P),
    /// The bus and every place.
    Everything,
}

/// What contracts see of a seat, beside its table. No value of it is made: it exists in the proofs alone.
pub struct SeatParts<P, N> {
    /// The seat's number, which is that of its place.
    pub number: u64,
    /// The name of the bus.
    pub name: Option<N>,
    /// What it holds.
    pub holds: Holding<P>,
    /// How often a try for its own place found the place taken for the bus.
    pub met: u64,
}
