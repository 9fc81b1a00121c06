// What a hub counts of a connection.

/// What one end of a connection counts, as [`Hub::counts`](crate::Hub::counts) tells it.
#[derive(Clone, Copy, PartialEq, Eq, Debug)]
pub struct Counts {
    /// Rows that were put, at the sending end, or taken, at the receiving one. Stands still at its greatest value.
    pub rows: u64,
    /// The greatest number of a packet of rows that was emitted, from 1; 0 if none was, and at the receiving end.
    pub packets: u32,
    /// Emissions of such packets beyond that, 0 at the receiving end. Stands still at its greatest value.
    pub resent: u128,
    /// Whether the end of stream was taken; `false` at the sending end.
    pub whole: bool,
}
