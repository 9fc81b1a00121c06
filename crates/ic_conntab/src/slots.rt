// Positions of ends.

/// The positions of the two ends of a connection, each among those of its side, from 0. Both are there only for a
/// connection from a segment to itself.
#[derive(Clone, Copy, Debug, PartialEq, Eq)]
pub struct Sides {
    pub sender: Option<usize>,
    pub receiver: Option<usize>,
}

/// The position of one end, from 0.
#[derive(Clone, Copy, Debug, PartialEq, Eq)]
pub enum Slot {
    /// Among the sending ends.
    Sender(usize),
    /// Among the receiving ends.
    Receiver(usize),
}
