// What becomes of a packet that came.

/// What becomes of a packet that came. Only `Stored` changes the ring.
#[derive(Clone, Copy, Debug, PartialEq, Eq)]
pub enum Store {
    /// The network or the peer repeats it: its number is at most the run's end, or kept. No packet has number 0, which
    /// is answered so too.
    Duplicate,
    /// The peer's doing: its number is past the number consumed and the depth, or its payload is longer than a packet
    /// has room for.
    Beyond,
    Stored,
}
