/// Why the bytes aren't a datagram with a header: the peer's or the network's doing. If several faults are there, the
/// first in this order is named.
#[derive(Clone, Copy, Debug, PartialEq, Eq)]
pub enum HeaderFault {
    /// Fewer than 64 bytes.
    Short,
    /// The crc word isn't 0.
    Crc,
    /// The flags word is none of the eight.
    Flags,
    /// The length in the header isn't the datagram's, or the flags don't allow a body of this length.
    Len,
}
