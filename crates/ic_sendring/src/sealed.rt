// A packet that is lent.

/// A packet that the ring lends: its number from 1, whether it has the end of stream, and its payload in bytes.
#[derive(Clone, Copy)]
pub struct Sealed<'a> {
    pub seq: u32,
    pub last: bool,
    pub payload: &'a [u8],
}
