// Why a payload isn't sealed.

/// Why a payload isn't sealed. The ring is as before.
#[derive(Clone, Copy, Debug, PartialEq, Eq)]
pub enum SealNo {
    /// The peer hasn't acknowledged enough yet: as many packets are kept as the ring is deep.
    Full,
    /// The caller's stream is too long: all numbers up to 4294967295 were given.
    TooLong,
}
