//! The packets of one sending connection that are sealed and not acknowledged yet, with no header, no window and no
//! clock.
//!
//! A sender makes one [`SendRing`] for each connection, which takes all its room at once. `seal` gives a payload the
//! next number. While the sender may emit, `next_unsent` is the packet to emit, and `sent` marks it. An acknowledgement
//! frees packets by `acked`; until then `packet` gives the bytes again that were sealed under a number.
//!
//! Below: std and `circular_buffer`. Above: whoever sends for a connection.
#![tactic(auto)]

mod fault;
mod ring;
mod sealed;
mod slot;

pub use fault::SealNo;
pub use ring::SendRing;
pub use sealed::Sealed;

#[cfg(test)]
mod tests;
