//! Names, settings, datagrams, bytes and texts that every layer shares. No codec, no connection and no clock.
//!
//! Each type here is small: a `Vec`, a `String` or a number inside, and contracts see it as a list or a number.
//! Above: every other crate of the workspace.
#![tactic(auto)]

mod bytes;
mod datagram;
mod drops;
mod keys;
mod port;
mod settings;
#[cfg(test)]
mod tests;
mod text;

pub use bytes::Bytes;
pub use datagram::{Datagram, Datagrams, Parcel};
pub use drops::Drops;
pub use keys::{BeginNo, ConnEnd, ConnEnds, ConnKey, SegId, Segs};
pub use port::{Port, PortAsk, PortEntries, PortEntry, PortNo, PortReply};
pub use settings::{Field, Flow, OutOfRange, Settings};
pub use text::Text;
