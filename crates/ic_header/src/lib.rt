//! The 64-byte packet header, written and read, and the packets that begin with it. No socket and no connection.
//! Numbers aren't judged: any session, query, slice, content id and sequence number is written and read.
//!
//! [`write`] puts a header into 64 bytes that the caller owns. [`read`] takes a whole datagram and gives the header and
//! the body after it, or the first of four faults. Each copies 64 bytes; `read` never copies the body.
//!
//! Read first: `specs/Spelling.antt`. Below: `ic_base`. Above: whatever emits or receives a datagram.
#![tactic(auto)]

mod fault;
mod flags;
mod header;
mod packets;
mod reading;
mod writing;

pub use fault::HeaderFault;
pub use flags::Flags;
pub use header::Header;
pub use packets::{
    HEADER, answer_packet, listing_packet, query_packet, rows_packet, turned_packet,
};
pub use reading::read;
pub use writing::write;

#[cfg(test)]
mod tests;
