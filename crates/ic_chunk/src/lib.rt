//! Rows cut into tuple chunks (fragmentation), and payloads of chunks joined to rows again (reassembly). No packet
//! header, no connection and no clock.
//!
//! A sender makes a [`Splitter`] for each row: each `next` appends one chunk to a buffer, until none is left. A
//! receiver keeps one [`Joiner`] for each sender and feeds it the payloads in the order of their packets: each `feed`
//! gives the rows that were completed.
//!
//! Each end of a connection counts the rows that it puts or takes. [`count_more`] adds those that end in one payload to
//! a count of 64 bits, which stays at its greatest value. [`rows_ended`] is the number for one payload. Neither reads a
//! row or copies a byte.
//!
//! Below: `ic_row`, `ic_base`. Above: whatever sends or receives rows.
#![tactic(auto)]

mod chunk;
mod count_laws;
mod counting;
mod draft;
mod fault;
mod joiner;
mod laws;
mod splitter;

pub use chunk::{ChunkKind, push_end_of_stream};
pub use count_laws::{count_tells, counts_rows};
pub use counting::{count_more, rows_ended};
pub use fault::FeedNo;
pub use joiner::{Fed, Joiner};
pub use laws::{cut_assembles, front_assembles, one_assembly};
pub use splitter::Splitter;

#[cfg(test)]
mod tests;
