//! A network in memory between some segments: it loses, repeats and delays what is sent, by a seed and a few numbers, so
//! that each run can be made again. No socket, no clock and no thread; it looks into no datagram.
//!
//! A driver calls `send` with each datagram that a node emits, and `receive` for a node until the answer is `Idle` or
//! `Quiet`. `Quiet` means that nothing is under way, so it is time for the node's next tick. A [`Wire`] is a machine too,
//! so threads can share one through a turn.
//!
//! Below: `ic_base`, `ic_turn`, and the kit's SplitMix64. Above: whatever runs all nodes in one program.
#![tactic(auto)]

mod copies;
mod fate;
mod laws;
mod machine;
mod node;
mod received;
#[cfg(test)]
mod tests;
mod wire;

pub use fate::Fate;
pub use laws::{keeps_in_order, keeps_what_was_sent};
pub use machine::{Setting, WireAsk, WireReply};
pub use received::Received;
pub use wire::Wire;
