//! A network in memory between the dispatcher and the segments. It loses the sends that it was told to lose, and keeps
//! the others until they are received. No socket, no clock, no delay and no repeated copy; it looks into no datagram.
//!
//! A driver calls `send` with each datagram that a node emits, and `receive` for a node until the answer is `Idle` or
//! `Quiet`. `Quiet` means that nothing is under way, so it is time for the node's next tick.
//!
//! Below: `ic_base`. Above: whatever runs all nodes in one program.
#![tactic(auto)]

mod laws;
mod network;
mod node;
#[cfg(test)]
mod tests;

pub use laws::{comes_in_order, counts_sends, was_sent, without_loss};
pub use network::{Network, Received};
