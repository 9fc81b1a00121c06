//! One sending connection with the queue of what waits for its answers and the tick at which it is. No socket, no clock of
//! its own, no lock, and no judgement of whose datagram it is.
//!
//! A hub makes one [`TimedSender`] for each connection that sends from its segment. Commands of the slice are `put` and
//! `finish`. The event is `hear`, once the hub has found that a datagram is an answer of this connection. Each gives the
//! datagrams that the hub then emits. A tick has two phases, so that a refused one changes nothing: the hub first looks at
//! all its connections, with `due` and `query`, and if nothing is given up it makes the change, with `ticked`. Ticks are
//! the hub's count: each connection is told of each one, in the order of the hub. `is_over`, `is_stopped`, `is_finished`,
//! `key`, `sent`, `resent` and `rows` look: the last two count the packets that were emitted again, and the rows that were
//! put.
//!
//! Read first: `specs/TimedSender.antt`, what it is and what a tick makes of it; then `specs/Standing.antt`, what it has to do
//! with the history of its hub. Below: `ic_sender`, `ic_expire`, `ic_chunk` and `ic_law`. Above: the hub.
#![tactic(auto)]

mod due;
mod events;
mod laws;
mod ticks;
mod timed;

pub use due::{Due, Numbers};
pub use laws::{are_formed, keeps_law, others_pass, stays_armed};
pub use ticks::tick_behind;
pub use timed::TimedSender;

#[cfg(test)]
mod tests;
