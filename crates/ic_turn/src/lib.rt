//! What serves asks one at a time, seen through the list of its asks and replies, and the turn, by which many callers
//! share it. No clock, no socket, and no thread of its own.
//!
//! A [`Machine`] says what its list of entries may be; [`act_all`] asks one several things in order. [`Counter`] is a
//! small machine, for tests of code over any. A [`Turn`] is a ticket lock over a machine that gives each caller the
//! entries of its own calls: each calls with a [`Pass`], and the whole list comes back as [`Closed`].
//!
//! Below: a lock-free table of the kit. Above: the hub of a segment, the network, and whatever several callers ask.
#![tactic(auto)]

mod board;
mod busy;
mod closing;
mod counter;
mod crossing;
mod entry;
mod machine;
mod many;
mod parting;
mod pass;
mod plays;
mod run;
mod turn;
mod view;

pub use busy::Busy;
pub use closing::Closed;
pub use counter::{Counted, Counter};
pub use entry::Entry;
pub use machine::Machine;
pub use many::{join_all, split_all};
pub use pass::Pass;
pub use run::act_all;
pub use turn::{Turn, TurnNo};

#[cfg(test)]
mod tests;
