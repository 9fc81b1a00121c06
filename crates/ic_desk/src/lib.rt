//! A worker's desk at its node: the port of one slice's worker, where the workers of several slices share a hub. No
//! network, no thread and no clock.
//!
//! The node's own port is that of all its ends. A desk borrows the node and serves the ends of one slice alone, and the
//! log of its calls is what of the node's whole history goes by these ends.
//!
//! Drive it so. [`Desk::new`] borrows the node for a slice; hand the desk to the slice's worker as its [`Port`], for as
//! many calls as you like; drop it, and the node is yours again. What became of the node is the desk's `steps`.
//!
//! Below: `ic_port`, and `pl_runs` for which ends are a slice's. Above: whoever runs the slices of a plan over nodes.
//!
//! [`Port`]: ic_base::Port
#![tactic(auto)]

mod desk;
mod laws;
#[cfg(test)]
mod tests;

pub use desk::Desk;
pub use laws::{a_query_begins_with_no_log, only_workers_log, the_ends_are_the_plans};
