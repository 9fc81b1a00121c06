//! The operators of a slice at a segment, and where it sends, made from a sound plan. Nothing runs here: no port is called, no row
//! is moved and no connection is opened.
//!
//! For a worker's slice, [`tree_of`] gives the tree that it pulls, and [`sends_of`] what its sending end is told; slice 0 sends
//! nothing.
//!
//! Below: `pl_plan` for sound plans, `ex_tree` for trees. Above: the worker of a slice.
#![tactic(auto)]

mod finding;
mod giving;
mod laws;
mod listening;
mod making;
mod ops;
mod scanning;
mod sends;
mod worker;

pub use laws::{slice_0_sends_nothing, tops_are_numbered};
pub use making::tree_of;
pub use sends::{Sends, sends_of};
pub use worker::WorkerId;

#[cfg(test)]
mod tests;
