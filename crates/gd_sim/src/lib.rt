//! Runs the queries of a session over a network in memory: a node for each segment and the dispatcher, their workers, and
//! the network between them, in rounds. No thread, no socket and no clock.
//!
//! A program calls [`first_run`] once, with sound plans and the loaded tables, and reads the tallies of a query that is
//! over from the histories by [`tallies_of`].
//!
//! Read first: `specs/Run.antt`, what a run is; then `specs/Playing.antt`, what stands while a query plays. Below: `ic_port`
//! for hubs with their histories, `gd_work` for workers, `gd_net` for the network, `gd_law` for what histories tell,
//! `pl_plan` and `pl_ops` for plans and rows. Above: the program.
#![tactic(auto)]

mod begin;
mod fault;
mod feed;
mod plans;
mod rounds;
mod run;
mod sim;
mod station;
mod tally;
#[cfg(test)]
mod tests;

pub use feed::Feed;
pub use plans::{SoundPlans, feed_of, feeds_of, first_run, gathered};
pub use run::{FirstNo, FirstRun, RowLists, run_feeds};
pub use tally::{Tallies, Tally, tallies_of, tally_of};
