//! A world of nodes and workers in which one query runs, step by step, in whatever order the caller likes. No network, no
//! thread and no clock: the caller says what comes next.
//!
//! A [`Session`] has the nodes with their histories, and the past: each step that was done, oldest first. [`World::new`]
//! takes it, with the plan of a query and a fresh slice for each of its workers; [`World::step`] does one step if it
//! applies, [`World::play`] a list of them, and [`World::close`] gives the session back for the next query.
//!
//! `specs/` says what steps are, what a past tells, and what a world stands for. Whatever the steps, the histories are those
//! of a session, and the workers run their slices.
//!
//! Below: `ic_port` for a node, `ic_desk` for a worker's port, `ex_slice` for its slice. Above: whoever runs rounds.
#![tactic(auto)]

mod acting;
mod laws;
mod making;
mod past;
mod playing;
mod seat;
mod session;
mod step;
mod steps;
mod turning;
mod world;

pub use laws::{plans_have_ends, sessions_go_on, worlds_run_cleanly};
pub use past::Did;
pub use seat::Seat;
pub use session::Session;
pub use step::Step;
pub use world::World;

#[cfg(test)]
mod tests;
