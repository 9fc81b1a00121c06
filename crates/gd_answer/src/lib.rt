//! The query theorem: from the histories of all nodes of a session, with a run of its slice for each worker, to a lawful
//! answer. Laws alone: nothing runs here, and no driver is known.
//!
//! Read first: `specs/Laws.antt`, then `specs/Clean.antt`.
//!
//! Below: `pl_answers` for runs without histories, `pl_runs` for runs and logs, `ic_law` and `gd_law` for histories. Above:
//! whatever runs a session.
#![tactic(auto)]

mod laws;

pub use laws::{runs_are_lawful, runs_go_on};
