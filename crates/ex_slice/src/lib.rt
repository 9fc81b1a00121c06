//! One slice of a plan at one segment: its operators, and where their rows go. No hub, no clock and no thread.
//!
//! A driver gives a slice turns, each with the port of its worker, until the answer is `Done`. A turn makes at most one call
//! of the port, never waits, and at slice 0 lets at most one row out. After an error each further turn answers the same.
//!
//! Below: `ex_tree` for operators, `ic_motion` for motions, `pl_runs` for what a slice's run is. Above: whatever runs a
//! session.
#![tactic(auto)]

mod acting;
mod slice;
mod spellable;
mod stage;
mod way;

pub use slice::Slice;
pub use stage::{SliceNo, Turned};
