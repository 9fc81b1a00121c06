//! The operators of one slice at one segment, as one tree over the receiving ends of the slice's motions. No hub, no clock and
//! no thread; it sends nothing.
//!
//! A worker calls [`Tree::pull`]. Each pull makes at most one call of the port and never waits: on `Step` pull again, on `More`
//! pull again once the worker's turn comes, on `Wait` later. Once no more rows are wanted, call [`Tree::halt`] until the answer
//! is `Done`. After an error call neither again.
//!
//! Below: `ex_basic`, `ex_join`, `ex_agg` and `ic_motion`. Above: the worker of a slice.
#![tactic(auto)]

mod answers;
mod laws;
mod making;
mod op;
mod tree;

pub use answers::{Pulled, TreeNo};
pub use laws::{parts_are_of_plans, trees_stand_by};
pub use op::Op;
pub use tree::Tree;
