//! The law of parts: what the nodes of a sound plan give at the segments, taken together, is what the plan means. Laws
//! alone: nothing runs here, and nothing that runs is known.
//!
//! Read first: `specs/Law.antt`; `specs/Worked.antt` has small plans.
//!
//! Below: `pl_mean` for parts and meanings, `pl_plan` for sound plans. Above: `pl_answers`.
#![tactic(auto)]

mod laws;
mod worked;

pub use laws::{parts_are_the_meaning, the_root_part_is_the_meaning};
pub use worked::{
    a_broadcast_reaches_all, a_final_joins_groups, copies_are_sent_once, rows_meet_where_they_hash,
};
