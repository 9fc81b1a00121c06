//! What a plan means, and what its nodes give, as definitions. Nothing runs here, and no operator is known: what runs is
//! held to these definitions.
//!
//! Read first: `specs/Logical.antt` and `specs/Answers.antt` for what an answer must be; then `specs/Parts.antt` for what
//! a node gives at a segment in the end, and `specs/Outputs.antt` for what it gave so far. `specs/Worked.antt` has small
//! plans.
//!
//! Below: `pl_ops` for what operators give, `pl_plan` for gangs and motions. Above: `pl_runs`.
#![tactic(auto)]

mod worked;

pub use worked::{
    a_join_means_its_matches, an_ordered_gather_waits, any_rows_answer_a_limit,
    first_rows_answer_a_top, rows_go_where_they_hash, sorted_rows_answer_a_merge,
    two_stages_mean_one,
};
