//! From the runs of all slices of a plan to a lawful answer: whatever the workers took so far, the rows that the root gave are
//! the front of one. Laws alone: nothing runs here, and no history is known.
//!
//! Read first: `specs/Runs.antt`, then `specs/Laws.antt`; `specs/Growing.antt` for a worker that took more. `specs/Worked.antt`
//! has two rules on a small plan.
//!
//! Below: `pl_parts` for the law of parts, `pl_mean` for outputs and answers. Above: `gd_answer`.
#![tactic(auto)]

mod laws;
mod worked;

pub use laws::{answers_are_lawful, outputs_grow};
pub use worked::{a_gather_waits_for_heads, a_limit_keeps_the_least};
