//! What the run of a plan's slice is, and the run of a query over all nodes, as definitions. Nothing runs here: what works a
//! slice is held to these definitions.
//!
//! Read first: `specs/Runs.antt` for the seven points of a slice's run; then `specs/Slices.antt` and `specs/Wanting.antt` for
//! what they speak of, `specs/Logs.antt` and `specs/Distributed.antt` for logs and queries. `specs/Checking.antt` has the points
//! as a function, `specs/Lawful.antt` and `specs/Unlawful.antt` small runs.
//!
//! Below: `pl_mean` for what a slice gives, `ic_law` for histories. Above: operators, motions and slices.
#![tactic(auto)]

mod lawful;
mod laws;
mod unlawful;

pub use lawful::{a_join_runs, a_limit_runs, a_merge_runs};
pub use laws::{logs_are_of_workers, runs_give_the_output, the_check_is_the_run};
pub use unlawful::{ends_are_judged, sends_are_judged, takes_are_judged};
