//! Lemmas over the histories of all nodes of a session: when they show that a query was answered, and why. Definitions
//! and laws alone: nothing runs here, and no hub, worker or network is known.
//!
//! Everything is read from the nodes' histories. A caller that runs the nodes keeps `IsPlayed` for each query that is
//! over, and the laws give `IsAnswered` at the end.
//!
//! Below: `ic_law` for the law of hubs and the logs of workers, `gd_work` for what workers do. Above: whatever runs a
//! session.
#![tactic(auto)]

mod laws;

pub use laws::{played_is_answered, played_stays, puts_agree, takes_agree, whole_was_finished};
