//! The laws of a hub determine it: after one history an ask has one lawful reply, out of memory aside. Definitions and
//! laws alone: no hub is known, and nothing runs.
//!
//! Read first: `specs/Unique.antt`; then `specs/Worked.antt`, histories that follow from their asks.
//!
//! Below: `ic_law` for histories, the law of hubs and the law of emission. Above: nothing.
#![tactic(auto)]

mod laws;
mod worked;

pub use laws::{one_history, one_reply};
pub use worked::{
    a_disorder_is_answered, a_loss_is_resent, a_query_is_due_too, a_stop_ends_it,
    two_connections_are_due,
};
