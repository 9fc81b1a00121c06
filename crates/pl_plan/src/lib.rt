//! Which plans are sound, and which slices, gangs and connections a sound plan has. No row is read here and no
//! connection is opened: a caller has a plan and the tables' schemas, and asks before anything runs.
//!
//! `checked` takes a plan and gives a `SoundPlan`, or names the node and the rule that is broken first; all else is asked
//! of the `SoundPlan`.
//! Below: `pl_tree` for plans and what their nodes give. Above: documents, the meaning of plans, loading, operators.
#![tactic(auto)]

mod above;
mod asks;
mod ends;
mod facts;
mod grouping;
mod layout;
mod limits;
mod moving;
mod rule;
mod sound;
mod walking;

pub use pl_tree::{
    Call, Calls, Columns, Keys, Kinds, Locus, Node, Pair, Pairs, Placing, Plan, Schema, Schemas,
    Stage,
};
pub use rule::{PlanFault, PlanNo, Rule};
pub use sound::{Judged, SoundPlan, checked};

#[cfg(test)]
mod tests;
