//! Plans as trees, and what each node gives: its columns, its locus (at which segments its rows are) and their order. No rule is
//! judged here and nothing is run: a caller has the tree and the tables' schemas already.
//!
//! The calls compute what one node gives from what its children give, so a walk over a plan asks each once.
//! Below: `pl_expr` for predicates. Above: `pl_plan`, which judges plans, and all who read or run them.
#![tactic(auto)]

mod columns;
mod loci;
mod node;
mod orders;
mod partials;
mod schema;
mod sizes;
#[cfg(test)]
mod tests;

pub use columns::{aggregate_kinds, chosen_kinds, copy_kinds, schema_named};
pub use loci::{hashed, joined_locus, moved_to, placed};
pub use node::{Call, Calls, Columns, Keys, Node, Pair, Pairs, Plan, Stage};
pub use orders::kept_order;
pub use partials::{Groups, partial_at, partial_under};
pub use schema::{Kinds, Loci, Locus, Placing, Schema, Schemas, copy_schemas};
pub use sizes::all_fit;
