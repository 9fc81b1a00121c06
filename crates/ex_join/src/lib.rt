//! The hash join: an operator that takes rows of two sides and gives left and right rows side by side. It calls no
//! other operator and knows no plan.
//!
//! A caller asks `next`. On `Wants(side)` it answers by `give`, with a row of that side, or by `ended`, and asks again.
//! The join takes its whole right side into a table first, and then streams its left side.
//!
//! Below: `ex_key` for keys, `pl_ops` for what a join gives. Above: slices.
#![tactic(auto)]

mod join;
mod table;

pub use join::HashJoin;

#[cfg(test)]
mod tests;
