//! Aggregates: an operator that takes rows and gives one row for each group. It calls no other operator and knows no
//! plan.
//!
//! A caller asks `next`. On `Wants(side)` it answers by `give`, with a row, or by `ended`, and asks again. An aggregate
//! keeps one result for each call of each group and adds each row to its group's, so it keeps no row that it was given.
//!
//! Below: `ex_key` for keys, `pl_ops` for what aggregates give. Above: slices.
#![tactic(auto)]

mod agg;
mod groups;
mod results;
mod values;

pub use agg::{Agg, AggPart};

#[cfg(test)]
mod tests;
