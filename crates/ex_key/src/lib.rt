//! The key of a row, for tables that find rows by hash. No table is here.
//!
//! `RowKey::of` copies the values of some columns of a row. Keys are equal if their values are, each with the same kind
//! and content. A null equals a null here: an aggregate puts nulls into one group, and a join asks `has_null` first.
//!
//! Below: `ic_row` for values, `pl_ops` for when two rows are of one group. Above: the join and the aggregate.
#![tactic(auto)]

mod key;

pub use key::RowKey;

#[cfg(test)]
mod tests;
