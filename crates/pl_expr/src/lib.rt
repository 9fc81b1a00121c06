//! Predicates over one row: comparisons, null tests and the connectives between them. No plan, no table, no text of a
//! predicate: a caller has the tree already, and a row or the kinds of its columns.
//!
//! `types` is asked once, with the kinds of the columns, and `holds` for each row of these kinds afterwards.
//! Below: `ic_row` for values and their order. Above: plans, documents, and the filters that run them.
#![tactic(auto)]

mod expr;
mod holding;
mod truths;
mod typing;

pub use expr::{CompareOp, Expr, Exprs, Operand};
pub use holding::{holds, truth_value};
pub use truths::Truth;
pub use typing::{ExprFault, ExprFlaw, has_flaw, types};

#[cfg(test)]
mod tests;
