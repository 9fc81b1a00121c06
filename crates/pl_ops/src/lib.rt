//! What operators give of their input rows, as definitions, and the types by which operators speak. No operator runs
//! here, and no table is loaded: the definitions are what those that run and load are held to.
//!
//! `Side`, `Next` and `OpNo` are an operator's words; `Loaded` holds the rows of all tables by segment.
//! Below: `pl_tree` for plans, `ic_row` for rows. Above: loading, operators, motions and the meaning of plans.
#![tactic(auto)]

mod loaded;
mod words;

pub use loaded::{Loaded, Spread};
pub use words::{Next, OpNo, Side};

#[cfg(test)]
mod tests;
