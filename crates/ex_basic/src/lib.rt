//! Five operators: scan, filter, project, limit and sort. No operator calls another one and none knows a plan: who runs
//! them passes the rows between them.
//!
//! Ask `next` until it answers a row, wants one, or has ended. If it wants a row, answer by one `give` or by `ended`, and
//! ask again. `Scan` has its rows from the start, and wants none.
//! Below: `pl_ops` for what an operator gives of its rows, and for its words. Above: the tree of a slice.
#![tactic(auto)]

mod filter;
mod limit;
mod project;
mod scan;
mod sort;
mod words;

pub use filter::Filter;
pub use limit::Limit;
pub use project::Project;
pub use scan::Scan;
pub use sort::Sort;

#[cfg(test)]
mod tests;
