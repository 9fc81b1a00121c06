//! The rows of a document's tables, each stored at the segments that its table's placing names. Nothing is read here, no
//! plan is looked at, and no row moves once it stands.
//!
//! A program calls [`load`] once, after `read_document`, and hands the result down to whatever scans tables; that asks
//! `Loaded::rows` of a table and a segment.
//!
//! Below: `pl_read` for documents, `pl_ops` for rows by segment, `ic_row` for the segment of a key. Above: whoever runs
//! queries.
#![tactic(auto)]

mod apart;
mod laws;
mod loading;

pub use laws::{fitting_rows, placed_once};
pub use loading::load;

#[cfg(test)]
mod tests;
