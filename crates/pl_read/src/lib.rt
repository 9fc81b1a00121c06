//! A document of tables, settings and plans, read from its JSON text whole, or refused with the first fault in it. No
//! plan is judged here and no row is placed: whether a plan's tables and columns are there is for `pl_plan`.
//!
//! A program calls [`read_document`] once with all bytes of its input.
//!
//! Inside, the bytes are made a value of JSON, and then each kind of value has one reader, which is given a `Place` and a value of JSON, and gives the value's
//! meaning or the first fault at or below that place: an object's unknown members first, then its members in the order
//! of its kind, arrays by length and then item by item.
//!
//! Below: `pl_tree`, `pl_expr`, `ic_row`, `ic_base` for what is read, the kit's `serde_json` for JSON. Above: whoever
//! loads tables and runs queries.
#![tactic(auto)]

mod document;
mod expr;
mod fault;
mod list;
mod member;
mod node;
mod numeral;
mod parse;
mod place;
mod rows;
mod settings;
mod size;
mod table;
mod value;

pub use document::{Document, read_document};
pub use fault::{DocFault, DocNo};
pub use node::Plans;
pub use table::{Table, Tables};

#[cfg(test)]
mod tests;
