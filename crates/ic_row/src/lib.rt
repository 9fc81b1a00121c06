//! Values and rows: how they are spelled as bytes, ordered, and dealt to segments. No table, no packet, no document: a
//! caller already has the rows, or the bytes of one.
//!
//! `spell` writes a row and `read_row` reads it. `compare` orders two rows by keys. `segment_of` gives a row's segment.
//! Below: `ic_base` for bytes and texts. Above: chunks, predicates, plans and every operator.
#![tactic(auto)]

mod hash;
mod laws;
mod order;
mod reading;
mod row;
mod rows;
mod stop;
mod value;
mod writing;

pub use hash::segment_of;
pub use laws::{
    begins_alone, has_one_spelling, hashes_by_key, is_prefix_free, orders_rows,
    reads_what_is_spelled,
};
pub use order::{Key, compare, compare_values};
pub use reading::{RowNo, read_row};
pub use row::Row;
pub use rows::Rows;
pub use value::{Kind, Value};
pub use writing::spell;

#[cfg(test)]
mod tests;
