// The rows of a table at a segment.
ghost use Rattle.std.specs.Prelude.{◌≡◌, ◌<◌, ◌+◌, ◌^◌, length, IfOk};
ghost use Rattle.pl_tree.specs.Columns.{same_text};
ghost use Rattle.pl_mean.specs.Parts.{number_from, rows_of};

use ic_base::{SegId, Text};
use ic_row::Row;
use pl_ops::Loaded;
use pl_tree::Schema;
use std::alloc::AllocError;

fn is_same(a: &Text, b: &Text) -> bool
    ensures { result ≡ same_text a.now b.now }
{
    a.as_str() == b.as_str()
}

/// The number of the table of this name, from 0.
fn number_of(name: &Text, schemas: &[Schema]) -> Option<usize>
    ensures { result ≡ number_from 0 name.now schemas.now }
{
    for (number, schema) in schemas.iter().enumerate() {
        if is_same(&schema.name, name) {
            return Some(number);
        }
    }
    None
}

fn rows_in<'a>(rows: &'a Loaded, number: usize, at: SegId) -> Result<&'a [Row], AllocError>
    ensures { IfOk result (λ found. found.now ≡ rows_of rows.now (Some number) at) }
{
    match u32::try_from(number) {
        Ok(table) => Ok(rows.rows(table, at)),
        // No document has so many tables.
        Err(_) => Err(AllocError),
    }
}

/// The rows of the table of this name at a segment.
pub fn rows_named<'a>(
    rows: &'a Loaded,
    name: &Text,
    schemas: &[Schema],
    at: SegId,
) -> Result<&'a [Row], AllocError>
    ensures { IfOk result (λ found. found.now ≡ rows_of rows.now (number_from 0 name.now schemas.now) at) }
{
    match number_of(name, schemas) {
        Some(number) => rows_in(rows, number, at),
        None => Ok(&[]),
    }
}
