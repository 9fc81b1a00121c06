// The rows of one table, each at one segment.
ghost use Rattle.std.specs.Prelude.{◌≡◌, ◌<◌, [], ◌∷◌, ◌++◌, length, IfOk, OnOk, replicate, slice_set, slice_index_or};
ghost use Rattle.pl_tree.specs.declared.schema.Placing.TheVariants.{Keyed, Dealt};
ghost use Rattle.tb_load.specs.Kept.{parts_of};

use ic_row::{Row, Rows, segment_of};
use sqlite_items::Items;
use std::alloc::{AllocError, Global};

// No rows at any segment.
fn no_rows(alloc: Global, segments: u32) -> Result<Vec<Rows>, AllocError>
    ensures { IfOk result (λ parts. parts.items ≡ replicate segments []) }
{
    let mut parts = Vec::with_capacity(alloc, segments as usize)?;
    for _ in 0..segments {
        parts.push(Rows::new(alloc))?;
    }
    Ok(parts)
}

// The row after those of this segment.
fn add(parts: &mut Vec<Rows>, segment: u32, row: Row) -> Result<(), AllocError>
    requires { segment < length parts.old.items }
    ensures { OnOk result (parts.new.items ≡ slice_set parts.old.items segment
        (slice_index_or parts.old.items segment [] ++ row ∷ [])) }
{
    parts[segment as usize].push(row)
}

/// Each row at the segment that its values in these columns name. Moves the rows.
pub(crate) fn by_key(
    alloc: Global,
    rows: Rows,
    columns: &[u32],
    segments: u32,
) -> Result<Items<Rows>, AllocError>
    requires { 0 < segments }
    ensures { IfOk result (λ parts. parts ≡ parts_of (Keyed columns.now) segments rows) }
{
    let mut parts = no_rows(alloc, segments)?;
    let mut left = rows.into_vec().into_iter();
    'rows: while let Some(row) = left.next() {
        let segment = segment_of(&row, columns, segments);
        add(&mut parts, segment, row)?;
    }
    Ok(Items::from_vec(parts))
}

/// Row i, from 0, at segment i modulo their number. Moves the rows.
pub(crate) fn in_turn(alloc: Global, rows: Rows, segments: u32) -> Result<Items<Rows>, AllocError>
    requires { 0 < segments }
    ensures { IfOk result (λ parts. parts ≡ parts_of Dealt segments rows) }
{
    let mut parts = no_rows(alloc, segments)?;
    let mut left = rows.into_vec().into_iter();
    let mut number = 0;
    'rows: while let Some(row) = left.next() {
        add(&mut parts, (number % segments as usize) as u32, row)?;
        number += 1;
    }
    Ok(Items::from_vec(parts))
}
