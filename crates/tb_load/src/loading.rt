// A whole document.
ghost use Rattle.std.specs.Prelude.{◌≡◌, map, IfOk};
ghost use Rattle.pl_ops.specs.Fitting.{Fits};
ghost use Rattle.pl_read.specs.Limits.{IsDocument, HasShortTexts};
ghost use Rattle.tb_load.specs.Kept.{spread_of, loaded_of, schemas_of, wholes_of};
ghost use Rattle.tb_load.specs.Standing.{StandWherePlaced, StandOnce, StandByKey, StandNowhereElse};

use crate::apart::{by_key, in_turn};
use pl_ops::{Loaded, Spread};
use pl_read::{Document, Table, Tables};
use pl_tree::Placing;
use sqlite_items::Items;
use std::alloc::{AllocError, Global};

// If no segment is, no row is.
fn spread(alloc: Global, table: Table, segments: u32) -> Result<Spread, AllocError>
    ensures { IfOk result (λ x. x ≡ spread_of segments table) }
{
    let Table { schema, rows } = table;
    match &schema.place {
        Placing::Everywhere => Ok(Spread::Everywhere(rows)),
        _ if segments == 0 => Ok(Spread::Apart(Items::new(alloc))),
        Placing::Keyed(columns) => {
            let parts = by_key(alloc, rows, columns.as_slice(), segments)?;
            Ok(Spread::Apart(parts))
        }
        Placing::Dealt => Ok(Spread::Apart(in_turn(alloc, rows, segments)?)),
    }
}

fn spreads(alloc: Global, tables: Tables, segments: u32) -> Result<Items<Spread>, AllocError>
    ensures { IfOk result (λ xs. xs ≡ map (spread_of segments) tables) }
{
    let mut left = tables;
    let mut spreads = Items::new(alloc);
    'tables: while !left.is_empty() {
        let table = left.remove(0);
        spreads.push(spread(alloc, table, segments)?)?;
    }
    Ok(spreads)
}

/// The rows of all tables, each at the segments that its table's placing names. The only error is out of memory.
///
/// Goes over the rows once and moves each, so that none is there twice: a row of a table with a key or of a dealt one
/// stands at one segment, and a table that stands everywhere is kept once for all segments.
pub fn load(alloc: Global, document: Document) -> Result<Loaded, AllocError>
    // A part for each segment, or all rows once if the table is replicated.
    ensures kept { IfOk result (λ loaded. loaded ≡ loaded_of document) }
    // At each segment just the rows that stand there, in the document's order.
    ensures rows { IfOk result (λ loaded. StandWherePlaced document loaded) }
    // None is lost and none doubled: over all segments the rows are the table's; a table that stands everywhere is whole
    // at each.
    ensures whole { IfOk result (λ loaded. StandOnce document loaded) }
    ensures by_key { IfOk result (λ loaded. StandByKey document loaded) }
    // None at the dispatcher, and past the last segment none of a table whose rows stand apart.
    ensures nowhere { IfOk result (λ loaded. StandNowhereElse document loaded) }
    // What `read_document` gives, of bytes that 32 bits count, fits each plan judged with its tables and segments, with the
    // rows that the document has.
    ensures fits { IsDocument document → HasShortTexts document →
        IfOk result (λ loaded. Fits document.segments (schemas_of document) (wholes_of document) loaded) }
{
    let tables = spreads(alloc, document.tables, document.segments)?;
    Ok(Loaded::from_tables(tables))
}
