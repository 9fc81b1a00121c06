// The right rows of a join, by their keys.
ghost use Rattle.std.specs.Prelude.{◌≡◌, ◌+◌, ◌++◌, [], ◌∷◌, cond, List, MatchOption, OnOk, IfOk};
ghost use Rattle.pl_ops.specs.Rows.{Line};
ghost use Rattle.pl_ops.specs.Groups.{same_line};
ghost use Rattle.ex_join.specs.Tables.{bucket, rows_at, total, Puts};
ghost use Rattle.indexmap.specs.IndexMap.{set_value_at};

use ex_key::RowKey;
use ic_row::{Row, Rows};
use indexmap::IndexMap;
use std::alloc::{AllocError, Global};
use std::marker::Model;

/// Rows by their keys, seen as each key with its rows in the order in which they were put.
#[derive(Drop)]
pub struct Table {
    rows: IndexMap<RowKey, Rows>,
}

impl Model for Table {
    ghost use Rattle.std.specs.Prelude.{List};
    ghost use Rattle.ic_row.specs.Values.{Datum};

    ghost Value = { List (List Datum × List (List Datum)) };

    ghost view = { λ t. t.rows.entries };
}

fn only(alloc: Global, row: Row) -> Result<Rows, AllocError>
    ensures { IfOk result (λ rows. rows ≡ row ∷ []) }
{
    let mut rows = Rows::new(alloc);
    rows.push(row)?;
    Ok(rows)
}

impl Table {
    /// Takes no memory.
    pub fn new(alloc: Global) -> Table
        ensures { result ≡ [] }
    {
        Table {
            rows: IndexMap::new(alloc),
        }
    }

    /// The place of a key, by one look-up. `None` if no row has it.
    pub fn find(&self, key: &RowKey) -> Option<usize>
        ensures { MatchOption result (bucket key.now self.now ≡ []) (λ at. rows_at self.now at ≡ bucket key.now self.now) }
    {
        self.rows.get_index_of(key)
    }

    /// The rows at a place, and none past the last.
    pub fn at(&self, place: usize) -> &[Row]
        ensures { result.now ≡ rows_at self.now place }
    {
        match self.rows.get_index(place) {
            Some((_, rows)) => rows.as_slice(),
            None => &[],
        }
    }

    /// Puts a row after those of its key. After an `Err` nothing is known of the table.
    pub fn put(&mut self, alloc: Global, key: RowKey, row: Row) -> Result<(), AllocError>
        ensures puts { OnOk result (Puts self.old self.new key row) }
    {
        match self.rows.get_index_of(&key) {
            Some(at) => push_at(&mut self.rows, at, row),
            None => {
                self.rows.insert(key, only(alloc, row)?)?;
                Ok(())
            }
        }
    }
}

/// Puts a row after those at a place. Past the last place it does nothing.
fn push_at(rows: &mut IndexMap<RowKey, Rows>, at: usize, row: Row) -> Result<(), AllocError>
    ensures { OnOk result (rows.new.entries ≡ set_value_at rows.old.entries at (rows_at rows.old.entries at ++ row ∷ [])) }
{
    match rows.get_index_mut(at) {
        Some(of_key) => of_key.push(row),
        None => Ok(()),
    }
}
