// Several rows.
use crate::row::Row;
use std::alloc::{AllocError, Global};
use std::marker::Model;

/// Rows in order, seen as a list of lists of values.
#[derive(Drop, Debug)]
pub struct Rows {
    items: Vec<Row>,
}

impl Model for Rows {
    ghost use Rattle.std.specs.Prelude.{List};
    ghost use Rattle.ic_row.specs.Values.{Datum};

    ghost Value = { List (List Datum) };

    ghost view = { λ r. r.items.items };
}

impl Rows {
    ghost use Rattle.std.specs.Prelude.{◌≡◌, ◌↔◌, [], ◌∷◌, ◌++◌, length, IsTrue, OnOk, OnErr};

    /// No rows. Takes no memory.
    pub fn new(alloc: Global) -> Rows
        ensures { result ≡ [] }
    {
        Rows {
            items: Vec::new(alloc),
        }
    }

    /// Takes no memory.
    pub fn from_vec(items: Vec<Row>) -> Rows
        ensures { result ≡ items.items }
    {
        Rows { items }
    }

    pub fn into_vec(self) -> Vec<Row>
        ensures { result.items ≡ self }
    {
        self.items
    }

    pub fn as_slice(&self) -> &[Row]
        ensures { result.now ≡ self.now }
    {
        self.items.as_slice()
    }

    /// The number of rows.
    pub fn len(&self) -> usize
        ensures { result ≡ length self.now }
    {
        self.items.len()
    }

    pub fn is_empty(&self) -> bool
        ensures { IsTrue result ↔ (length self.now ≡ 0) }
    {
        self.items.is_empty()
    }

    /// Adds a row at the end. Fails only if out of memory; then the row is dropped.
    pub fn push(&mut self, row: Row) -> Result<(), AllocError>
        ensures ok { OnOk result (self.new ≡ self.old ++ row ∷ []) }
        ensures err { OnErr result (self.new ≡ self.old) }
    {
        self.items.push(row)?;
        Ok(())
    }
}
