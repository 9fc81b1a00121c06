// One row.
use crate::value::Value;
use std::alloc::{AllocError, Global};
use std::marker::Model;

/// A row, seen as the list of its values.
#[derive(Drop, Debug)]
pub struct Row {
    values: Vec<Value>,
}

impl Model for Row {
    ghost use Rattle.std.specs.Prelude.{List};
    ghost use Rattle.ic_row.specs.Values.{Datum};

    ghost Value = { List Datum };

    ghost view = { λ r. r.values.items };
}

impl Row {
    ghost use Rattle.std.specs.Prelude.{◌≡◌, ◌↔◌, length, IfOk, IsTrue};
    ghost use Rattle.ic_row.specs.Values.{column, Presents};

    /// Takes no memory.
    pub fn from_vec(values: Vec<Value>) -> Row
        ensures { result ≡ values.items }
    {
        Row { values }
    }

    pub fn into_vec(self) -> Vec<Value>
        ensures { result.items ≡ self }
    {
        self.values
    }

    pub fn as_slice(&self) -> &[Value]
        ensures { result.now ≡ self.now }
    {
        self.values.as_slice()
    }

    /// The number of values.
    pub fn len(&self) -> usize
        ensures { result ≡ length self.now }
    {
        self.values.len()
    }

    pub fn is_empty(&self) -> bool
        ensures { IsTrue result ↔ (length self.now ≡ 0) }
    {
        self.values.is_empty()
    }

    /// The value in a column, by its position from 0. `None` if that value is null, or if the position is past the last
    /// one.
    pub fn present(&self, place: u32) -> Option<&Value>
        ensures { Presents result (column self.now place) }
    {
        match self.values.get(place as usize) {
            Some(value) => value.present(),
            None => None,
        }
    }

    /// A copy of the row in memory of its own. Copies each text once.
    pub fn copy(&self, alloc: Global) -> Result<Row, AllocError>
        ensures { IfOk result (λ r. r ≡ self.now) }
    {
        let mut values = Vec::with_capacity(alloc, self.len())?;
        for value in self.as_slice() {
            values.push(value.copy(alloc)?)?;
        }
        Ok(Row { values })
    }
}
