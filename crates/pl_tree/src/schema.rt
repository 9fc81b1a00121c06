// Tables as plans see them.
ghost use Rattle.std.specs.Prelude.{◌≡◌, IfOk};

use crate::node::Columns;
use ic_base::Text;
use ic_row::Kind;
use sqlite_items::Items;
use std::alloc::{AllocError, Global};

/// The kinds of some columns, in their order.
pub type Kinds = Items<Kind>;

/// The tables that plans name.
pub type Schemas = Items<Schema>;

/// The loci of some nodes.
pub type Loci = Items<Locus>;

/// The placing of a table's rows.
#[derive(Drop, Debug)]
pub enum Placing {
    /// Each at the segment that its values in these columns name.
    Keyed(Columns),
    /// Row i, from 0, at segment i modulo their number.
    Dealt,
    /// All rows at each segment.
    Everywhere,
}

/// A table without its rows.
#[derive(Drop, Debug)]
pub struct Schema {
    pub name: Text,
    pub kinds: Kinds,
    pub place: Placing,
}

/// The locus of a node.
#[derive(Drop, Debug)]
pub enum Locus {
    /// At the dispatcher alone.
    Entry,
    /// Each at the segment that its values in these columns name.
    Hashed(Columns),
    /// The same rows at each segment.
    Replicated,
    /// Each at one segment, whichever.
    Strewn,
}

impl Placing {
    /// The same placing again, in memory of its own.
    pub fn copy(&self, alloc: Global) -> Result<Placing, AllocError>
        ensures { IfOk result (λ x. x ≡ self.now) }
    {
        match self {
            Placing::Keyed(columns) => {
                let columns = Items::from_slice(alloc, columns.as_slice())?;
                Ok(Placing::Keyed(columns))
            }
            Placing::Dealt => Ok(Placing::Dealt),
            Placing::Everywhere => Ok(Placing::Everywhere),
        }
    }
}

impl Schema {
    /// The same table again, in memory of its own.
    pub fn copy(&self, alloc: Global) -> Result<Schema, AllocError>
        ensures { IfOk result (λ x. x ≡ self.now) }
    {
        Ok(Schema {
            name: self.name.copy(alloc)?,
            kinds: Items::from_slice(alloc, self.kinds.as_slice())?,
            place: self.place.copy(alloc)?,
        })
    }
}

/// The same tables again, in memory of their own.
pub fn copy_schemas(alloc: Global, schemas: &[Schema]) -> Result<Schemas, AllocError>
    ensures { IfOk result (λ x. x ≡ schemas.now) }
{
    let mut copies = Items::new(alloc);
    for schema in schemas {
        copies.push(schema.copy(alloc)?)?;
    }
    Ok(copies)
}

impl Locus {
    /// The same locus again, in memory of its own.
    pub fn copy(&self, alloc: Global) -> Result<Locus, AllocError>
        ensures { IfOk result (λ x. x ≡ self.now) }
    {
        match self {
            Locus::Entry => Ok(Locus::Entry),
            Locus::Hashed(columns) => {
                let columns = Items::from_slice(alloc, columns.as_slice())?;
                Ok(Locus::Hashed(columns))
            }
            Locus::Replicated => Ok(Locus::Replicated),
            Locus::Strewn => Ok(Locus::Strewn),
        }
    }
}
