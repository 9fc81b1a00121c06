// The rows of all tables, by segment.
ghost use Rattle.std.specs.Prelude.{◌≡◌};
ghost use Rattle.pl_ops.specs.Placed as spec;

use ic_base::SegId;
use ic_row::{Row, Rows};
use sqlite_items::Items;
use std::marker::Model;

/// How the rows of one table are spread.
#[derive(Drop, Debug)]
pub enum Spread {
    /// Those of segment 0, then those of segment 1, and so on.
    Apart(Items<Rows>),
    /// The same at each segment, kept once.
    Everywhere(Rows),
}

/// The rows of all tables, seen as one `Spread` for each table.
#[derive(Drop, Debug)]
pub struct Loaded {
    tables: Items<Spread>,
}

impl Model for Loaded {
    ghost use Rattle.std.specs.Prelude.{List};
    ghost use Rattle.pl_ops.specs.declared.loaded.Spread.{Spread};

    ghost Value = { List Spread };

    ghost view = { λ l. l.tables };
}

fn rows_of(rows: &Rows) -> &[Row]
    ensures { result.now ≡ rows.now }
{
    rows.as_slice()
}

fn part_at(parts: &[Rows], at: SegId) -> &[Row]
    ensures { result.now ≡ spec.part_at parts.now at }
{
    if at.number() < 0 {
        return &[];
    }
    match parts.get(at.number() as usize) {
        Some(rows) => rows_of(rows),
        None => &[],
    }
}

fn spread_at(spread: &Spread, at: SegId) -> &[Row]
    ensures { result.now ≡ spec.spread_at spread.now at }
{
    match spread {
        Spread::Apart(parts) => part_at(parts.as_slice(), at),
        Spread::Everywhere(rows) => {
            if at.number() < 0 {
                return &[];
            }
            rows_of(rows)
        }
    }
}

impl Loaded {
    ghost use Rattle.std.specs.Prelude.{◌≡◌};
    ghost use Rattle.pl_ops.specs.Placed as spec;

    /// Takes no memory.
    pub fn from_tables(tables: Items<Spread>) -> Loaded
        ensures { result ≡ tables }
    {
        Loaded { tables }
    }

    /// The rows of a table, which is named by its number from 0, at a segment. The dispatcher has none.
    pub fn rows(&self, table: u32, at: SegId) -> &[Row]
        ensures { result.now ≡ spec.rows_at self.now table at }
    {
        match self.tables.get(table as usize) {
            Some(spread) => spread_at(spread, at),
            None => &[],
        }
    }
}
