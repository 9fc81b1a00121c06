// The locus of a node.
ghost use Rattle.std.specs.Prelude.{◌≡◌, ◌+◌, ◌<◌, ◌^◌, length, IfOk};
ghost use Rattle.std.specs.List.{AllByRecursion};
ghost use Rattle.pl_tree.specs.declared.schema.Locus.TheVariants.{Hashed};
ghost use Rattle.pl_tree.specs.Places as places;
ghost use Rattle.pl_tree.specs.Loci as spec;
ghost use Rattle.pl_tree.specs.Within.{IsWithin};

use crate::node::Columns;
use crate::schema::{Locus, Placing};
use sqlite_items::Items;
use std::alloc::{AllocError, Global};

/// The first place of a column.
pub(crate) fn place_of(column: u32, columns: &[u32]) -> Option<u32>
    requires { length columns.now < 2 ^ 32 }
    ensures { result ≡ places.place_of column columns.now }
{
    let mut place = 0;
    for other in columns {
        if *other == column {
            return Some(place);
        }
        place += 1;
    }
    None
}

/// The first places of some columns, or `None` if one isn't there.
fn places_of(alloc: Global, wanted: &[u32], columns: &[u32]) -> Result<Option<Columns>, AllocError>
    requires { length columns.now < 2 ^ 32 }
    ensures { IfOk result (λ x. x ≡ places.places_of wanted.now columns.now) }
{
    let mut found = Items::new(alloc);
    for column in wanted {
        match place_of(*column, columns) {
            Some(place) => found.push(place)?,
            None => return Ok(None),
        }
    }
    Ok(Some(found))
}

/// Hashed by these columns.
pub fn hashed(alloc: Global, columns: &[u32]) -> Result<Locus, AllocError>
    ensures { IfOk result (λ x. x ≡ Hashed columns.now) }
{
    Ok(Locus::Hashed(Items::from_slice(alloc, columns)?))
}

/// The locus of a table.
pub fn placed(alloc: Global, place: &Placing) -> Result<Locus, AllocError>
    ensures { IfOk result (λ x. x ≡ spec.placed place.now) }
{
    match place {
        Placing::Keyed(columns) => hashed(alloc, columns.as_slice()),
        Placing::Dealt => Ok(Locus::Strewn),
        Placing::Everywhere => Ok(Locus::Replicated),
    }
}

/// The locus of rows once these columns of theirs are all that is left: a hashed locus goes along to the columns' first
/// places, unless one of its columns is dropped.
pub fn moved_to(alloc: Global, columns: &[u32], locus: &Locus) -> Result<Locus, AllocError>
    requires { length columns.now < 2 ^ 32 }
    ensures { IfOk result (λ x. x ≡ spec.moved_to columns.now locus.now) }
{
    match locus {
        Locus::Hashed(hashed) => match places_of(alloc, hashed.as_slice(), columns)? {
            Some(places) => Ok(Locus::Hashed(places)),
            None => Ok(Locus::Strewn),
        },
        Locus::Entry => Ok(Locus::Entry),
        Locus::Replicated => Ok(Locus::Replicated),
        Locus::Strewn => Ok(Locus::Strewn),
    }
}

fn behind(alloc: Global, width: u32, columns: &[u32]) -> Result<Columns, AllocError>
    requires { AllByRecursion (λ c. width + c < 2 ^ 32) columns.now }
    ensures { IfOk result (λ x. x ≡ spec.behind width columns.now) }
{
    let mut moved = Items::new(alloc);
    for column in columns {
        moved.push(width + *column)?;
    }
    Ok(moved)
}

/// The locus of a join whose left side has this many columns. Only a side that isn't replicated has a say.
pub fn joined_locus(
    alloc: Global,
    width: u32,
    left: &Locus,
    right: &Locus,
) -> Result<Locus, AllocError>
    requires { IsWithin (2 ^ 32) width right.now }
    ensures { IfOk result (λ x. x ≡ spec.joined_locus width left.now right.now) }
{
    match (left, right) {
        (Locus::Entry, Locus::Entry) => Ok(Locus::Entry),
        (Locus::Hashed(columns), Locus::Hashed(_)) => hashed(alloc, columns.as_slice()),
        (Locus::Hashed(columns), Locus::Replicated) => hashed(alloc, columns.as_slice()),
        (Locus::Replicated, Locus::Hashed(columns)) => {
            Ok(Locus::Hashed(behind(alloc, width, columns.as_slice())?))
        }
        (Locus::Replicated, Locus::Replicated) => Ok(Locus::Replicated),
        _ => Ok(Locus::Strewn),
    }
}
