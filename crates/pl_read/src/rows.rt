// The rows of a table.
ghost use Rattle.std.specs.Prelude.{◌≡◌, length};
ghost use Rattle.serde_json.specs.View.{view, items_view};
ghost use Rattle.pl_read.specs.Paths.{path_of};
ghost use Rattle.pl_read.specs.Faults.{Gives};
ghost use Rattle.pl_read.specs.Rows as spec;

use crate::expr::integer_in;
use crate::fault::{DocNo, Flaw};
use crate::place::Place;
use crate::value::array_of;
use ic_base::Text;
use ic_row::{Kind, Row, Rows, Value as Datum};
use serde_json::Value;
use std::alloc::Global;

// A text is moved and not copied.
fn datum_of(alloc: Global, place: Place<'_>, value: Value, kind: Kind) -> Result<Datum, DocNo>
    ensures { Gives (λ x. x) result (spec.datum_at kind (path_of place.entry) (view value)) }
{
    match (kind, value) {
        (_, Value::Null) => Ok(Datum::Null),
        (Kind::Int, Value::Number(number)) => Ok(Datum::Int(integer_in(alloc, place, &number)?)),
        (Kind::Chars, Value::String(text)) => Ok(Datum::Chars(Text::from_string(text))),
        _ => Err(place.no(alloc, Flaw::Kind)),
    }
}

// The values of a row that has one for each column.
fn data_of(
    alloc: Global,
    place: Place<'_>,
    values: Vec<Value>,
    kinds: &[Kind],
) -> Result<Row, DocNo>
    requires { length values.items ≡ length kinds.now }
    ensures { Gives (λ x. x) result (spec.data_from kinds.now (path_of place.entry) 0 (items_view values.items)) }
{
    let mut row = Vec::with_capacity(alloc, values.len())?;
    let mut left = values.into_iter();
    let mut at = 0;
    'values: while let Some(value) = left.next() {
        row.push(datum_of(alloc, place.item(at), value, kinds[at])?)?;
        at += 1;
    }
    Ok(Row::from_vec(row))
}

#[tactic(auto, using(crate::proofs::NumberLemmas::length_of_items))]
fn row_of(alloc: Global, place: Place<'_>, value: Value, kinds: &[Kind]) -> Result<Row, DocNo>
    ensures { Gives (λ x. x) result (spec.row_at kinds.now (path_of place.entry) (view value)) }
{
    match array_of(value) {
        Some(values) if values.len() == kinds.len() => data_of(alloc, place, values, kinds),
        Some(_) => Err(place.no(alloc, Flaw::Width)),
        None => Err(place.no(alloc, Flaw::Kind)),
    }
}

fn rows_from(
    alloc: Global,
    place: Place<'_>,
    values: Vec<Value>,
    kinds: &[Kind],
) -> Result<Rows, DocNo>
    ensures { Gives (λ x. x) result (spec.rows_from kinds.now (path_of place.entry) (items_view values.items)) }
{
    let mut rows = Vec::with_capacity(alloc, values.len())?;
    let mut left = values.into_iter();
    let mut at = 0;
    'rows: while let Some(value) = left.next() {
        rows.push(row_of(alloc, place.item(at), value, kinds)?)?;
        at += 1;
    }
    Ok(Rows::from_vec(rows))
}

/// An array of rows, each as wide as there are columns, and each value of its column's kind or null. Makes each row
/// once, and frees its value of JSON then; texts are moved.
pub(crate) fn rows_of(
    alloc: Global,
    place: Place<'_>,
    value: Value,
    kinds: &[Kind],
) -> Result<Rows, DocNo>
    ensures { Gives (λ x. x) result (spec.rows_at kinds.now (path_of place.entry) (view value)) }
{
    match array_of(value) {
        Some(values) => rows_from(alloc, place, values, kinds),
        None => Err(place.no(alloc, Flaw::Kind)),
    }
}
