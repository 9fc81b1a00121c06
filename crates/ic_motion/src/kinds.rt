// Whether rows have the kinds that a motion's columns have.
ghost use Rattle.std.specs.Prelude.{◌≡◌};
ghost use Rattle.std.specs.List.{list_all};
ghost use Rattle.ic_motion.specs.Feeding.{of_kind, has_kinds};

use ic_row::{Kind, Row, Value};

fn of_kind(kind: Kind, value: &Value) -> bool
    ensures { result ≡ of_kind kind value.now }
{
    match (kind, value) {
        (_, Value::Null)
        | (Kind::Int, Value::Int(_))
        | (Kind::Wide, Value::Wide(_))
        | (Kind::Chars, Value::Chars(_)) => true,
        _ => false,
    }
}

fn values_have(kinds: &[Kind], values: &[Value]) -> bool
    ensures { result ≡ has_kinds kinds.now values.now }
{
    match (kinds.split_first(), values.split_first()) {
        (None, None) => true,
        (Some((kind, kinds)), Some((value, values))) => {
            of_kind(*kind, value) && values_have(kinds, values)
        }
        _ => false,
    }
}

/// Whether each row has a value of its kind for each column, or null.
pub(crate) fn rows_have(kinds: &[Kind], rows: &[Row]) -> bool
    ensures { result ≡ list_all (has_kinds kinds.now) rows.now }
{
    for row in rows {
        if !values_have(kinds, row.as_slice()) {
            return false;
        }
    }
    true
}
