// The order of rows by keys.
ghost use Rattle.std.specs.Prelude.{◌≡◌, ◌↔◌};
ghost use Rattle.ic_row.specs.Values.{column};
ghost use Rattle.ic_row.specs.Order.{rank_of, value_cmp, directed, column_cmp, key_cmp, compare_by};

use crate::row::Row;
use crate::value::Value;
use std::cmp::Ordering;

/// A sort key: a column by its position from 0, and whether the greatest value comes first (SQL's `desc`).
#[derive(Clone, Copy, Debug, PartialEq, Eq)]
pub struct Key {
    pub column: u32,
    pub down: bool,
}

fn rank(value: &Value) -> u8
    ensures { result ≡ rank_of value.now }
{
    match value {
        Value::Int(_) => 0,
        Value::Wide(_) => 1,
        Value::Chars(_) => 2,
        Value::Null => 3,
    }
}

fn order_of(a: &Value, b: &Value) -> Ordering
    ensures { result ≡ value_cmp a.now b.now }
{
    match (a, b) {
        (Value::Int(a), Value::Int(b)) => a.cmp(b),
        (Value::Wide(a), Value::Wide(b)) => a.cmp(b),
        (Value::Chars(a), Value::Chars(b)) => a.as_str().as_bytes().cmp(b.as_str().as_bytes()),
        _ => rank(a).cmp(&rank(b)),
    }
}

/// Orders two values: numbers by size, texts by bytes, null last. A column never mixes kinds, but the order is defined
/// for them too: ints before wides before texts. Takes no memory.
pub fn compare_values(a: &Value, b: &Value) -> Ordering
    ensures value { result ≡ value_cmp a.now b.now }
    // Equal only if kind and content are the same.
    ensures same { (result ≡ Ordering.Equal) ↔ (a.now ≡ b.now) }
{
    order_of(a, b)
}

fn in_direction(down: bool, order: Ordering) -> Ordering
    ensures { result ≡ directed down order }
{
    if down { order.reverse() } else { order }
}

#[tactic(auto, using(crate::proofs::OrderLemmas::both_present, crate::proofs::OrderLemmas::null_after, crate::proofs::OrderLemmas::null_before))]
fn compare_by_key(key: &Key, a: &Row, b: &Row) -> Ordering
    ensures { result ≡ key_cmp key.now a.now b.now }
{
    match (a.present(key.column), b.present(key.column)) {
        (Some(a), Some(b)) => in_direction(key.down, order_of(a, b)),
        (Some(_), None) => Ordering::Less,
        (None, Some(_)) => Ordering::Greater,
        (None, None) => Ordering::Equal,
    }
}

/// Orders two rows by the first key in which they differ. Null is last in both directions; texts are ordered by bytes.
/// With no keys all rows are equal. A column past the last one counts as null. Takes no memory.
pub fn compare(keys: &[Key], a: &Row, b: &Row) -> Ordering
    ensures { result ≡ compare_by keys.now a.now b.now }
{
    for key in keys {
        match compare_by_key(key, a, b) {
            Ordering::Equal => continue,
            order => return order,
        }
    }
    Ordering::Equal
}
