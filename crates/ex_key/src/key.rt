// The key of a row.
ghost use Rattle.std.specs.Prelude.{◌≡◌, [], List, IfOk, fold};
ghost use Rattle.std.specs.List.{list_any, flat_map, AllByRecursion};
ghost use Rattle.ic_row.specs.Values.{column, is_null, key_of};
ghost use Rattle.pl_ops.specs.Rows.{same_value};
ghost use Rattle.pl_ops.specs.Groups.{same_line};
ghost use Rattle.pl_ops.specs.Overflow.{HasRoom};
ghost use Rattle.ex_key.specs.Hashing.{value_writes, line_writes};

use ic_row::{Row, Value, compare_values};
use std::alloc::{AllocError, Global};
use std::hash::{Hash, Hasher};
use std::marker::Model;

/// The values of some columns of a row, seen as their list. It owns copies of them.
#[derive(Drop, Debug)]
pub struct RowKey {
    values: Vec<Value>,
}

impl Model for RowKey {
    ghost use Rattle.std.specs.Prelude.{List};
    ghost use Rattle.ic_row.specs.Values.{Datum};

    ghost Value = { List Datum };

    ghost view = { λ k. k.values.items };
}

fn value_of(alloc: Global, row: &Row, place: u32) -> Result<Value, AllocError>
    ensures value { IfOk result (λ v. v ≡ column row.now place) }
    ensures room { IfOk result (λ v. HasRoom v) }
{
    match row.present(place) {
        Some(value) => value.copy(alloc),
        None => Ok(Value::Null),
    }
}

impl RowKey {
    /// The key of no columns. Takes no memory.
    pub fn empty(alloc: Global) -> RowKey
        ensures { result ≡ [] }
    {
        RowKey {
            values: Vec::new(alloc),
        }
    }

    /// The key of a row by these columns, in their order. A column past the row's last counts as null. Copies each value
    /// once; only a text takes more memory than its place in the key.
    #[tactic(auto, using(crate::proofs::Room::one_more))]
    pub fn of(alloc: Global, columns: &[u32], row: &Row) -> Result<RowKey, AllocError>
        ensures value { IfOk result (λ k. k ≡ key_of columns.now row.now) }
        ensures room { IfOk result (λ k. AllByRecursion HasRoom k) }
    {
        let mut values = Vec::with_capacity(alloc, columns.len())?;
        for place in columns {
            values.push(value_of(alloc, row, *place)?)?;
        }
        Ok(RowKey { values })
    }

    pub fn as_slice(&self) -> &[Value]
        ensures { result.now ≡ self.now }
    {
        self.values.as_slice()
    }

    /// Whether some value is null. A join matches no such key.
    pub fn has_null(&self) -> bool
        ensures { result ≡ list_any is_null self.now }
    {
        for value in self.as_slice() {
            if value.is_null() {
                return true;
            }
        }
        false
    }
}

fn is_same(a: &Value, b: &Value) -> bool
    ensures { result ≡ same_value a.now b.now }
{
    compare_values(a, b).is_eq()
}

fn are_same(a: &[Value], b: &[Value]) -> bool
    ensures { result ≡ same_line a.now b.now }
{
    if a.len() != b.len() {
        return false;
    }
    for i in 0..a.len() {
        if !is_same(&a[i], &b[i]) {
            return false;
        }
    }
    true
}

impl PartialEq for RowKey {
    ghost use Rattle.pl_ops.specs.Groups.{same_line};
    ghost use Rattle.std.specs.Cmp.{partial_equiv_from_equiv};
    ghost use Rattle.ex_key.specs.Same.{same_line-equiv};

    ghost eq = { same_line };

    ghost laws = { partial_equiv_from_equiv same_line-equiv };

    fn eq(&self, other: &RowKey) -> bool {
        are_same(self.as_slice(), other.as_slice())
    }
}

impl Eq for RowKey {
    ghost use Rattle.ex_key.specs.Same.{same_line-equiv};

    ghost laws = { same_line-equiv };
}

fn hash_value<H: Hasher>(value: &Value, state: &mut H)
    ensures { state.new ≡ fold H.write state.old (value_writes value.now) }
{
    match value {
        Value::Null => state.write_u8(0),
        Value::Int(n) => state.write_i64(*n),
        Value::Wide(n) => state.write_i128(*n),
        Value::Chars(text) => text.as_str().hash(state),
    }
}

impl Hash for RowKey {
    ghost use Rattle.ex_key.specs.Hashing.{line_writes};
    ghost use Rattle.ex_key.specs.Same.{same_writes};

    ghost hash_input = { line_writes };

    ghost respects_eq = { same_writes };

    fn hash<H: Hasher>(&self, state: &mut H) {
        for value in self.as_slice() {
            hash_value(value, state);
        }
    }
}
