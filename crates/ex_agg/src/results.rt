// The results of the calls of one group.
ghost use Rattle.std.specs.Prelude.{◌≡◌, ◌+◌, ◌<◌, ◌^◌, List, length, map, get_or, slice_set, IfOk, IfErr, OnOk};
ghost use Rattle.std.specs.Option.{unwrap_or};
ghost use Rattle.ic_row.specs.declared.value.Value.TheVariants.{Null, Int};
ghost use Rattle.ic_row.specs.Values.{column};
ghost use Rattle.pl_tree.specs.declared.node.Call.TheVariants.{CountOf};
ghost use Rattle.pl_ops.specs.declared.words.OpNo.TheVariants.{Overflow};
ghost use Rattle.pl_ops.specs.Groups.{joined_value, value_of_none, widened, brought};
ghost use Rattle.pl_ops.specs.Overflow.{HasRoom};
ghost use Rattle.ex_agg.specs.Calls.{HaveRoom, brought_at, renewed, RenewsAt, IsOverAt};

use crate::values::joined;
use ic_row::{Row, Value};
use pl_ops::OpNo;
use pl_tree::Call;
use sqlite_items::Items;
use std::alloc::{AllocError, Global};

fn joined_to_column(
    alloc: Global,
    call: Call,
    a: &Value,
    row: &Row,
    place: u32,
) -> Result<Option<Value>, OpNo>
    ensures ok { IfOk result (λ v. unwrap_or v a.now ≡ joined_value call a.now (column row.now place)) }
    ensures room { OnOk result (HasRoom (joined_value call a.now (column row.now place))) }
    ensures over { IfErr result (λ no. no ≡ Overflow → HasRoom (joined_value call a.now (column row.now place)) → ⊥) }
{
    match row.present(place) {
        Some(b) => joined(alloc, call, a, b),
        None => joined(alloc, call, a, &Value::Null),
    }
}

fn joined_to_number(
    alloc: Global,
    call: Call,
    a: &Value,
    row: &Row,
    place: u32,
) -> Result<Option<Value>, OpNo>
    ensures ok { IfOk result (λ v. unwrap_or v a.now ≡ joined_value call a.now (widened (column row.now place))) }
    ensures room { OnOk result (HasRoom (joined_value call a.now (widened (column row.now place)))) }
    ensures over { IfErr result (λ no. no ≡ Overflow → HasRoom (joined_value call a.now (widened (column row.now place))) → ⊥) }
{
    match row.present(place) {
        Some(Value::Int(n)) => joined(alloc, call, a, &Value::Wide(i128::from(*n))),
        Some(b) => joined(alloc, call, a, b),
        None => joined(alloc, call, a, &Value::Null),
    }
}

#[tactic(auto, unfolding(pl_ops::specs::Groups::brought))]
fn presence(row: &Row, place: u32) -> i64
    ensures { Int result ≡ brought (CountOf place) row.now }
{
    if row.present(place).is_some() { 1 } else { 0 }
}

#[tactic(auto, unfolding(pl_ops::specs::Groups::brought))]
fn joined_to_row(alloc: Global, call: Call, a: &Value, row: &Row) -> Result<Option<Value>, OpNo>
    ensures ok { IfOk result (λ v. unwrap_or v a.now ≡ joined_value call a.now (brought call row.now)) }
    ensures room { OnOk result (HasRoom (joined_value call a.now (brought call row.now))) }
    ensures over { IfErr result (λ no. no ≡ Overflow → HasRoom (joined_value call a.now (brought call row.now)) → ⊥) }
{
    match call {
        Call::Count => joined(alloc, call, a, &Value::Int(1)),
        Call::CountOf(place) => joined(alloc, call, a, &Value::Int(presence(row, place))),
        Call::Sum(place) => joined_to_number(alloc, call, a, row, place),
        Call::Min(place) => joined_to_column(alloc, call, a, row, place),
        Call::Max(place) => joined_to_column(alloc, call, a, row, place),
    }
}

fn next_result(
    alloc: Global,
    is_final: bool,
    place: u32,
    call: Call,
    a: &Value,
    row: &Row,
) -> Result<Option<Value>, OpNo>
    ensures ok { IfOk result (λ v. unwrap_or v a.now ≡ joined_value call a.now (brought_at is_final place call row.now)) }
    ensures room { OnOk result (HasRoom (joined_value call a.now (brought_at is_final place call row.now))) }
    ensures over { IfErr result (λ no. no ≡ Overflow → HasRoom (joined_value call a.now (brought_at is_final place call row.now)) → ⊥) }
{
    if is_final {
        joined_to_column(alloc, call, a, row, place)
    } else {
        joined_to_row(alloc, call, a, row)
    }
}

/// Adds a row to one result.
fn renew_at(
    alloc: Global,
    is_final: bool,
    place: u32,
    call: Call,
    values: &mut Items<Value>,
    i: usize,
    row: &Row,
) -> Result<(), OpNo>
    ensures ok { OnOk result (RenewsAt is_final place call values.old i row.now values.new) }
    ensures over { IfErr result (λ no. no ≡ Overflow → IsOverAt is_final place call values.old i row.now) }
{
    match values.get(i) {
        Some(a) => {
            if let Some(value) = next_result(alloc, is_final, place, call, a, row)? {
                values.set(i, value);
            }
            Ok(())
        }
        None => Ok(()),
    }
}

/// Adds a row to the results of its group.
pub(crate) fn renew(
    alloc: Global,
    is_final: bool,
    first: u32,
    calls: &[Call],
    values: &mut Items<Value>,
    row: &Row,
) -> Result<(), OpNo>
    requires { first + length calls.now < 2 ^ 32 }
    ensures ok { OnOk result (values.new ≡ renewed is_final first calls.now values.old row.now) }
    ensures room { OnOk result (HaveRoom calls.now (renewed is_final first calls.now values.old row.now)) }
    ensures over { IfErr result (λ no. no ≡ Overflow → HaveRoom calls.now (renewed is_final first calls.now values.old row.now) → ⊥) }
{
    for i in 0..calls.len() {
        renew_at(alloc, is_final, first + i as u32, calls[i], values, i, row)?;
    }
    Ok(())
}

#[tactic(auto, unfolding(pl_ops::specs::Groups::value_of_none))]
fn none_of(call: Call) -> Value
    ensures { result ≡ value_of_none call }
{
    match call {
        Call::Count => Value::Int(0),
        Call::CountOf(_) => Value::Int(0),
        _ => Value::Null,
    }
}

/// What the calls give over nothing.
pub(crate) fn nothing(alloc: Global, calls: &[Call]) -> Result<Items<Value>, AllocError>
    ensures { IfOk result (λ values. values ≡ map value_of_none calls.now) }
{
    let mut values = Vec::with_capacity(alloc, calls.len())?;
    for call in calls {
        values.push(none_of(*call))?;
    }
    Ok(Items::from_vec(values))
}
