// Two values of a call, joined to one.
ghost use Rattle.std.specs.Prelude.{◌≡◌, ◌+ℤ◌, false, IfOk, IfErr, OnOk};
ghost use Rattle.std.specs.Option.{unwrap_or};
ghost use Rattle.std.specs.Int.{w64, w128};
ghost use Rattle.std.specs.Int.RustNames.{FitsSigned};
ghost use Rattle.ic_row.specs.declared.value.Value.TheVariants.{Int, Wide};
ghost use Rattle.ic_row.specs.Values.{is_null};
ghost use Rattle.pl_ops.specs.declared.words.OpNo.TheVariants.{Overflow};
ghost use Rattle.pl_ops.specs.Groups.{number_in, absent_or, lesser, greater, joined_value};
ghost use Rattle.pl_ops.specs.Overflow.{HasRoom};
ghost use Rattle.ex_agg.specs.Calls.{wide_sum};

use ic_row::{Value, compare_values};
use pl_ops::OpNo;
use pl_tree::Call;
use std::alloc::Global;

/// The number in a value, and 0 in a null or a text.
fn number(value: &Value) -> i128
    ensures value { result ≡ number_in value.now }
    ensures room { HasRoom value.now }
{
    match value {
        Value::Int(n) => i128::from(*n),
        Value::Wide(n) => *n,
        _ => 0,
    }
}

/// The sum of two counts.
fn count_of(a: &Value, b: &Value) -> Result<Value, OpNo>
    ensures ok { IfOk result (λ v. v ≡ Int (number_in a.now +ℤ number_in b.now)) }
    ensures room { IfOk result (λ v. FitsSigned w64 (number_in a.now +ℤ number_in b.now)) }
    ensures over { IfErr result (λ no. FitsSigned w64 (number_in a.now +ℤ number_in b.now) → ⊥) }
{
    let Some(n) = number(a).checked_add(number(b)) else {
        return Err(OpNo::Overflow);
    };
    match i64::try_from(n) {
        Ok(n) => Ok(Value::Int(n)),
        Err(_) => Err(OpNo::Overflow),
    }
}

/// The sum of two sums.
fn sum_of(a: &Value, b: &Value) -> Result<Value, OpNo>
    ensures ok { IfOk result (λ v. v ≡ Wide (number_in a.now +ℤ number_in b.now)) }
    ensures room { IfOk result (λ v. FitsSigned w128 (number_in a.now +ℤ number_in b.now)) }
    ensures over { IfErr result (λ no. FitsSigned w128 (number_in a.now +ℤ number_in b.now) → ⊥) }
{
    match number(a).checked_add(number(b)) {
        Some(n) => Ok(Value::Wide(n)),
        None => Err(OpNo::Overflow),
    }
}

/// A sum after another was added, and `None` if it stays.
#[tactic(auto, using(crate::proofs::Joined::absent_right, crate::proofs::Joined::absent_left, crate::proofs::Joined::both_there))]
fn added(alloc: Global, a: &Value, b: &Value) -> Result<Option<Value>, OpNo>
    ensures ok { IfOk result (λ v. unwrap_or v a.now ≡ absent_or wide_sum a.now b.now) }
    ensures room { OnOk result (HasRoom (absent_or wide_sum a.now b.now)) }
    ensures over { IfErr result (λ no. no ≡ Overflow → HasRoom (absent_or wide_sum a.now b.now) → ⊥) }
{
    // reading the numbers shows that both have room
    let _numbers = (number(a), number(b));
    if b.is_null() {
        return Ok(None);
    }
    if a.is_null() {
        return Ok(Some(b.copy(alloc)?));
    }
    Ok(Some(sum_of(a, b)?))
}

/// The lesser of two values, and `None` if it is the first. Null is absent.
#[tactic(auto, using(crate::proofs::Joined::absent_right, crate::proofs::Joined::absent_left, crate::proofs::Joined::both_there, crate::proofs::Joined::lesser_has_room))]
fn least(alloc: Global, a: &Value, b: &Value) -> Result<Option<Value>, OpNo>
    ensures ok { IfOk result (λ v. unwrap_or v a.now ≡ absent_or lesser a.now b.now) }
    ensures room { HasRoom (absent_or lesser a.now b.now) }
    ensures over { IfErr result (λ no. no ≡ Overflow → ⊥) }
{
    let _numbers = (number(a), number(b));
    if b.is_null() {
        return Ok(None);
    }
    if a.is_null() || compare_values(b, a).is_lt() {
        return Ok(Some(b.copy(alloc)?));
    }
    Ok(None)
}

/// The greater of two values, and `None` if it is the first. Null is absent.
#[tactic(auto, using(crate::proofs::Joined::absent_right, crate::proofs::Joined::absent_left, crate::proofs::Joined::both_there, crate::proofs::Joined::greater_has_room))]
fn greatest(alloc: Global, a: &Value, b: &Value) -> Result<Option<Value>, OpNo>
    ensures ok { IfOk result (λ v. unwrap_or v a.now ≡ absent_or greater a.now b.now) }
    ensures room { HasRoom (absent_or greater a.now b.now) }
    ensures over { IfErr result (λ no. no ≡ Overflow → ⊥) }
{
    let _numbers = (number(a), number(b));
    if b.is_null() {
        return Ok(None);
    }
    if a.is_null() || compare_values(a, b).is_lt() {
        return Ok(Some(b.copy(alloc)?));
    }
    Ok(None)
}

/// A call's result after a value was joined to it, and `None` if it stays. A value is copied only if it becomes the result.
#[tactic(auto, unfolding(pl_ops::specs::Groups::joined_value))]
pub(crate) fn joined(alloc: Global, call: Call, a: &Value, b: &Value) -> Result<Option<Value>, OpNo>
    ensures ok { IfOk result (λ v. unwrap_or v a.now ≡ joined_value call a.now b.now) }
    ensures room { OnOk result (HasRoom (joined_value call a.now b.now)) }
    ensures over { IfErr result (λ no. no ≡ Overflow → HasRoom (joined_value call a.now b.now) → ⊥) }
{
    match call {
        Call::Count => Ok(Some(count_of(a, b)?)),
        Call::CountOf(_) => Ok(Some(count_of(a, b)?)),
        Call::Sum(_) => added(alloc, a, b),
        Call::Min(_) => least(alloc, a, b),
        Call::Max(_) => greatest(alloc, a, b),
    }
}
