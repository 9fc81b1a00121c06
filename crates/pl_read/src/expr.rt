// Predicates.
ghost use Rattle.std.specs.Prelude.{◌≡◌};
ghost use Rattle.serde_json.specs.View.{view, number_view, items_view, members_view};
ghost use Rattle.pl_read.specs.Paths.{path_of};
ghost use Rattle.pl_read.specs.Faults.{Gives};
ghost use Rattle.pl_read.specs.Exprs as spec;

use crate::fault::{DocNo, Flaw};
use crate::member::{object_at, only, required};
use crate::place::Place;
use crate::value::{position_at, text_at};
use ic_base::Text;
use pl_expr::{CompareOp, Expr, Exprs, Operand};
use serde_json::{Number, Value};
use sqlite_items::{Boxed, Items};
use std::alloc::Global;

/// What an expression does, by the word in front of it.
#[derive(Clone, Copy, Debug, PartialEq, Eq)]
pub(crate) enum Operator {
    Compare(CompareOp),
    And,
    Or,
    Not,
    IsNull,
}

fn operator_at(alloc: Global, place: Place<'_>, value: &Value) -> Result<Operator, DocNo>
    ensures { Gives (λ x. x) result (spec.operator_at (path_of place.entry) (view value.now)) }
{
    match text_at(alloc, place, value)? {
        "=" => Ok(Operator::Compare(CompareOp::Eq)),
        "<>" => Ok(Operator::Compare(CompareOp::Ne)),
        "<" => Ok(Operator::Compare(CompareOp::Lt)),
        "<=" => Ok(Operator::Compare(CompareOp::Le)),
        ">" => Ok(Operator::Compare(CompareOp::Gt)),
        ">=" => Ok(Operator::Compare(CompareOp::Ge)),
        "and" => Ok(Operator::And),
        "or" => Ok(Operator::Or),
        "not" => Ok(Operator::Not),
        "null" => Ok(Operator::IsNull),
        _ => Err(place.no(alloc, Flaw::Kind)),
    }
}

/// A whole number of 64 bits with its sign.
pub(crate) fn integer_in(alloc: Global, place: Place<'_>, number: &Number) -> Result<i64, DocNo>
    ensures { Gives (λ n. n) result (spec.integer_in (path_of place.entry) (number_view number.now)) }
{
    match number.as_i64() {
        Some(n) => Ok(n),
        None => {
            if number.is_f64() {
                Err(place.no(alloc, Flaw::Kind))
            } else {
                Err(place.no(alloc, Flaw::Range))
            }
        }
    }
}

fn column_at(alloc: Global, place: Place<'_>, value: &Value) -> Result<u32, DocNo>
    ensures { Gives (λ n. n) result (spec.column_at (path_of place.entry) (view value.now)) }
{
    let members = object_at(alloc, place, value)?;
    only(alloc, place, members, &["col"])?;
    let column = required(alloc, place, value, "col")?;
    position_at(alloc, place.member("col"), column)
}

fn operand_at(alloc: Global, place: Place<'_>, value: &Value) -> Result<Operand, DocNo>
    ensures { Gives (λ x. x) result (spec.operand_at (path_of place.entry) (view value.now)) }
{
    match value {
        Value::Null => Ok(Operand::Null),
        Value::Number(number) => Ok(Operand::Int(integer_in(alloc, place, number)?)),
        Value::String(text) => {
            let text = String::from_str(alloc, text.as_str())?;
            Ok(Operand::Chars(Text::from_string(text)))
        }
        Value::Object(_) => Ok(Operand::Col(column_at(alloc, place, value)?)),
        Value::Bool(_) | Value::Array(_) => Err(place.no(alloc, Flaw::Kind)),
    }
}

#[tactic(auto, using(crate::proofs::ExprLemmas::compared_none))]
fn compared_at(
    alloc: Global,
    place: Place<'_>,
    op: CompareOp,
    parts: &[Value],
) -> Result<Expr, DocNo>
    ensures { Gives (λ x. x) result (spec.compared_at op (path_of place.entry) (items_view parts.now)) }
{
    let [left, right] = parts else {
        return Err(place.no(alloc, Flaw::Range));
    };
    Ok(Expr::Compare {
        op,
        left: operand_at(alloc, place.item(1), left)?,
        right: operand_at(alloc, place.item(2), right)?,
    })
}

#[tactic(auto, using(crate::proofs::ExprLemmas::tested_none))]
fn tested_at(alloc: Global, place: Place<'_>, parts: &[Value]) -> Result<Expr, DocNo>
    ensures { Gives (λ x. x) result (spec.tested_at (path_of place.entry) (items_view parts.now)) }
{
    let [operand] = parts else {
        return Err(place.no(alloc, Flaw::Range));
    };
    Ok(Expr::IsNull(operand_at(alloc, place.item(1), operand)?))
}

#[cycle(expr)]
#[tactic(auto, using(crate::proofs::ExprLemmas::one_none))]
fn one_at(alloc: Global, place: Place<'_>, parts: &[Value]) -> Result<Expr, DocNo>
    ensures { Gives (λ x. x) result (spec.one_at (path_of place.entry) (items_view parts.now)) }
{
    let [part] = parts else {
        return Err(place.no(alloc, Flaw::Range));
    };
    expr_at(alloc, place.item(1), part)
}

// The parts after the word.
#[cycle(expr)]
fn parts_at(alloc: Global, place: Place<'_>, parts: &[Value]) -> Result<Exprs, DocNo>
    ensures { Gives (λ x. x) result (spec.parts_from (path_of place.entry) 1 (items_view parts.now)) }
{
    let mut exprs = Items::new(alloc);
    for (at, part) in parts.iter().enumerate() {
        exprs.push(expr_at(alloc, place.item(at + 1), part)?)?;
    }
    Ok(exprs)
}

#[cycle(expr)]
fn some_at(alloc: Global, place: Place<'_>, parts: &[Value]) -> Result<Exprs, DocNo>
    ensures { Gives (λ x. x) result (spec.some_at (path_of place.entry) (items_view parts.now)) }
{
    if parts.is_empty() {
        return Err(place.no(alloc, Flaw::Range));
    }
    parts_at(alloc, place, parts)
}

#[cycle(expr)]
fn applied_at(
    alloc: Global,
    place: Place<'_>,
    operator: Operator,
    parts: &[Value],
) -> Result<Expr, DocNo>
    ensures { Gives (λ x. x) result (spec.applied_at operator (path_of place.entry) (items_view parts.now)) }
{
    match operator {
        Operator::Compare(op) => compared_at(alloc, place, op, parts),
        Operator::And => Ok(Expr::And(some_at(alloc, place, parts)?)),
        Operator::Or => Ok(Expr::Or(some_at(alloc, place, parts)?)),
        Operator::Not => {
            let part = one_at(alloc, place, parts)?;
            Ok(Expr::Not(Boxed::new(alloc, part)?))
        }
        Operator::IsNull => tested_at(alloc, place, parts),
    }
}

/// An expression: its word, and then the parts that go with it.
#[cycle(expr)]
pub(crate) fn expr_at(alloc: Global, place: Place<'_>, value: &Value) -> Result<Expr, DocNo>
    ensures { Gives (λ x. x) result (spec.expr_at (path_of place.entry) (view value.now)) }
{
    let Value::Array(items) = value else {
        return Err(place.no(alloc, Flaw::Kind));
    };
    let Some((word, parts)) = items.as_slice().split_first() else {
        return Err(place.no(alloc, Flaw::Range));
    };
    let operator = operator_at(alloc, place.item(0), word)?;
    applied_at(alloc, place, operator, parts)
}
