// A predicate over one row.
ghost use Rattle.std.specs.Prelude.{◌≡◌, map};
ghost use Rattle.ic_row.specs.Values.{column};
ghost use Rattle.pl_expr.specs.Truths.{all_of, any_of};
ghost use Rattle.pl_expr.specs.Comparing.{value_of, order_of, allows, compared};
ghost use Rattle.pl_expr.specs.Holding.{truth_of, keeps};
ghost use Rattle.pl_expr.specs.Seeing.{Sees, Orders, sees_nothing};

use crate::expr::{CompareOp, Expr, Operand};
use crate::truths::Truth;
use ic_row::{Row, Value};
use std::cmp::Ordering;

/// A value as a comparison sees it, with a text in place.
#[derive(Clone, Copy)]
enum Seen<'a> {
    Nothing,
    Number(i128),
    Letters(&'a str),
}

fn seen_value(value: &Value) -> Seen<'_>
    ensures { Sees result value.now }
{
    match value {
        Value::Null => Seen::Nothing,
        Value::Int(n) => Seen::Number(i128::from(*n)),
        Value::Wide(n) => Seen::Number(*n),
        Value::Chars(text) => Seen::Letters(text.as_str()),
    }
}

fn seen_column(row: &Row, place: u32) -> Seen<'_>
    ensures { Sees result (column row.now place) }
{
    match row.present(place) {
        Some(value) => seen_value(value),
        None => Seen::Nothing,
    }
}

fn seen_in<'a>(row: &'a Row, operand: &'a Operand) -> Seen<'a>
    ensures { Sees result (value_of row.now operand.now) }
{
    match operand {
        Operand::Col(place) => seen_column(row, *place),
        Operand::Int(n) => Seen::Number(i128::from(*n)),
        Operand::Chars(text) => Seen::Letters(text.as_str()),
        Operand::Null => Seen::Nothing,
    }
}

fn order(left: Seen<'_>, right: Seen<'_>) -> Option<Ordering>
    ensures { Orders left.entry right.entry result }
{
    match (left, right) {
        (Seen::Number(left), Seen::Number(right)) => Some(left.cmp(&right)),
        (Seen::Letters(left), Seen::Letters(right)) => Some(left.as_bytes().cmp(right.as_bytes())),
        _ => None,
    }
}

fn admits(op: CompareOp, order: Ordering) -> bool
    ensures { result ≡ allows op order }
{
    match op {
        CompareOp::Eq => order.is_eq(),
        CompareOp::Ne => order.is_ne(),
        CompareOp::Lt => order.is_lt(),
        CompareOp::Le => order.is_le(),
        CompareOp::Gt => order.is_gt(),
        CompareOp::Ge => order.is_ge(),
    }
}

fn comparison(op: CompareOp, order: Option<Ordering>) -> Truth
    ensures { result ≡ compared op order }
{
    match order {
        Some(order) => Truth::known(admits(op, order)),
        None => Truth::Unknown,
    }
}

fn is_nothing(operand: Seen<'_>) -> bool
    ensures { result ≡ sees_nothing operand.entry }
{
    matches!(operand, Seen::Nothing)
}

#[cycle(truth)]
fn all(parts: &[Expr], row: &Row) -> Truth
    ensures { result ≡ all_of (map (truth_of row.now) parts.now) }
{
    let mut so_far = Truth::True;
    for part in parts {
        so_far = so_far.and(truth_value(part, row));
    }
    so_far
}

#[cycle(truth)]
fn any(parts: &[Expr], row: &Row) -> Truth
    ensures { result ≡ any_of (map (truth_of row.now) parts.now) }
{
    let mut so_far = Truth::False;
    for part in parts {
        so_far = so_far.or(truth_value(part, row));
    }
    so_far
}

/// What the predicate is of a row. A column past the row's last is null. Walks the predicate once, and takes no memory.
#[cycle(truth)]
pub fn truth_value(expr: &Expr, row: &Row) -> Truth
    ensures { result ≡ truth_of row.now expr.now }
{
    match expr {
        Expr::Compare { op, left, right } => {
            comparison(*op, order(seen_in(row, left), seen_in(row, right)))
        }
        Expr::And(parts) => all(parts.as_slice(), row),
        Expr::Or(parts) => any(parts.as_slice(), row),
        Expr::Not(part) => truth_value(part.get(), row).negated(),
        Expr::IsNull(operand) => Truth::known(is_nothing(seen_in(row, operand))),
    }
}

/// Whether the predicate is true of a row, as a filter asks: unknown isn't true. A column past the row's last is null.
/// The row has the kinds that `types` accepted. Takes no memory.
pub fn holds(expr: &Expr, row: &Row) -> bool
    ensures { result ≡ keeps expr.now row.now }
{
    truth_value(expr, row).is_true()
}
