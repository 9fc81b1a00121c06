ghost use Rattle.std.specs.Prelude.{◌≡◌, [], ◌∷◌, IfOk};
ghost use Rattle.pl_expr.specs.declared.expr.Operand.TheVariants.{Chars as chars_operand};
ghost use Rattle.pl_expr.specs.declared.expr.Expr.{Compare};

use super::*;
use ic_base::Text;
use ic_row::{Row, Value};
use sqlite_items::{Boxed, Items};
use std::alloc::{AllocError, Global};
use std::test::*;

fn letters(alloc: Global, words: &str) -> Result<Operand, AllocError>
    ensures { IfOk result (λ x. x ≡ chars_operand words.now) }
{
    let text = Text::from_string(String::from_str(alloc, words)?);
    Ok(Operand::Chars(text))
}

fn row_of(alloc: Global, value: Value) -> Result<Row, AllocError>
    ensures { IfOk result (λ row. row ≡ value ∷ []) }
{
    let mut values = Vec::new(alloc);
    values.push(value)?;
    Ok(Row::from_vec(values))
}

fn compare(op: CompareOp, left: Operand, right: Operand) -> Expr
    ensures { result ≡ Compare op left right }
{
    Expr::Compare { op, left, right }
}

fn two(alloc: Global, first: Expr, second: Expr) -> Result<Exprs, AllocError>
    ensures { IfOk result (λ parts. parts ≡ first ∷ second ∷ []) }
{
    let mut parts = Items::new(alloc);
    parts.push(first)?;
    parts.push(second)?;
    Ok(parts)
}

#[test]
fn a_null_is_neither_equal_nor_different(rt: HostRuntime) -> Result<(), Fail> {
    let same = compare(CompareOp::Eq, Operand::Col(0), Operand::Int(1));
    let other = Expr::Not(Boxed::new(rt.alloc(), same)?);
    let null = row_of(rt.alloc(), Value::Null)?;
    assert_eq!(rt; truth_value(&other, &null), Truth::Unknown);
    Ok(())
}

#[test]
fn the_three_truth_values_are_joined_as_in_sql(rt: HostRuntime) -> Result<(), Fail> {
    let all = [Truth::False, Truth::Unknown, Truth::True];
    let ands = [
        [Truth::False, Truth::False, Truth::False],
        [Truth::False, Truth::Unknown, Truth::Unknown],
        [Truth::False, Truth::Unknown, Truth::True],
    ];
    let ors = [
        [Truth::False, Truth::Unknown, Truth::True],
        [Truth::Unknown, Truth::Unknown, Truth::True],
        [Truth::True, Truth::True, Truth::True],
    ];
    assert_eq!(rt; all.map(|a| all.map(|b| a.and(b))), ands);
    assert_eq!(rt; all.map(|a| all.map(|b| a.or(b))), ors);
    Ok(())
}

#[test]
fn each_comparison_is_true_of_its_orders(rt: HostRuntime) -> Result<(), Fail> {
    let table = [
        (CompareOp::Eq, [false, true, false]),
        (CompareOp::Ne, [true, false, true]),
        (CompareOp::Lt, [true, false, false]),
        (CompareOp::Le, [true, true, false]),
        (CompareOp::Gt, [false, false, true]),
        (CompareOp::Ge, [false, true, true]),
    ];
    let five = row_of(rt.alloc(), Value::Wide(5))?;
    for (op, wanted) in table {
        let told = [4, 5, 6].map(|n| holds(&compare(op, Operand::Int(n), Operand::Col(0)), &five));
        assert_eq!(rt; told, wanted, "{op:?}");
    }
    Ok(())
}

#[test]
fn a_copy_is_as_large_as_what_it_copies(rt: HostRuntime) -> Result<(), Fail> {
    let same = compare(CompareOp::Eq, Operand::Col(0), letters(rt.alloc(), "x")?);
    let either = Expr::Or(two(rt.alloc(), Expr::IsNull(Operand::Null), same)?);
    let again = either.copy(rt.alloc())?;
    assert_eq!(rt; again.size(), 6);
    Ok(())
}
