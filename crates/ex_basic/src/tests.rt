ghost use Rattle.std.specs.Prelude.{◌≡◌, IfOk};

use super::*;
use ic_row::{Key, Row, Value};
use pl_expr::{CompareOp, Expr, Operand};
use pl_ops::{Next, OpNo};
use pl_tree::{Columns, Keys};
use sqlite_items::Items;
use std::alloc::{AllocError, Global};
use std::test::*;

fn datum(number: Option<i64>) -> Value {
    match number {
        Some(n) => Value::Int(n),
        None => Value::Null,
    }
}

fn line(alloc: Global, numbers: &[Option<i64>]) -> Result<Row, AllocError> {
    let mut values = Vec::new(alloc);
    for number in numbers {
        values.push(datum(*number))?;
    }
    Ok(Row::from_vec(values))
}

fn number(value: &Value) -> Option<i64> {
    match value {
        Value::Int(n) => Some(*n),
        _ => None,
    }
}

/// The numbers of the row that was answered, or none if it was no row.
fn numbers(alloc: Global, next: Next) -> Result<Vec<Option<i64>>, AllocError> {
    let mut all = Vec::new(alloc);
    if let Next::Row(row) = next {
        for value in row.as_slice() {
            all.push(number(value))?;
        }
    }
    Ok(all)
}

fn filtered(alloc: Global, filter: &mut Filter, row: Row) -> Result<Next, OpNo> {
    if let Next::Wants(side) = filter.next(alloc)? {
        filter.give(alloc, side, row)?;
    }
    filter.next(alloc)
}

fn limited(alloc: Global, limit: &mut Limit, row: Row) -> Result<Next, OpNo> {
    if let Next::Wants(side) = limit.next(alloc)? {
        limit.give(alloc, side, row)?;
    }
    limit.next(alloc)
}

fn projected(alloc: Global, project: &mut Project, row: Row) -> Result<Next, OpNo> {
    if let Next::Wants(side) = project.next(alloc)? {
        project.give(alloc, side, row)?;
    }
    project.next(alloc)
}

fn gathered(alloc: Global, sort: &mut Sort, row: Row) -> Result<(), OpNo> {
    if let Next::Wants(side) = sort.next(alloc)? {
        sort.give(alloc, side, row)?;
    }
    Ok(())
}

fn ended(alloc: Global, sort: &mut Sort) -> Result<(), OpNo> {
    if let Next::Wants(side) = sort.next(alloc)? {
        sort.ended(side);
    }
    Ok(())
}

#[test]
fn a_scan_copies_its_row_and_ends(rt: HostRuntime) -> Result<(), Fail> {
    let a = rt.alloc();
    let rows = vec![in a; line(a, &[Some(1), None])?]?;
    let mut scan = Scan::new(rows.as_slice());
    assert_eq!(rt;
        numbers(a, scan.next(a)?)?.as_slice(),
        [Some(1), None].as_slice()
    );
    assert!(rt; matches!(scan.next(a)?, Next::End));
    Ok(())
}

#[test]
fn a_filter_drops_a_row_of_which_its_test_is_unknown(rt: HostRuntime) -> Result<(), Fail> {
    let a = rt.alloc();
    let mut filter = Filter::new(Expr::Compare {
        op: CompareOp::Eq,
        left: Operand::Col(0),
        right: Operand::Int(7),
    });
    assert!(rt; matches!(filtered(a, &mut filter, line(a, &[None])?)?, Next::Wants(_)));
    let kept = filtered(a, &mut filter, line(a, &[Some(7)])?)?;
    assert_eq!(rt; numbers(a, kept)?.as_slice(), [Some(7)].as_slice());
    Ok(())
}

#[test]
fn a_project_has_its_own_order_and_may_repeat_a_column(rt: HostRuntime) -> Result<(), Fail> {
    let a = rt.alloc();
    let columns: Columns = Items::from_slice(a, &[1, 0, 1])?;
    let mut project = Project::new(columns);
    let answered = projected(a, &mut project, line(a, &[Some(5), Some(6)])?)?;
    assert_eq!(rt;
        numbers(a, answered)?.as_slice(),
        [Some(6), Some(5), Some(6)].as_slice()
    );
    Ok(())
}

#[test]
fn a_limit_ends_at_its_count(rt: HostRuntime) -> Result<(), Fail> {
    let a = rt.alloc();
    let mut limit = Limit::new(1);
    let answered = limited(a, &mut limit, line(a, &[Some(3)])?)?;
    assert_eq!(rt; numbers(a, answered)?.as_slice(), [Some(3)].as_slice());
    assert!(rt; matches!(limit.next(a)?, Next::End));
    Ok(())
}

#[test]
fn a_limit_to_no_rows_wants_none(rt: HostRuntime) -> Result<(), Fail> {
    assert!(rt; matches!(Limit::new(0).next(rt.alloc())?, Next::End));
    Ok(())
}

#[test]
fn a_sort_going_down_puts_null_last_and_keeps_equal_rows_in_order(
    rt: HostRuntime,
) -> Result<(), Fail> {
    let a = rt.alloc();
    let down = Key {
        column: 0,
        down: true,
    };
    let keys: Keys = Items::from_slice(a, &[down])?;
    let mut sort = Sort::new(a, keys);
    for given in [
        [None, Some(0)],
        [Some(1), Some(1)],
        [Some(2), Some(2)],
        [Some(1), Some(3)],
    ] {
        gathered(a, &mut sort, line(a, &given)?)?;
    }
    ended(a, &mut sort)?;
    for wanted in [
        [Some(2), Some(2)],
        [Some(1), Some(1)],
        [Some(1), Some(3)],
        [None, Some(0)],
    ] {
        assert_eq!(rt; numbers(a, sort.next(a)?)?.as_slice(), wanted.as_slice());
    }
    assert!(rt; matches!(sort.next(a)?, Next::End));
    Ok(())
}

#[test]
fn a_sort_of_nothing_ends(rt: HostRuntime) -> Result<(), Fail> {
    let mut sort = Sort::new(rt.alloc(), Items::new(rt.alloc()));
    ended(rt.alloc(), &mut sort)?;
    assert!(rt; matches!(sort.next(rt.alloc())?, Next::End));
    Ok(())
}
