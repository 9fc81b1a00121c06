ghost use Rattle.std.specs.Prelude.{◌<◌, ◌+◌, ◌^◌, length};

use super::*;
use ic_row::{Row, Value};
use pl_ops::{Next, OpNo, Side};
use pl_tree::Call;
use sqlite_items::Items;
use std::alloc::{AllocError, Global};
use std::test::*;

/// A value that is no text.
#[derive(Clone, Copy, Debug, PartialEq, Eq)]
enum Cell {
    Null,
    Int(i64),
    Wide(i128),
}

const NULL: Cell = Cell::Null;

fn row(alloc: Global, cells: &[Cell]) -> Result<Row, AllocError> {
    let mut values = Vec::new(alloc);
    for cell in cells {
        values.push(match cell {
            Cell::Null => Value::Null,
            Cell::Int(n) => Value::Int(*n),
            Cell::Wide(n) => Value::Wide(*n),
        })?;
    }
    Ok(Row::from_vec(values))
}

fn cells(into: &mut Vec<Cell>, row: &Row) -> Result<(), OpNo> {
    for value in row.as_slice() {
        into.push(match value {
            Value::Int(n) => Cell::Int(*n),
            Value::Wide(n) => Cell::Wide(*n),
            _ => Cell::Null,
        })?;
    }
    Ok(())
}

/// The cells of all rows that an aggregate answers, one after another.
fn aggregated(
    alloc: Global,
    part: AggPart,
    group: &[u32],
    calls: &[Call],
    rows: &[&[Cell]],
) -> Result<Vec<Cell>, OpNo>
    requires { length group.now + length calls.now < 2 ^ 32 }
{
    let group = Items::from_vec(group.to_vec(alloc)?);
    let calls = Items::from_vec(calls.to_vec(alloc)?);
    let mut agg = Agg::new(alloc, part, group, calls)?;
    let mut all = Vec::new(alloc);
    let mut taken = 0usize;
    for _ in 0..100 {
        match agg.next(alloc)? {
            Next::Row(row) => cells(&mut all, &row)?,
            Next::Wants(side) => {
                match rows.get(taken) {
                    Some(cells) => agg.give(alloc, side, row(alloc, cells)?)?,
                    None => agg.ended(side),
                }
                taken = taken.saturating_add(1);
            }
            Next::End => return Ok(all),
        }
    }
    Err(OpNo::Memory)
}

#[test]
fn a_sum_of_ints_passes_64_bits(rt: HostRuntime) -> Result<(), Fail> {
    let rows: [&[Cell]; 4] = [&[Cell::Int(9223372036854775807)]; 4];
    let found = aggregated(rt.alloc(), AggPart::Single, &[], &[Call::Sum(0)], &rows).ok();
    let wanted = [Cell::Wide(36893488147419103228)];
    assert_eq!(rt; found.ok_or("refused")?.as_slice(), wanted.as_slice());
    Ok(())
}

#[test]
fn nulls_are_one_group_and_no_value(rt: HostRuntime) -> Result<(), Fail> {
    let rows: [&[Cell]; 4] = [
        &[Cell::Int(2), NULL],
        &[NULL, Cell::Int(5)],
        &[Cell::Int(2), Cell::Int(7)],
        &[NULL, NULL],
    ];
    let calls = [
        Call::Count,
        Call::CountOf(1),
        Call::Sum(1),
        Call::Min(1),
        Call::Max(0),
    ];
    let found = aggregated(rt.alloc(), AggPart::Partial, &[0], &calls, &rows).ok();
    let wanted = [
        Cell::Int(2),
        Cell::Int(2),
        Cell::Int(1),
        Cell::Wide(7),
        Cell::Int(7),
        Cell::Int(2),
        NULL,
        Cell::Int(2),
        Cell::Int(1),
        Cell::Wide(5),
        Cell::Int(5),
        NULL,
    ];
    assert_eq!(rt; found.ok_or("refused")?.as_slice(), wanted.as_slice());
    Ok(())
}

#[test]
fn without_group_columns_no_rows_are_one_group(rt: HostRuntime) -> Result<(), Fail> {
    let calls = [Call::Count, Call::CountOf(0), Call::Sum(0), Call::Min(0)];
    let found = aggregated(rt.alloc(), AggPart::Single, &[], &calls, &[]).ok();
    let wanted = [Cell::Int(0), Cell::Int(0), NULL, NULL];
    assert_eq!(rt; found.ok_or("refused")?.as_slice(), wanted.as_slice());
    Ok(())
}

#[test]
fn with_group_columns_no_rows_are_no_group(rt: HostRuntime) -> Result<(), Fail> {
    let found = aggregated(rt.alloc(), AggPart::Single, &[0], &[Call::Count], &[]).ok();
    assert!(rt; found.ok_or("refused")?.is_empty());
    Ok(())
}

#[test]
fn a_final_adds_what_partials_counted(rt: HostRuntime) -> Result<(), Fail> {
    let rows: [&[Cell]; 3] = [
        &[Cell::Int(1), Cell::Int(2), Cell::Wide(10), NULL],
        &[Cell::Int(4), Cell::Int(1), NULL, Cell::Int(6)],
        &[Cell::Int(1), Cell::Int(3), Cell::Wide(-4), Cell::Int(8)],
    ];
    let calls = [Call::Count, Call::Sum(3), Call::Min(2)];
    let found = aggregated(rt.alloc(), AggPart::Final, &[5], &calls, &rows).ok();
    let wanted = [
        Cell::Int(1),
        Cell::Int(5),
        Cell::Wide(6),
        Cell::Int(8),
        Cell::Int(4),
        Cell::Int(1),
        NULL,
        Cell::Int(6),
    ];
    assert_eq!(rt; found.ok_or("refused")?.as_slice(), wanted.as_slice());
    Ok(())
}

#[test]
fn a_count_past_64_bits_is_an_overflow(rt: HostRuntime) -> Result<(), Fail> {
    let rows: [&[Cell]; 2] = [&[Cell::Int(9223372036854775807)], &[Cell::Int(1)]];
    let found = aggregated(rt.alloc(), AggPart::Final, &[], &[Call::Count], &rows).err();
    assert!(rt; found == Some(OpNo::Overflow));
    Ok(())
}

#[test]
fn a_sum_past_128_bits_is_an_overflow(rt: HostRuntime) -> Result<(), Fail> {
    let least = Cell::Wide(-170141183460469231731687303715884105728);
    let rows: [&[Cell]; 2] = [&[least], &[Cell::Wide(-1)]];
    let found = aggregated(rt.alloc(), AggPart::Final, &[], &[Call::Sum(0)], &rows).err();
    assert!(rt; found == Some(OpNo::Overflow));
    Ok(())
}
