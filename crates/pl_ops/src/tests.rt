use super::*;
use ic_base::SegId;
use ic_row::{Row, Rows, Value};
use sqlite_items::Items;
use std::alloc::{AllocError, Global};
use std::test::*;

fn rows(alloc: Global, numbers: &[i64]) -> Result<Rows, AllocError> {
    let mut rows = Rows::new(alloc);
    for number in numbers {
        let mut values = Vec::new(alloc);
        values.push(Value::Int(*number))?;
        rows.push(Row::from_vec(values))?;
    }
    Ok(rows)
}

fn is_one(rows: &[Row], wanted: i64) -> bool {
    match rows {
        [row] => matches!(row.as_slice(), [Value::Int(n)] if *n == wanted),
        _ => false,
    }
}

#[test]
fn a_table_apart_and_a_table_everywhere_are_read_by_segment(rt: HostRuntime) -> Result<(), Fail> {
    let a = rt.alloc();
    let mut parts = Items::new(a);
    parts.push(rows(a, &[10])?)?;
    parts.push(rows(a, &[11])?)?;
    let mut tables = Items::new(a);
    tables.push(Spread::Apart(parts))?;
    tables.push(Spread::Everywhere(rows(a, &[7])?))?;
    let loaded = Loaded::from_tables(tables);
    let one = SegId::new(1).ok_or("segment 1")?;
    assert!(rt; is_one(loaded.rows(0, one), 11));
    assert!(rt; is_one(loaded.rows(1, one), 7));
    for table in 0..3 {
        assert!(rt;
            loaded.rows(table, SegId::DISPATCHER).is_empty(),
            "table {table}"
        );
    }
    Ok(())
}
