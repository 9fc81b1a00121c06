use super::*;
use ic_row::{Row, Value};
use std::test::*;

#[test]
fn a_key_has_its_columns_in_order_and_null_past_the_last(rt: HostRuntime) -> Result<(), Fail> {
    let row = Row::from_vec(vec![in rt.alloc(); Value::Int(7), Value::Wide(8)]?);
    let key = RowKey::of(rt.alloc(), &[1, 2, 0], &row)?;
    assert!(rt; matches!(key.as_slice(), [Value::Wide(8), Value::Null, Value::Int(7)]));
    Ok(())
}

#[test]
fn an_int_is_not_the_key_of_a_wide(rt: HostRuntime) -> Result<(), Fail> {
    let row = Row::from_vec(vec![in rt.alloc(); Value::Int(5), Value::Wide(5)]?);
    let int = RowKey::of(rt.alloc(), &[0], &row)?;
    let wide = RowKey::of(rt.alloc(), &[1], &row)?;
    assert!(rt; int != wide);
    Ok(())
}
