ghost use Rattle.std.specs.Prelude.{◌≡◌, [], ◌∷◌, IfOk};
ghost use Rattle.ic_row.specs.declared.value.Value.TheVariants.{Chars};

use super::*;
use ic_base::Text;
use std::alloc::{AllocError, Global};
use std::test::*;

/// A null, the int -1 and a text of two bytes. `vectors/row.txt` explains each byte.
const THREE: [u8; 19] = [
    0, 3, 0, 1, 255, 255, 255, 255, 255, 255, 255, 255, 2, 0, 0, 0, 2, 0xc3, 0xa9,
];

fn text(alloc: Global, words: &str) -> Result<Value, AllocError>
    ensures { IfOk result (λ v. v ≡ Chars words.now) }
{
    let text = Text::from_string(String::from_str(alloc, words)?);
    Ok(Value::Chars(text))
}

fn row_of(alloc: Global, value: Value) -> Result<Row, AllocError>
    ensures { IfOk result (λ row. row ≡ value ∷ []) }
{
    let mut values = Vec::new(alloc);
    values.push(value)?;
    Ok(Row::from_vec(values))
}

#[test]
fn a_null_an_int_and_a_text_are_spelled_so(rt: HostRuntime) -> Result<(), Fail> {
    let mut values = vec![in rt.alloc(); Value::Null, Value::Int(-1)]?;
    values.push(text(rt.alloc(), "\u{e9}")?)?;
    let row = Row::from_vec(values);
    assert_eq!(rt; spell(rt.alloc(), &row)?.as_slice(), THREE.as_slice());
    Ok(())
}

#[test]
fn a_null_an_int_and_a_text_are_read_and_copied(rt: HostRuntime) -> Result<(), Fail> {
    let read = read_row(rt.alloc(), &THREE)
        .ok()
        .ok_or("the bytes are a row")?;
    let row = read.copy(rt.alloc())?;
    match row.as_slice() {
        [Value::Null, Value::Int(-1), Value::Chars(text)] => {
            assert_eq!(rt; text.as_str(), "\u{e9}");
        }
        _ => assert!(rt; false, "other values"),
    }
    Ok(())
}

#[test]
fn keys_go_to_the_segments_of_the_vectors(rt: HostRuntime) -> Result<(), Fail> {
    let wide = row_of(rt.alloc(), Value::Wide(5))?;
    assert_eq!(rt; segment_of(&wide, &[0], 64), 57);
    let word = row_of(rt.alloc(), text(rt.alloc(), "abc")?)?;
    assert_eq!(rt; segment_of(&word, &[0], 64), 52);
    let mut values = vec![in rt.alloc(); Value::Int(7)]?;
    values.push(text(rt.alloc(), "\u{e9}")?)?;
    let two = Row::from_vec(values);
    assert_eq!(rt; segment_of(&two, &[0, 1], 64), 35);
    assert_eq!(rt; segment_of(&two, &[1, 0], 64), 3);
    Ok(())
}

#[test]
fn rows_stand_in_the_order_of_their_pushes(rt: HostRuntime) -> Result<(), Fail> {
    let mut rows = Rows::new(rt.alloc());
    rows.push(row_of(rt.alloc(), Value::Int(1))?)?;
    rows.push(row_of(rt.alloc(), Value::Null)?)?;
    let nulls: Vec<bool> = rows
        .as_slice()
        .iter()
        .map(|row| row.present(0).is_none())
        .collect(rt.alloc())?;
    assert_eq!(rt; nulls.as_slice(), [false, true].as_slice());
    Ok(())
}
