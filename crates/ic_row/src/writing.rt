// Writing a row as bytes.
ghost use Rattle.std.specs.Prelude.{◌≡◌, ◌∷◌, ◌++◌, ◌<◌, ◌^◌, length, IfOk, OnOk};
ghost use Rattle.ic_row.specs.Spelling.{HasLengths, FitsLength, int_spelling, text_spelling, wide_spelling, value_spelling, spelling_of, IsValue, Spells};
ghost use Rattle.std.specs.Int.{w64, w128};
ghost use Rattle.std.specs.Int.RustNames.{FitsSigned};

use crate::row::Row;
use crate::value::Value;
use ic_base::Bytes;
use std::alloc::{AllocError, Global};

/// The bytes of an int: a tag and eight more. The first allocation has room for as many ints as there are values.
const INT_BYTES: usize = 9;

fn put_tagged(out: &mut Vec<u8>, tag: u8, bytes: &[u8]) -> Result<(), AllocError>
    ensures { OnOk result (out.new.items ≡ out.old.items ++ tag ∷ bytes.now) }
{
    out.push(tag)?;
    out.extend_from_slice(bytes)
}

#[tactic(auto, unfolding(crate::specs::Spelling::int_spelling))]
fn put_int(out: &mut Vec<u8>, n: i64) -> Result<(), AllocError>
    ensures ok { OnOk result (out.new.items ≡ out.old.items ++ int_spelling n) }
    ensures is { FitsSigned w64 n }
{
    put_tagged(out, 1, &n.cast_unsigned().to_be_bytes())
}

#[tactic(auto, unfolding(crate::specs::Spelling::wide_spelling))]
fn put_wide(out: &mut Vec<u8>, n: i128) -> Result<(), AllocError>
    ensures ok { OnOk result (out.new.items ≡ out.old.items ++ wide_spelling n) }
    ensures is { FitsSigned w128 n }
{
    put_tagged(out, 3, &n.cast_unsigned().to_be_bytes())
}

#[tactic(auto, unfolding(crate::specs::Spelling::text_spelling))]
fn put_text(out: &mut Vec<u8>, text: &[u8]) -> Result<(), AllocError>
    requires { length text.now < 2 ^ 32 }
    ensures { OnOk result (out.new.items ≡ out.old.items ++ text_spelling text.now) }
{
    put_tagged(out, 2, &(text.len() as u32).to_be_bytes())?;
    out.extend_from_slice(text)
}

fn put_value(out: &mut Vec<u8>, value: &Value) -> Result<(), AllocError>
    requires { FitsLength value.now }
    ensures ok { OnOk result (out.new.items ≡ out.old.items ++ value_spelling value.now) }
    ensures is { IsValue value.now }
{
    match value {
        Value::Null => put_tagged(out, 0, &[]),
        Value::Int(n) => put_int(out, *n),
        Value::Wide(n) => put_wide(out, *n),
        Value::Chars(text) => put_text(out, text.as_str().as_bytes()),
    }
}

/// The spelling of a row: the number of values in two bytes, then each value after its tag byte. Big-endian. A row has
/// exactly one spelling. The hash of a row and the bodies of chunks are made from these bytes.
///
/// Each byte is written once. Fails only if out of memory.
#[tactic(auto, unfolding(crate::specs::Spelling::spelling_of))]
pub fn spell(alloc: Global, row: &Row) -> Result<Bytes, AllocError>
    requires { HasLengths row.now }
    ensures ok { IfOk result (λ bytes. bytes ≡ spelling_of row.now) }
    // The bytes are the row's one spelling, so they are read back as this row.
    ensures spells { IfOk result (λ bytes. Spells row.now bytes) }
{
    let mut out = Vec::with_capacity(alloc, 2 + INT_BYTES * row.len())?;
    out.extend_from_slice(&(row.len() as u16).to_be_bytes())?;
    for value in row.as_slice() {
        put_value(&mut out, value)?;
    }
    Bytes::from_vec(alloc, out)
}
