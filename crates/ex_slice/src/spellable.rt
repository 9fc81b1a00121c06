// Which rows can be spelled.
ghost use Rattle.std.specs.Prelude.{◌≡◌, ◌<◌, ◌^◌, length, true};
ghost use Rattle.std.specs.Int.{w64, w128};
ghost use Rattle.std.specs.Int.RustNames.{FitsSigned};
ghost use Rattle.std.specs.List.{AllByRecursion};
ghost use Rattle.ic_row.specs.Spelling.{IsValue, IsRow};

use ic_row::{Row, Value};

fn fits_int(n: i64) -> bool
    ensures true_ { result ≡ true }
    ensures is { FitsSigned w64 n }
{
    let _ = n;
    true
}

fn fits_wide(n: i128) -> bool
    ensures true_ { result ≡ true }
    ensures is { FitsSigned w128 n }
{
    let _ = n;
    true
}

fn fits_text(text: &[u8]) -> bool
    ensures { result ≡ true → length text.now < 2 ^ 32 }
{
    u32::try_from(text.len()).is_ok()
}

fn fits(value: &Value) -> bool
    ensures { result ≡ true → IsValue value.now }
{
    match value {
        Value::Null => true,
        Value::Int(n) => fits_int(*n),
        Value::Wide(n) => fits_wide(*n),
        Value::Chars(text) => fits_text(text.as_str().as_bytes()),
    }
}

fn all_fit(values: &[Value]) -> bool
    ensures { result ≡ true → AllByRecursion IsValue values.now }
{
    for value in values {
        if !fits(value) {
            return false;
        }
    }
    true
}

/// Whether the row has fewer than 2^16 values, and each text of it fewer than 2^32 bytes.
pub(crate) fn is_spellable(row: &Row) -> bool
    ensures { result ≡ true → IsRow row.now }
{
    row.len() < 65536 && all_fit(row.as_slice())
}
