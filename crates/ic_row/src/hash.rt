// The segment that a row belongs to.
ghost use Rattle.std.specs.Prelude.{◌≡◌, ◌<◌};
ghost use Rattle.std.specs.List.{fold};
ghost use Rattle.ic_row.specs.Spelling.{value_spelling, int_spelling, text_spelling, wide_spelling};
ghost use Rattle.ic_row.specs.Values.{column};
ghost use Rattle.ic_row.specs.Hash.{basis, hash_step, segment_for};

use crate::row::Row;
use crate::value::Value;

/// The offset basis of FNV-1a in 64 bits: the hash of no bytes.
const BASIS: u64 = 14695981039346656037;

/// The prime of FNV-1a in 64 bits, by which each step multiplies.
const PRIME: u64 = 1099511628211;

#[tactic(auto, unfolding(crate::specs::Hash::hash_step))]
fn mix(hash: u64, byte: u8) -> u64
    ensures { result ≡ hash_step hash byte }
{
    (hash ^ u64::from(byte)).wrapping_mul(PRIME)
}

fn mix_all(hash: u64, bytes: &[u8]) -> u64
    ensures { result ≡ fold hash_step hash bytes.now }
{
    let mut mixed = hash;
    for byte in bytes {
        mixed = mix(mixed, *byte);
    }
    mixed
}

#[tactic(auto, unfolding(crate::specs::Spelling::int_spelling))]
fn mix_int(hash: u64, n: i64) -> u64
    ensures { result ≡ fold hash_step hash (int_spelling n) }
{
    mix_all(mix(hash, 1), &n.cast_unsigned().to_be_bytes())
}

#[tactic(auto, unfolding(crate::specs::Spelling::wide_spelling))]
fn mix_wide(hash: u64, n: i128) -> u64
    ensures { result ≡ fold hash_step hash (wide_spelling n) }
{
    mix_all(mix(hash, 3), &n.cast_unsigned().to_be_bytes())
}

/// Of the length only the low four bytes are hashed, as only they are spelled.
#[tactic(auto, unfolding(crate::specs::Spelling::text_spelling))]
fn mix_text(hash: u64, text: &[u8]) -> u64
    ensures { result ≡ fold hash_step hash (text_spelling text.now) }
{
    let len = text.len().to_be_bytes();
    mix_all(mix_all(mix(hash, 2), &len[4..]), text)
}

fn mix_value(hash: u64, value: &Value) -> u64
    ensures { result ≡ fold hash_step hash (value_spelling value.now) }
{
    match value {
        Value::Null => mix(hash, 0),
        Value::Int(n) => mix_int(hash, *n),
        Value::Wide(n) => mix_wide(hash, *n),
        Value::Chars(text) => mix_text(hash, text.as_str().as_bytes()),
    }
}

fn mix_column(hash: u64, row: &Row, place: u32) -> u64
    ensures { result ≡ fold hash_step hash (value_spelling (column row.now place)) }
{
    match row.present(place) {
        Some(value) => mix_value(hash, value),
        None => mix_value(hash, &Value::Null),
    }
}

#[tactic(auto, unfolding(crate::specs::Hash::basis))]
fn start() -> u64
    ensures { result ≡ basis }
{
    BASIS
}

/// The segment for the values in these columns, 0..segments: the FNV-1a hash in 64 bits over their spellings, modulo
/// the number of segments. Rows with equal keys get the same segment. `columns` are positions from 0; a column past the
/// last one counts as null. Takes no memory.
#[tactic(auto, unfolding(crate::specs::Hash::segment_for))]
pub fn segment_of(row: &Row, columns: &[u32], segments: u32) -> u32
    requires { 0 < segments }
    ensures value { result ≡ segment_for columns.now row.now segments }
    ensures below { result < segments }
{
    let mut hash = start();
    for place in columns {
        hash = mix_column(hash, row, *place);
    }
    (hash % u64::from(segments)) as u32
}
