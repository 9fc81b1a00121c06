// Reading a row from bytes.
ghost use Rattle.std.specs.Prelude.{◌≡◌, List, length, true, false, IfOk, IfErr, MatchOption};
ghost use Rattle.std.specs.Option.{ok_or};
ghost use Rattle.std.specs.Int.{w16};
ghost use Rattle.std.specs.Str.{is_utf8};
ghost use Rattle.ic_row.specs.Reading.{Answers, seen, number_at, int_at, wide_at, text_at, value_behind, value_at, values_at, row_at, read_row_of};
ghost use Rattle.ic_row.specs.Spelling.{Spells};
ghost use Rattle.ic_row.specs.Faults.{IsFault};
ghost use Rattle.ic_row.specs.Stops.{Gives};
ghost use Rattle.ic_row.specs.Values.{Datum};

use crate::row::Row;
use crate::stop::Stop;
use crate::value::Value;
use ic_base::Text;
use std::alloc::{AllocError, Global};

/// Why the bytes weren't read as a row.
#[derive(Clone, Copy, Debug, PartialEq, Eq)]
pub enum RowNo {
    /// The doing of whoever wrote the bytes: the whole slice is not the spelling of any row. Holds the offset of the
    /// first fault in bytes, from 0: 0 if the count can't be read; otherwise the start of the first value that can't be
    /// read; otherwise, if all values can be read, the first byte after the last one.
    RowFault(usize),
    /// Out of memory on this side.
    Memory,
}

/// A value and the bytes after it.
type Found<'a> = Option<(Value, &'a [u8])>;

#[tactic(auto, unfolding(crate::specs::Reading::int_at))]
fn int_of(bytes: &[u8]) -> Found<'_>
    ensures { int_at bytes.now ≡ seen result }
{
    let (front, rest) = bytes.split_first_chunk::<8>()?;
    Some((Value::Int(u64::from_be_bytes(*front).cast_signed()), rest))
}

#[tactic(auto, unfolding(crate::specs::Reading::wide_at))]
fn wide_of(bytes: &[u8]) -> Found<'_>
    ensures { wide_at bytes.now ≡ seen result }
{
    let (front, rest) = bytes.split_first_chunk::<16>()?;
    Some((Value::Wide(u128::from_be_bytes(*front).cast_signed()), rest))
}

#[tactic(auto, using(crate::proofs::Texts::not_utf8, crate::proofs::Texts::yes_utf8))]
fn utf8(bytes: &[u8]) -> Option<&str>
    ensures { MatchOption result (is_utf8 bytes.now ≡ false) (λ text. (text.now ≡ bytes.now) × (is_utf8 bytes.now ≡ true)) }
{
    match str::from_utf8(bytes) {
        Ok(text) => Some(text),
        Err(_) => None,
    }
}

/// `None` also if the bytes aren't UTF-8.
#[tactic(auto, unfolding(crate::specs::Reading::text_at))]
fn text_of(alloc: Global, bytes: &[u8]) -> Result<Found<'_>, AllocError>
    ensures { IfOk result (λ found. text_at bytes.now ≡ seen found) }
{
    let Some((front, rest)) = bytes.split_first_chunk::<4>() else {
        return Ok(None);
    };
    let len = u32::from_be_bytes(*front) as usize;
    if rest.len() < len {
        return Ok(None);
    }
    let (text, rest) = rest.split_at(len);
    let Some(text) = utf8(text) else {
        return Ok(None);
    };
    let text = Text::from_string(String::from_str(alloc, text)?);
    Ok(Some((Value::Chars(text), rest)))
}

fn tagged(alloc: Global, tag: u8, bytes: &[u8]) -> Result<Found<'_>, AllocError>
    ensures { IfOk result (λ found. value_behind tag bytes.now ≡ seen found) }
{
    match tag {
        0 => Ok(Some((Value::Null, bytes))),
        1 => Ok(int_of(bytes)),
        2 => text_of(alloc, bytes),
        3 => Ok(wide_of(bytes)),
        _ => Ok(None),
    }
}

#[tactic(auto, unfolding(crate::specs::Reading::value_at))]
fn value_of(alloc: Global, bytes: &[u8]) -> Result<(Value, &[u8]), Stop>
    ensures { Gives (λ x. (x.0, x.1.now)) result (ok_or (value_at bytes.now) (length bytes.now)) }
{
    let Some((tag, rest)) = bytes.split_first() else {
        return Err(Stop::Left(0));
    };
    match tagged(alloc, *tag, rest)? {
        Some(found) => Ok(found),
        None => Err(Stop::Left(bytes.len())),
    }
}

fn values_of(alloc: Global, count: u16, bytes: &[u8]) -> Result<(Vec<Value>, &[u8]), Stop>
    ensures { Gives (λ x. (x.0.items, x.1.now)) result (values_at count bytes.now) }
{
    let mut values = Vec::new(alloc);
    let mut rest = bytes;
    for _ in 0..count {
        let (value, after) = value_of(alloc, rest)?;
        values.push(value)?;
        rest = after;
    }
    Ok((values, rest))
}

fn count_of(bytes: &[u8]) -> Result<(u16, &[u8]), Stop>
    ensures { Gives (λ x. (x.0, x.1.now)) result (ok_or (number_at w16 bytes.now) (length bytes.now)) }
{
    let Some((front, rest)) = bytes.split_first_chunk::<2>() else {
        return Err(Stop::Left(bytes.len()));
    };
    Ok((u16::from_be_bytes(*front), rest))
}

#[tactic(auto, unfolding(crate::specs::Reading::row_at))]
fn row_of(alloc: Global, bytes: &[u8]) -> Result<Row, Stop>
    ensures { Gives (λ row. row) result (row_at bytes.now) }
{
    let (count, rest) = count_of(bytes)?;
    let (values, rest) = values_of(alloc, count, rest)?;
    if !rest.is_empty() {
        return Err(Stop::Left(rest.len()));
    }
    Ok(Row::from_vec(values))
}

fn placed(alloc: Global, bytes: &[u8]) -> Result<Row, RowNo>
    ensures { Answers result (read_row_of bytes.now) }
{
    match row_of(alloc, bytes) {
        Ok(row) => Ok(row),
        Err(Stop::Left(left)) => Err(RowNo::RowFault(bytes.len() - left)),
        Err(Stop::NoMemory) => Err(RowNo::Memory),
    }
}

/// The row that the whole slice spells. Each text is copied once; the slice isn't kept. Room for values is taken as
/// they are read, never ahead for the stated count.
pub fn read_row(alloc: Global, bytes: &[u8]) -> Result<Row, RowNo>
    // If a row is returned, the bytes are its spelling.
    ensures ok { IfOk result (λ row. Spells row bytes.now) }
    // If the bytes spell a row, that row is returned, unless memory runs out.
    ensures only { (row : List Datum) → Spells row bytes.now → Answers result (Ok row) }
    // The fault named is the leftmost one.
    ensures fault { IfErr result (IsFault bytes.now) }
    // The same as a function of the bytes.
    ensures exact { Answers result (read_row_of bytes.now) }
{
    placed(alloc, bytes)
}
