// Bytes to a value of JSON, with no room to spare in it: most of a document is rows of few values, and the room for four
// that a growing list begins with would make their value of JSON three times as large.
ghost use Rattle.std.specs.Prelude.{◌≡◌, ◌<◌, length, None, Some, Err, IfOk, OnOk, IsUtf8};
ghost use Rattle.json.specs.Json.{value, items, members};
ghost use Rattle.serde_json.specs.Data.{no_members};
ghost use Rattle.serde_json.specs.Read.{of_json, of_items, of_members, converted, read as read_text};
ghost use Rattle.serde_json.specs.View.{view, items_view, members_view};
ghost use Rattle.pl_read.specs.declared.parse.ParseNo.TheVariants.{NoJson, Memory};

use crate::numeral::number_of;
use json::{Invalid, Reader, Scratch, Token};
use serde_json::{Map, Value};
use std::alloc::{AllocError, AllocFailed, Global};

/// How deep a value may nest.
const MAX_DEPTH: usize = 127;

/// Why bytes gave no value of JSON.
#[derive(Clone, Copy, Debug, PartialEq, Eq)]
pub(crate) enum ParseNo {
    /// Who wrote them: they are none.
    NoJson,
    /// This side: out of memory.
    Memory,
}

impl From<AllocError> for ParseNo {
    ghost from_gives = { λ _ e. e ≡ Memory };

    fn from(_: AllocError) -> ParseNo {
        ParseNo::Memory
    }
}

impl<T: Drop> From<AllocFailed<T>> for ParseNo {
    ghost from_gives = { λ _ e. e ≡ Memory };

    fn from(_: AllocFailed<T>) -> ParseNo {
        ParseNo::Memory
    }
}

impl From<Invalid> for ParseNo {
    ghost from_gives = { λ _ e. e ≡ NoJson };

    fn from(_: Invalid) -> ParseNo {
        ParseNo::NoJson
    }
}

/// The value that bytes write.
pub(crate) fn parse(alloc: Global, bytes: &[u8]) -> Result<Value, ParseNo>
    ensures ok { IfOk result (λ v. IsUtf8 bytes.now × (read_text bytes.now ≡ Some (view v))) }
    ensures err { result ≡ Err NoJson → IsUtf8 bytes.now → read_text bytes.now ≡ None }
{
    match simdutf8::basic::from_utf8(bytes) {
        Ok(text) => read_all(alloc, text),
        Err(_) => Err(ParseNo::NoJson),
    }
}

fn read_all(alloc: Global, text: &str) -> Result<Value, ParseNo>
    ensures ok { IfOk result (λ v. read_text text.now ≡ Some (view v)) }
    ensures err { result ≡ Err NoJson → read_text text.now ≡ None }
{
    let mut scratch = Scratch::new(alloc);
    let Ok(mut reader) = Reader::new(text, &mut scratch) else {
        return Err(ParseNo::Memory);
    };
    let value = match read(alloc, &mut reader, MAX_DEPTH) {
        Ok(value) => value,
        Err(no) => return Err(no),
    };
    if reader.next().is_some() {
        return Err(ParseNo::NoJson);
    }
    Ok(value)
}

#[cycle(read)]
fn read(alloc: Global, reader: &mut Reader<'_>, depth: usize) -> Result<Value, ParseNo>
    ensures ok { IfOk result
        (λ v. converted of_json (value depth reader.old) ≡ Some (view v, reader.new)) }
    ensures shorter { OnOk result (length reader.new < length reader.old) }
    ensures err { result ≡ Err NoJson → converted of_json (value depth reader.old) ≡ None }
{
    let token = reader.next().ok_or(ParseNo::NoJson)?;
    match token {
        Token::String(text) => Ok(Value::String(String::from_str(alloc, text)?)),
        Token::Number(text) => match number_of(text) {
            Some(number) => Ok(Value::Number(number)),
            None => Err(ParseNo::NoJson),
        },
        Token::Bool(b) => Ok(Value::Bool(b)),
        Token::Null => Ok(Value::Null),
        Token::EndObject | Token::EndArray | Token::Key(_) | Token::Bad => Err(ParseNo::NoJson),
        Token::BeginArray => {
            if depth == 0 {
                return Err(ParseNo::NoJson);
            }
            Ok(Value::Array(read_items(alloc, reader, depth - 1)?))
        }
        Token::BeginObject => {
            if depth == 0 {
                return Err(ParseNo::NoJson);
            }
            Ok(Value::Object(read_members(alloc, reader, depth - 1)?))
        }
    }
}

/// The same items in no more room than they take.
fn without_room(items: Vec<Value>) -> Vec<Value>
    ensures { result.items ≡ items.items }
{
    let mut items = items;
    items.shrink_to_fit();
    items
}

#[cycle(read)]
fn read_items(alloc: Global, reader: &mut Reader<'_>, depth: usize) -> Result<Vec<Value>, ParseNo>
    ensures ok { IfOk result
        (λ v. converted of_items (items (value depth) (length reader.old) reader.old)
        ≡ Some (items_view v.items, reader.new)) }
    ensures shorter { OnOk result (length reader.new < length reader.old) }
    ensures err { result ≡ Err NoJson
        → converted of_items (items (value depth) (length reader.old) reader.old) ≡ None }
{
    let mut found = Vec::new(alloc);
    'items: while !reader.take_end_array() {
        let item = read(alloc, reader, depth)?;
        found.push(item)?;
    }
    Ok(without_room(found))
}

#[cycle(read)]
fn read_members(
    alloc: Global,
    reader: &mut Reader<'_>,
    depth: usize,
) -> Result<Map<String, Value>, ParseNo>
    ensures ok { IfOk result
        (λ m. converted (λ ms. of_members ms no_members)
        (members (value depth) (length reader.old) reader.old)
        ≡ Some (members_view m.entries, reader.new)) }
    ensures shorter { OnOk result (length reader.new < length reader.old) }
    ensures err { result ≡ Err NoJson
        → converted (λ ms. of_members ms no_members)
        (members (value depth) (length reader.old) reader.old) ≡ None }
{
    let mut found = Map::new(alloc);
    'members: while let Some(name) = reader.next_key()? {
        let key = String::from_str(alloc, name)?;
        let member = read(alloc, reader, depth)?;
        drop(found.insert(key, member)?);
    }
    Ok(found)
}
