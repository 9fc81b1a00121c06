// Tables.
ghost use Rattle.std.specs.Prelude.{◌≡◌, ◌==◌, [], map};
ghost use Rattle.std.specs.List.{list_any};
ghost use Rattle.std.specs.Str.{bytes_eq};
ghost use Rattle.serde_json.specs.View.{view, items_view};
ghost use Rattle.pl_read.specs.Paths.{path_of};
ghost use Rattle.pl_read.specs.Faults.{Gives};
ghost use Rattle.pl_read.specs.Tables as spec;

use crate::fault::{DocNo, Flaw};
use crate::member::{is_among, object_at, only, required, taken};
use crate::place::Place;
use crate::rows::rows_of;
use crate::value::{array_at, items_of, pair_at, position_at, text_at};
use ic_base::Text;
use ic_row::{Kind, Rows};
use pl_tree::{Columns, Kinds, Placing, Schema};
use serde_json::Value;
use sqlite_items::Items;
use std::alloc::Global;

/// The most bytes of a name.
const LONGEST_NAME: usize = 64;

/// The most columns of a table.
const MOST_COLUMNS: usize = 256;

/// The most columns of a key.
const MOST_KEYS: usize = 8;

/// The most tables of a document.
const MOST_TABLES: usize = 64;

/// A table of a document.
#[derive(Drop, Debug)]
pub struct Table {
    /// Its name, the kinds of its columns, and the placing of its rows.
    pub schema: Schema,
    /// In the document's order. Each has a value for each column, of the column's kind or null.
    pub rows: Rows,
}

/// The tables of a document, no two of one name.
pub type Tables = Items<Table>;

// A name of 1 to 64 bytes.
fn name_at<'v>(alloc: Global, place: Place<'_>, value: &'v Value) -> Result<&'v str, DocNo>
    ensures { Gives (λ name. name.now) result (spec.name_at (path_of place.entry) (view value.now)) }
{
    let name = text_at(alloc, place, value)?;
    if 1 <= name.len() && name.len() <= LONGEST_NAME {
        Ok(name)
    } else {
        Err(place.no(alloc, Flaw::Range))
    }
}

fn kind_at(alloc: Global, place: Place<'_>, value: &Value) -> Result<Kind, DocNo>
    ensures { Gives (λ x. x) result (spec.kind_at (path_of place.entry) (view value.now)) }
{
    match text_at(alloc, place, value)? {
        "int" => Ok(Kind::Int),
        "text" => Ok(Kind::Chars),
        _ => Err(place.no(alloc, Flaw::Kind)),
    }
}

// The name of a column after columns of these names.
fn column_name_at<'v>(
    alloc: Global,
    place: Place<'_>,
    value: &'v Value,
    names: &[&str],
) -> Result<&'v str, DocNo>
    ensures { Gives (λ name. name.now) result
        (spec.new_name_at (map (λ name. name.now) names.now) (path_of place.entry) (view value.now)) }
{
    let name = name_at(alloc, place, value)?;
    if is_among(name, names) {
        Err(place.no(alloc, Flaw::Repeated))
    } else {
        Ok(name)
    }
}

// `[name, kind]`, after columns of these names.
fn column_at<'v>(
    alloc: Global,
    place: Place<'_>,
    value: &'v Value,
    names: &[&str],
) -> Result<(&'v str, Kind), DocNo>
    ensures { Gives (λ column. (column.0.now, column.1)) result
        (spec.column_at (map (λ name. name.now) names.now) (path_of place.entry) (view value.now)) }
{
    let (name, kind) = pair_at(alloc, place, value)?;
    let name = column_name_at(alloc, place.item(0), name, names)?;
    Ok((name, kind_at(alloc, place.item(1), kind)?))
}

fn kinds_of(alloc: Global, place: Place<'_>, columns: &[Value]) -> Result<Kinds, DocNo>
    ensures { Gives (λ x. x) result (spec.columns_from [] [] (path_of place.entry) 0 (items_view columns.now)) }
{
    let mut names = Vec::with_capacity(alloc, columns.len())?;
    let mut kinds = Items::new(alloc);
    for (at, column) in columns.iter().enumerate() {
        let (name, kind) = column_at(alloc, place.item(at), column, names.as_slice())?;
        names.push(name)?;
        kinds.push(kind)?;
    }
    Ok(kinds)
}

// The kinds of 1 to 256 columns, no two of one name.
fn kinds_at(alloc: Global, place: Place<'_>, value: &Value) -> Result<Kinds, DocNo>
    ensures { Gives (λ x. x) result (spec.kinds_at (path_of place.entry) (view value.now)) }
{
    let columns = array_at(alloc, place, value, 1, MOST_COLUMNS)?;
    kinds_of(alloc, place, columns)
}

fn is_in(column: u32, columns: &[u32]) -> bool
    ensures { result ≡ list_any (λ other. other == column) columns.now }
{
    columns.iter().any(|other| *other == column)
}

// The position of a column of a table that has so many, after these of its key.
fn key_column_at(
    alloc: Global,
    place: Place<'_>,
    value: &Value,
    width: usize,
    before: &[u32],
) -> Result<u32, DocNo>
    ensures { Gives (λ x. x) result (spec.key_column_at width before.now (path_of place.entry) (view value.now)) }
{
    let column = position_at(alloc, place, value)?;
    if (column as usize) < width && !is_in(column, before) {
        Ok(column)
    } else {
        Err(place.no(alloc, Flaw::Range))
    }
}

fn key_of(
    alloc: Global,
    place: Place<'_>,
    columns: &[Value],
    width: usize,
) -> Result<Columns, DocNo>
    ensures { Gives (λ x. x) result (spec.key_from width [] (path_of place.entry) 0 (items_view columns.now)) }
{
    let mut key = Items::new(alloc);
    for (at, column) in columns.iter().enumerate() {
        let column = key_column_at(alloc, place.item(at), column, width, key.as_slice())?;
        key.push(column)?;
    }
    Ok(key)
}

fn key_at(alloc: Global, place: Place<'_>, value: &Value, width: usize) -> Result<Columns, DocNo>
    ensures { Gives (λ x. x) result (spec.key_at width (path_of place.entry) (view value.now)) }
{
    let columns = array_at(alloc, place, value, 1, MOST_KEYS)?;
    key_of(alloc, place, columns, width)
}

fn key_in(
    alloc: Global,
    place: Place<'_>,
    table: &Value,
    width: usize,
) -> Result<Option<Columns>, DocNo>
    ensures { Gives (λ x. x) result (spec.key_in width (path_of place.entry) (view table.now)) }
{
    match table.get("key") {
        Some(value) => Ok(Some(key_at(alloc, place.member("key"), value, width)?)),
        None => Ok(None),
    }
}

fn replicated_at(
    alloc: Global,
    place: Place<'_>,
    value: &Value,
    is_keyed: bool,
) -> Result<bool, DocNo>
    ensures { Gives (λ x. x) result (spec.replicated_at is_keyed (path_of place.entry) (view value.now)) }
{
    match value.as_bool() {
        Some(replicated) if replicated && is_keyed => Err(place.no(alloc, Flaw::Range)),
        Some(replicated) => Ok(replicated),
        None => Err(place.no(alloc, Flaw::Kind)),
    }
}

fn replicated_in(
    alloc: Global,
    place: Place<'_>,
    table: &Value,
    is_keyed: bool,
) -> Result<bool, DocNo>
    ensures { Gives (λ x. x) result (spec.replicated_in is_keyed (path_of place.entry) (view table.now)) }
{
    match table.get("replicated") {
        Some(value) => replicated_at(alloc, place.member("replicated"), value, is_keyed),
        None => Ok(false),
    }
}

fn placing(key: Option<Columns>, replicated: bool) -> Placing
    ensures { result ≡ spec.placing key replicated }
{
    match key {
        Some(columns) => Placing::Keyed(columns),
        None if replicated => Placing::Everywhere,
        None => Placing::Dealt,
    }
}

fn has_name(tables: &[Table], name: &str) -> bool
    ensures { result ≡ list_any (λ table. bytes_eq table.schema.name name.now) tables.now }
{
    tables
        .iter()
        .any(|table| table.schema.name.as_str() == name)
}

// The name of a table after these.
#[tactic(auto, using(crate::proofs::NameLemmas::among_tables))]
fn table_name_at<'v>(
    alloc: Global,
    place: Place<'_>,
    value: &'v Value,
    tables: &[Table],
) -> Result<&'v str, DocNo>
    ensures { Gives (λ name. name.now) result
        (spec.new_name_at (spec.names_of tables.now) (path_of place.entry) (view value.now)) }
{
    let name = name_at(alloc, place, value)?;
    if has_name(tables, name) {
        Err(place.no(alloc, Flaw::Repeated))
    } else {
        Ok(name)
    }
}

// What a table's members say of it but its rows, after these tables.
fn schema_at(
    alloc: Global,
    place: Place<'_>,
    value: &Value,
    tables: &[Table],
) -> Result<Schema, DocNo>
    ensures { Gives (λ x. x) result (spec.schema_at (spec.names_of tables.now) (path_of place.entry) (view value.now)) }
{
    let members = object_at(alloc, place, value)?;
    only(
        alloc,
        place,
        members,
        &["name", "columns", "key", "replicated", "rows"],
    )?;
    let name = required(alloc, place, value, "name")?;
    let name = table_name_at(alloc, place.member("name"), name, tables)?;
    let columns = required(alloc, place, value, "columns")?;
    let kinds = kinds_at(alloc, place.member("columns"), columns)?;
    let key = key_in(alloc, place, value, kinds.len())?;
    let replicated = replicated_in(alloc, place, value, key.is_some())?;
    Ok(Schema {
        name: Text::from_string(String::from_str(alloc, name)?),
        kinds,
        place: placing(key, replicated),
    })
}

// A table after these.
fn table_of(alloc: Global, place: Place<'_>, value: Value, tables: &[Table]) -> Result<Table, DocNo>
    ensures { Gives (λ x. x) result (spec.table_at (spec.names_of tables.now) (path_of place.entry) (view value)) }
{
    let schema = schema_at(alloc, place, &value, tables)?;
    let rows = taken(alloc, place, value, "rows")?;
    let rows = rows_of(alloc, place.member("rows"), rows, schema.kinds.as_slice())?;
    Ok(Table { schema, rows })
}

fn tables_from(alloc: Global, place: Place<'_>, values: Vec<Value>) -> Result<Tables, DocNo>
    ensures { Gives (λ x. x) result (spec.tables_from [] (path_of place.entry) 0 (items_view values.items)) }
{
    let mut tables = Items::new(alloc);
    let mut left = values.into_iter();
    let mut at = 0;
    'tables: while let Some(value) = left.next() {
        let table = table_of(alloc, place.item(at), value, tables.as_slice())?;
        tables.push(table)?;
        at += 1;
    }
    Ok(tables)
}

/// At most 64 tables, no two of one name. Takes their value of JSON apart as it reads.
pub(crate) fn tables_of(alloc: Global, place: Place<'_>, value: Value) -> Result<Tables, DocNo>
    ensures { Gives (λ x. x) result (spec.tables_at (path_of place.entry) (view value)) }
{
    let values = items_of(alloc, place, value, 0, MOST_TABLES)?;
    tables_from(alloc, place, values)
}
