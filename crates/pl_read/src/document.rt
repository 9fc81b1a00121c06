// The document whole.
ghost use Rattle.std.specs.Prelude.{◌≡◌, ◌<◌, ◌^◌, length, codes, IfOk};
ghost use Rattle.serde_json.specs.View.{view};
ghost use Rattle.pl_read.specs.Paths.{path_of};
ghost use Rattle.pl_read.specs.Faults.{Gives};
ghost use Rattle.pl_read.specs.Members.{needed};
ghost use Rattle.pl_read.specs.Tables.{tables_at};
ghost use Rattle.pl_read.specs.Nodes.{plans_at};
ghost use Rattle.pl_read.specs.Documents as spec;
ghost use Rattle.pl_read.specs.Limits.{IsDocument, HasShortTexts};

use crate::fault::{DocNo, Flaw};
use crate::member::{object_at, only, required, taken};
use crate::node::{Plans, plans_at};
use crate::parse::{ParseNo, parse};
use crate::place::Place;
use crate::settings::settings_in;
use crate::table::{Tables, tables_of};
use crate::value::number_in;
use ic_base::Settings;
use serde_json::Value;
use std::alloc::Global;

/// The greatest session.
const LAST_SESSION: u64 = 2147483647;

/// The most segments.
const MOST_SEGMENTS: u64 = 64;

/// A document: tables, and the queries that are run over them.
#[derive(Drop, Debug)]
pub struct Document {
    /// 1..=2147483647.
    pub session: u32,
    /// How many segments there are, 1..=64.
    pub segments: u32,
    /// The default ones if the document has none.
    pub settings: Settings,
    /// At most 64.
    pub tables: Tables,
    /// At most 64. The one at place i, from 0, has the number i + 1.
    pub queries: Plans,
}

fn tables_in(alloc: Global, place: Place<'_>, document: Value) -> Result<Tables, DocNo>
    ensures { Gives (λ x. x) result (needed tables_at (path_of place.entry) (codes "tables") (view document)) }
{
    let tables = taken(alloc, place, document, "tables")?;
    tables_of(alloc, place.member("tables"), tables)
}

fn queries_in(alloc: Global, place: Place<'_>, document: &Value) -> Result<Plans, DocNo>
    ensures { Gives (λ x. x) result (needed plans_at (path_of place.entry) (codes "queries") (view document.now)) }
{
    let queries = required(alloc, place, document, "queries")?;
    plans_at(alloc, place.member("queries"), queries)
}

fn document_of(alloc: Global, place: Place<'_>, value: Value) -> Result<Document, DocNo>
    ensures { Gives (λ x. x) result (spec.document_at (path_of place.entry) (view value)) }
{
    let members = object_at(alloc, place, &value)?;
    only(
        alloc,
        place,
        members,
        &["session", "segments", "settings", "tables", "queries"],
    )?;
    let session = number_in(alloc, place, &value, "session", 1, LAST_SESSION)?;
    let segments = number_in(alloc, place, &value, "segments", 1, MOST_SEGMENTS)?;
    let settings = settings_in(alloc, place, &value)?;
    // Read while the value is whole, and judged after the tables, which take it apart.
    let queries = queries_in(alloc, place, &value);
    let tables = tables_in(alloc, place, value)?;
    Ok(Document {
        session: session as u32,
        segments: segments as u32,
        settings,
        tables,
        queries: queries?,
    })
}

/// Reads a document. Each text and each value of a row is copied once.
///
/// Takes time and memory in proportion to the bytes; the value of JSON is freed before it returns.
pub fn read_document(alloc: Global, bytes: &[u8]) -> Result<Document, DocNo>
    // The document that the bytes say, or the first fault.
    ensures exact { Gives (λ x. x) result (spec.reading bytes.now) }
    // Each number in its range, each plan and table as large as they may be, each row with a value of its kind,
    // or null, for each column.
    ensures limits { IfOk result IsDocument }
    // Of fewer bytes than 2 ^ 32: no text of a row is too long to be spelled, for none is longer than the bytes.
    ensures texts { length bytes.now < 2 ^ 32 → IfOk result HasShortTexts }
{
    match parse(alloc, bytes) {
        Ok(value) => document_of(alloc, Place::Document, value),
        Err(ParseNo::NoJson) => Err(Place::Document.no(alloc, Flaw::NoJson)),
        Err(ParseNo::Memory) => Err(DocNo::Memory),
    }
}
