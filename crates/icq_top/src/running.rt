// A document, judged, loaded and run.
ghost use Rattle.std.specs.Prelude.{◌≡◌, ◌<◌, length, IfOk};
ghost use Rattle.icq_top.specs.Work.{IsRead, RunsDocument, IsBounded, HasTallies, AreAnswers};

use crate::judging::{judged, schemas_of};
use crate::print::Answer;
use crate::stop::Stop;
use gd_sim::{Feed, FirstRun, feeds_of, first_run, tallies_of};
use ic_base::Drops;
use ic_row::Rows;
use pl_read::Document;
use sqlite_items::Items;
use std::alloc::{AllocError, Global};
use tb_load::load;

/// The rounds after which a query is given up.
const ROUNDS: u64 = 100000;

/// A run of a document that ended, with what each of its queries gathers.
#[derive(Drop)]
pub struct Ran {
    pub session: u32,
    pub feeds: Vec<Feed>,
    pub run: FirstRun,
}

/// Judges the plans of a document, loads its tables and runs its queries over a network that loses these sends.
pub(crate) fn run_document(alloc: Global, document: Document, drops: &Drops) -> Result<Ran, Stop>
    requires { IsRead document }
    ensures { RunsDocument document result }
{
    let Document {
        session,
        segments,
        settings,
        tables,
        queries,
    } = document;
    let schemas = schemas_of(alloc, tables.as_slice())?;
    let plans = judged(alloc, queries, &schemas, segments, &settings)?;
    let Some(feeds) = feeds_of(alloc, &plans)? else {
        return Err(Stop::NotBuilt);
    };
    let tables = Document {
        session,
        segments,
        settings,
        tables,
        queries: Items::new(alloc),
    };
    let loaded = load(alloc, tables)?;
    let run = first_run(
        alloc, session, &plans, &loaded, settings, segments, drops, ROUNDS,
    )?;
    Ok(Ran {
        session,
        feeds,
        run,
    })
}

/// The answer of the query of this place, from 0.
fn answer_of<'r>(
    alloc: Global,
    ran: &'r Ran,
    place: usize,
    rows: &'r Rows,
) -> Result<Answer<'r>, AllocError>
    requires bounded { IsBounded ran.now }
    requires there { place < length ran.now.feeds.items }
    ensures rows { IfOk result (λ a. a.rows.now ≡ rows.now) }
    ensures told { IfOk result (λ a. HasTallies ran.now place a) }
{
    let feed = ran.feeds[place];
    let query = (place + 1) as u32;
    let tallies = tallies_of(alloc, &ran.run.histories, ran.session, query, feed.senders)?;
    Ok(Answer {
        rows: rows.as_slice(),
        tallies,
    })
}

/// The answers of the queries that are over, in order. Takes memory for their tallies.
pub(crate) fn answers_of<'r>(alloc: Global, ran: &'r Ran) -> Result<Vec<Answer<'r>>, AllocError>
    requires { IsBounded ran.now }
    ensures { IfOk result (λ answers. AreAnswers ran.now answers.items) }
{
    let mut answers = Vec::new(alloc);
    let mut place = 0;
    for rows in ran.run.rows.as_slice() {
        answers.push(answer_of(alloc, ran, place, rows)?)?;
        place += 1;
    }
    Ok(answers)
}
