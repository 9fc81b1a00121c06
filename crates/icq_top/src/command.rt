// The command `sim`, from the words and the bytes to the text.
ghost use Rattle.std.specs.Prelude.{◌≡◌, ◌≢◌, ◌≤◌, ◌⊎◌, None, IsErrOf, OnOk, map, string_bytes};
ghost use Rattle.std.specs.Io.KnownBytes.{IsAtEnd};
ghost use Rattle.ic_edge.specs.Causes.{Rose};
ghost use Rattle.icq_top.specs.Words.{drops_of_words};
ghost use Rattle.icq_top.specs.Outcome.{IsDelivered, IsEnded, IsFaultStatus, IsRunStatus, HasCauses, IsWritten, IsCutShort};
ghost use Rattle.icq_top.specs.Work.{GivesDrops, GivesDocument, Works, IsBounded, IsTold, Says, StopWrites, EndWrites, RanWrites, PrintsRun, HandsBack};

use crate::line::{Broken, Line};
use crate::print::{PrintNo, print_answers};
use crate::running::{Ran, answers_of, run_document};
use crate::stop::{Stop, fault_status};
use crate::words::{WordsNo, read_words};
use gd_sim::FirstRun;
use ic_base::Drops;
use ic_edge::{Failed, ReadNo, Sink, Source, read_whole, write_all};
use ic_law::Histories;
use pl_read::{DocNo, Document, read_document};
use std::alloc::Global;

/// The most bytes that are read.
const LIMIT: usize = 67108864;

/// The line of status 10, which takes no memory.
const MEMORY: &[u8] = b"error 10 memory\n";

/// The histories of a run, for whoever wants to read more from them than was printed.
#[derive(Drop)]
pub enum Ended {
    /// One history per node, the dispatcher's first.
    Traced(Histories),
}

/// What the program answers.
#[derive(Drop)]
pub struct Report {
    /// The exit status.
    pub status: u8,
    /// With the statuses of a run that ended, 0, 8, 9 and 12.
    pub ended: Option<Ended>,
}

// The document that the source gives.
fn read_source<S: Source>(alloc: Global, source: &mut S) -> Result<Document, Stop>
    ensures document { GivesDocument (S.left source.old) result }
    ensures end { OnOk result (IsAtEnd (S.left source.new)) }
    ensures failed { IsErrOf result Stop.ReadFault → Rose (S.count source.old) (S.count source.new) }
    ensures later { S.count source.old ≤ S.count source.new }
{
    let bytes = match read_whole(alloc, source, LIMIT) {
        Ok(bytes) => bytes,
        Err(ReadNo::Failed) => return Err(Stop::ReadFault),
        Err(ReadNo::TooLong) => return Err(Stop::TooLong),
        Err(ReadNo::Memory) => return Err(Stop::Memory),
    };
    match read_document(alloc, bytes.as_slice()) {
        Ok(document) => Ok(document),
        Err(DocNo::Fault(fault)) => Err(Stop::Unread(fault)),
        Err(DocNo::Memory) => Err(Stop::Memory),
    }
}

// The sends that the words lose.
fn drops_of(alloc: Global, words: &[String]) -> Result<Drops, Stop>
    ensures { GivesDrops (drops_of_words (map string_bytes words.now)) result }
{
    match read_words(alloc, words) {
        Ok(drops) => Ok(drops),
        Err(WordsNo::Usage) => Err(Stop::Usage),
        Err(WordsNo::Memory) => Err(Stop::Memory),
    }
}

// All but the printing.
fn work<S: Source>(alloc: Global, words: &[String], source: &mut S) -> Result<Ran, Stop>
    ensures works { Works (map string_bytes words.now) (S.left source.old) result }
    ensures usage { drops_of_words (map string_bytes words.now) ≡ None → (result ≡ Err Stop.Usage) ⊎ (result ≡ Err Stop.Memory) }
    ensures end { OnOk result (IsAtEnd (S.left source.new)) }
    ensures failed { IsErrOf result Stop.ReadFault → Rose (S.count source.old) (S.count source.new) }
    ensures later { S.count source.old ≤ S.count source.new }
{
    let drops = drops_of(alloc, words)?;
    let document = read_source(alloc, source)?;
    run_document(alloc, document, &drops)
}

// Writes a text, which is all that there is to write with this status.
fn tell<K: Sink>(sink: &mut K, text: &[u8], status: u8, ended: Option<Ended>) -> Report
    requires { status ≢ 5 }
    ensures told { IsTold (Says status text.now) (K.wrote sink.old) (K.wrote sink.new) result.status }
    ensures failed { result.status ≡ 5 → Rose (K.count sink.old) (K.count sink.new) × (result.ended ≡ None) }
    ensures ended { result.status ≢ 5 → (result.status ≡ status) × (result.ended ≡ ended) }
    ensures later { K.count sink.old ≤ K.count sink.new }
{
    match write_all(sink, text) {
        Ok(()) => Report { status, ended },
        Err(Failed) => Report {
            status: 5,
            ended: None,
        },
    }
}

/// The answer to a stop, which is told by its line. Takes memory for the line; without memory the status is 10.
pub fn refuse<K: Sink>(alloc: Global, sink: &mut K, stop: &Stop) -> Report
    ensures told { IsTold (StopWrites stop.now) (K.wrote sink.old) (K.wrote sink.new) result.status }
    ensures failed { result.status ≡ 5 → Rose (K.count sink.old) (K.count sink.new) }
    ensures later { K.count sink.old ≤ K.count sink.new }
    ensures ended { result.ended ≡ None }
{
    let mut line = String::new(alloc);
    match stop.push_line(&mut line) {
        Ok(()) => tell(sink, line.as_bytes(), stop.status(), None),
        Err(_) => tell(sink, MEMORY, 10, None),
    }
}

// The last line of a run that ended, if it has one, and what is handed back.
fn end<K: Sink>(alloc: Global, sink: &mut K, run: FirstRun) -> Report
    ensures told { IsTold (EndWrites run) (K.wrote sink.old) (K.wrote sink.new) result.status }
    ensures ended { HandsBack run result.status result.ended }
    ensures failed { result.status ≡ 5 → Rose (K.count sink.old) (K.count sink.new) }
    ensures later { K.count sink.old ≤ K.count sink.new }
{
    let FirstRun {
        rows,
        histories,
        fault,
    } = run;
    let Some(fault) = fault else {
        return Report {
            status: 0,
            ended: Some(Ended::Traced(histories)),
        };
    };
    let query = rows.as_slice().len() + 1;
    let broken = Broken { query, fault };
    let mut line = String::new(alloc);
    match broken.push_line(&mut line) {
        Ok(()) => tell(
            sink,
            line.as_bytes(),
            fault_status(&fault),
            Some(Ended::Traced(histories)),
        ),
        Err(_) => tell(sink, MEMORY, 10, None),
    }
}

// The answers of the queries that are over.
fn print_run<K: Sink>(alloc: Global, sink: &mut K, ran: &Ran) -> Result<(), PrintNo>
    requires { IsBounded ran.now }
    ensures printed { PrintsRun (K.wrote sink.old) (K.wrote sink.new) ran.now result }
    ensures cause { IsErrOf result PrintNo.Failed → Rose (K.count sink.old) (K.count sink.new) }
    ensures later { K.count sink.old ≤ K.count sink.new }
{
    let answers = answers_of(alloc, ran)?;
    let mut buffer = String::new(alloc);
    print_answers(sink, &mut buffer, answers.as_slice())
}

// The answer to a run: the answers of the queries that are over, and the line of its fault.
fn answered<K: Sink>(alloc: Global, sink: &mut K, ran: Ran) -> Report
    requires { IsBounded ran }
    ensures told { IsTold (RanWrites ran) (K.wrote sink.old) (K.wrote sink.new) result.status }
    ensures ended { HandsBack ran.run result.status result.ended }
    ensures failed { result.status ≡ 5 → Rose (K.count sink.old) (K.count sink.new) }
    ensures later { K.count sink.old ≤ K.count sink.new }
{
    match print_run(alloc, sink, &ran) {
        Ok(()) => end(alloc, sink, ran.run),
        Err(PrintNo::Failed) => Report {
            status: 5,
            ended: None,
        },
        Err(PrintNo::Memory) => tell(sink, MEMORY, 10, None),
    }
}

/// Does `sim`: reads the words and the source, judges the document's plans, runs each query over a network that loses the
/// sends of `drop`, and writes rows and tallies, or the one line of another status.
///
/// The words are `sim`, and after it at most one word `drop=N,..` of 1 to 64 increasing numbers from 1 to 4294967295.
/// It reads at most 67108864 bytes and a piece more. Each line is handed to the sink in a write of its own. What the
/// queries that are over have to say stands before the line of a fault.
pub fn sim_command<S: Source, K: Sink>(
    alloc: Global,
    words: &[String],
    source: &mut S,
    sink: &mut K,
) -> Report
    // With 0 the rows of each query were delivered, whatever was lost, and their text was written.
    ensures delivered { result.status ≡ 0 → IsDelivered (map string_bytes words.now) (S.left source.old) (K.wrote sink.old) (K.wrote sink.new) result.ended }
    // With 8, 9 and 12 the queries before the one that isn't over were, and the run ended for that cause.
    ensures faulted { IsFaultStatus result.status → IsEnded (map string_bytes words.now) (S.left source.old) (K.wrote sink.old) (K.wrote sink.new) result.status result.ended }
    ensures end { IsRunStatus result.status → IsAtEnd (S.left source.new) }
    ensures ended { (IsRunStatus result.status → ⊥) → result.ended ≡ None }

    // 4 comes only if the source failed, and 10 freely. Each other status but 5 comes exactly if the words and
    // the bytes lead to it, if the source tells its bytes; 0, 8, 9 and 12 if they lead to a run.
    ensures status { result.status ≢ 5 → HasCauses (map string_bytes words.now) (S.left source.old) (S.count source.old) (S.count source.new) result.status }
    ensures written { result.status ≢ 5 → IsWritten (map string_bytes words.now) (S.left source.old) (K.wrote sink.old) (K.wrote sink.new) result.status }

    // With 5 the sink failed, and took a front of what another status would have written.
    ensures failed { result.status ≡ 5 → Rose (K.count sink.old) (K.count sink.new) }
    ensures cut { result.status ≡ 5 → IsCutShort (map string_bytes words.now) (S.left source.old) (S.count source.old) (S.count source.new) (K.wrote sink.old) (K.wrote sink.new) }
    ensures later { (S.count source.old ≤ S.count source.new) × (K.count sink.old ≤ K.count sink.new) }
{
    match work(alloc, words, source) {
        Ok(ran) => answered(alloc, sink, ran),
        Err(stop) => refuse(alloc, sink, &stop),
    }
}
