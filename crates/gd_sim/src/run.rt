// A whole run.
ghost use Rattle.std.specs.Prelude.{◌≡◌, ◌<◌, ◌≤◌, [], length, IfOk};
ghost use Rattle.std.specs.List.{AllByRecursion};
ghost use Rattle.ic_base.specs.Settings.{AreChecked};
ghost use Rattle.pl_ops.specs.Placed.{rows_at};
ghost use Rattle.gd_sim.specs.Feeding.{IsFeed};
ghost use Rattle.gd_sim.specs.Run.{IsRun};
ghost use Rattle.gd_sim.specs.Playing.{Gather, nodes_of};
ghost use Rattle.gd_sim.specs.Stations.{AreLawful};
ghost use Rattle.gd_sim.specs.Beginning.{IsBeginning};
ghost use Rattle.gd_sim.specs.Runs.{query_fault, GivesRows, CanStart, Starts, Ends, Stands, GoesOn, EndAll};

use crate::begin::Beginning;
use crate::fault::SimNo;
use crate::feed::Feed;
use crate::sim::Sim;
use crate::station::Worker;
use ic_base::{ConnKey, Drops, Settings};
use ic_law::Histories;
use ic_row::Rows;
use pl_ops::Loaded;
use std::alloc::{AllocError, Global};
use std::marker::Model;
use std::mem;

/// Why a query isn't over. It ends the run.
#[derive(Clone, Copy, Debug, PartialEq, Eq)]
pub enum FirstNo {
    /// After so many rounds a worker wasn't done, or a node hadn't left the query.
    Unfinished(u64),
    /// The network's: a packet of this number, or the status query after it, was sent again so often without an answer.
    Spent { key: ConnKey, seq: u32, tries: u32 },
    /// The query's: the numbers of packets of this connection are used up.
    TooLong(ConnKey),
}

/// The rows of each query that is over, in order, seen as a list.
#[derive(Drop)]
pub struct RowLists {
    items: Vec<Rows>,
}

impl Model for RowLists {
    ghost use Rattle.std.specs.Prelude.{List};
    ghost use Rattle.ic_row.specs.Values.{Datum};

    ghost Value = { List (List (List Datum)) };

    ghost view = { λ r. r.items.items };
}

impl RowLists {
    ghost use Rattle.std.specs.Prelude.{◌≡◌};

    /// Takes no memory.
    pub fn from_vec(items: Vec<Rows>) -> RowLists
        ensures { result ≡ items.items }
    {
        RowLists { items }
    }

    pub fn as_slice(&self) -> &[Rows]
        ensures { result.now ≡ self.now }
    {
        self.items.as_slice()
    }
}

/// A run that ended.
#[derive(Drop)]
pub struct FirstRun {
    /// The rows of each query that is over, in the order in which the dispatcher let them out.
    pub rows: RowLists,
    /// What each node was asked and replied, the dispatcher's first.
    pub histories: Histories,
    /// Why the query after these isn't over, if one isn't.
    pub fault: Option<FirstNo>,
}

/// Why one query isn't over.
pub(crate) enum QueryNo {
    Fault(FirstNo),
    /// Nobody's: out of memory.
    Memory,
}

impl From<SimNo> for QueryNo {
    ghost from_gives = { λ no_ e. e ≡ query_fault no_ };

    fn from(no: SimNo) -> QueryNo {
        match no {
            SimNo::Spent { key, seq, tries } => QueryNo::Fault(FirstNo::Spent { key, seq, tries }),
            SimNo::TooLong(key) => QueryNo::Fault(FirstNo::TooLong(key)),
            SimNo::Memory => QueryNo::Memory,
        }
    }
}

/// What all queries of a run have in common.
#[derive(Clone, Copy)]
struct Common {
    session: u32,
    segments: u32,
    settings: Settings,
    rounds: u64,
}

/// Takes the rows of a worker, who rests from then on.
fn take_rows(alloc: Global, worker: &mut Worker) -> Rows
    ensures { GivesRows worker.old result }
{
    match mem::replace(worker, Worker::Rests) {
        Worker::Takes(gatherer) => gatherer.into_rows(),
        _ => Rows::new(alloc),
    }
}

impl Sim {
    /// Runs one query, and gives the rows that the dispatcher let out.
    fn run_query(
        &mut self,
        alloc: Global,
        beginning: &Beginning,
        loaded: &Loaded,
        table: u32,
        rounds: u64,
    ) -> Result<Rows, QueryNo>
        requires some { 0 < length self.old.stations.items }
        requires beginning { IsBeginning beginning.now }
        requires can { CanStart beginning.now (rows_at loaded.now table) self.old }
        ensures { (g : Gather) → Starts g beginning.now (rows_at loaded.now table) self.old → Ends rounds g self.old self.new result }
    {
        if self.begin(alloc, beginning).is_err() {
            return Err(QueryNo::Memory);
        }
        if !self.rounds(alloc, loaded, table, rounds)? {
            return Err(QueryNo::Fault(FirstNo::Unfinished(rounds)));
        }
        Ok(take_rows(alloc, &mut self.stations[0].worker))
    }

    /// Runs the query of a feed after those that are over with these rows, and puts its rows after these. Tells why it
    /// isn't over, if it isn't.
    fn run_next(
        &mut self,
        alloc: Global,
        common: &Common,
        feeds: &[Feed],
        loaded: &Loaded,
        place: usize,
        lists: &mut Vec<Rows>,
    ) -> Result<Option<FirstNo>, AllocError>
        requires settings { AreChecked common.now.settings }
        requires few { length feeds.now ≤ 64 }
        requires most { common.now.segments ≤ 64 }
        requires feeds { AllByRecursion (IsFeed common.now.segments loaded.now) feeds.now }
        requires here { place < length feeds.now }
        requires next { place ≡ length lists.old.items }
        requires stands { Stands common.now.session common.now.segments common.now.settings loaded.now feeds.now self.old lists.old.items }
        ensures { IfOk result (GoesOn common.now.session common.now.segments common.now.rounds common.now.settings loaded.now feeds.now self.new lists.old.items lists.new.items) }
    {
        let feed = feeds[place];
        let beginning = Beginning {
            session: common.session,
            query: place as u32 + 1,
            packet: common.settings.packet,
            senders: feed.senders,
        };
        match self.run_query(alloc, &beginning, loaded, feed.table, common.rounds) {
            Ok(rows) => {
                lists.push(rows)?;
                Ok(None)
            }
            Err(QueryNo::Fault(fault)) => Ok(Some(fault)),
            Err(QueryNo::Memory) => Err(AllocError),
        }
    }

    /// Runs the queries of all feeds, and puts their rows in order. Tells why one isn't over, if one isn't.
    fn run_all(
        &mut self,
        alloc: Global,
        common: &Common,
        feeds: &[Feed],
        loaded: &Loaded,
        lists: &mut Vec<Rows>,
    ) -> Result<Option<FirstNo>, AllocError>
        requires settings { AreChecked common.now.settings }
        requires few { length feeds.now ≤ 64 }
        requires most { common.now.segments ≤ 64 }
        requires feeds { AllByRecursion (IsFeed common.now.segments loaded.now) feeds.now }
        requires first { lists.old.items ≡ [] }
        requires stands { Stands common.now.session common.now.segments common.now.settings loaded.now feeds.now self.old [] }
        ensures { IfOk result (EndAll common.now.session common.now.segments common.now.rounds common.now.settings loaded.now feeds.now self.new lists.new.items) }
    {
        for place in 0..feeds.len() {
            let fault = self.run_next(alloc, common, feeds, loaded, place, lists)?;
            if fault.is_some() {
                return Ok(fault);
            }
        }
        Ok(None)
    }

    /// The laws of hubs hold at each node. Has nothing to run.
    fn lawful(&self)
        ensures { AreLawful self.now.stations.items }
    {
        for station in &self.stations {
            station.node.lawful();
        }
    }

    /// The histories of all nodes, the dispatcher's first.
    fn into_histories(self, alloc: Global) -> Result<Histories, AllocError>
        ensures { IfOk result (λ h. h ≡ nodes_of self.stations.items) }
    {
        let mut histories = Vec::with_capacity(alloc, self.stations.len())?;
        for station in self.stations {
            histories.push(station.node.into_history())?;
        }
        Ok(Histories::from_vec(histories))
    }
}

/// Runs the queries of a session one after another, each for at most so many rounds, over a network that loses the
/// sends with the numbers of `drops`. The first fault ends the run.
///
/// A round has four steps. Each worker takes turns until it waits or is done, 256 at most, those that send by segment
/// and the dispatcher's last. Each node, the dispatcher's first, receives until nothing is kept for it, 1024 datagrams at
/// most. The clock of each node for which nothing was under way at its last receive goes on. Each node whose worker is done
/// leaves the query, if each of its connections is over. A query is over when every node has left it.
///
/// Keeps every entry of every node; the bytes of a datagram are kept once.
pub fn run_feeds(
    alloc: Global,
    session: u32,
    feeds: &[Feed],
    loaded: &Loaded,
    settings: Settings,
    segments: u32,
    drops: &Drops,
    rounds: u64,
) -> Result<FirstRun, AllocError>
    requires checked { AreChecked settings }
    requires least { 1 ≤ segments }
    requires most { segments ≤ 64 }
    requires few { length feeds.now ≤ 64 }
    requires feeds { AllByRecursion (IsFeed segments loaded.now) feeds.now }
    ensures { IfOk result (IsRun session segments rounds settings loaded.now feeds.now) }
{
    let drops = Drops::from_vec(Vec::from_slice(alloc, drops.as_slice())?);
    let mut sim = Sim::new(alloc, session, settings, segments, drops)?;
    let common = Common {
        session,
        segments,
        settings,
        rounds,
    };
    let mut lists = Vec::with_capacity(alloc, feeds.len())?;
    let fault = sim.run_all(alloc, &common, feeds, loaded, &mut lists)?;
    sim.lawful();
    let histories = sim.into_histories(alloc)?;
    Ok(FirstRun {
        rows: RowLists::from_vec(lists),
        histories,
        fault,
    })
}
