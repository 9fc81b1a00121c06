// The hub of a segment.
ghost use Rattle.std.specs.Prelude.{◌≡◌, [], IfOk};
ghost use Rattle.ic_base.specs.Settings.{AreChecked};
ghost use Rattle.ic_hub.specs.Hubbing.{fresh};
ghost use Rattle.ic_hub.specs.Standing.{Stands};

use crate::query::Query;
use ic_base::{SegId, Settings};
use ic_conntab::ConnTable;
use std::alloc::{AllocError, Global};
use std::marker::Model;

/// All connections of one segment in one session.
///
/// Seen as its session, segment and settings, the tick, how many datagrams it dropped, the greatest query that has ended,
/// and the live queries by number, each with its connections.
#[derive(Drop)]
pub struct Hub {
    pub(crate) session: u32,
    pub(crate) at: SegId,
    pub(crate) settings: Settings,
    /// The tick, from 0.
    pub(crate) tick: u64,
    pub(crate) dropped: u64,
    /// The connections of the live queries, and which queries have ended.
    pub(crate) table: ConnTable,
    /// The live queries, by number.
    pub(crate) live: Vec<Query>,
}

impl Model for Hub {
    ghost use Rattle.ic_hub.specs.Hubbing.{Hubbing, IsHub};

    ghost Value = { Hubbing };

    ghost view = { λ b. record {
      session = b.session;
      at = b.at;
      settings = b.settings;
      tick = b.tick;
      dropped = b.dropped;
      top = b.table.top;
      live = b.live.items;
    } };

    ghost invariant = { λ b. IsHub (record {
      session = b.session;
      at = b.at;
      settings = b.settings;
      tick = b.tick;
      dropped = b.dropped;
      top = b.table.top;
      live = b.live.items;
    }) b.table };
}

impl Hub {
    /// The hub of a segment at tick 0, of which no query has begun.
    pub fn new(
        alloc: Global,
        session: u32,
        at: SegId,
        settings: Settings,
    ) -> Result<Hub, AllocError>
        requires { AreChecked settings }
        ensures fresh { IfOk result (λ b. b ≡ fresh session at settings) }
        ensures stands { IfOk result (λ b. Stands b []) }
    {
        Ok(Hub {
            session,
            at,
            settings,
            tick: 0,
            dropped: 0,
            table: ConnTable::new(alloc, session)?,
            live: Vec::new(alloc),
        })
    }

    /// How many datagrams that came were dropped. Stands still at its greatest value.
    pub fn dropped(&self) -> u64
        ensures { result ≡ self.now.dropped }
    {
        self.dropped
    }

    pub fn session(&self) -> u32
        ensures { result ≡ self.now.session }
    {
        self.session
    }

    /// Its segment.
    pub fn at(&self) -> SegId
        ensures { result ≡ self.now.at }
    {
        self.at
    }

    pub fn settings(&self) -> Settings
        ensures { result ≡ self.now.settings }
    {
        self.settings
    }
}
