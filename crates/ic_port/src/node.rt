// The hub of a segment, with its history.
ghost use Rattle.std.specs.Prelude.{◌≡◌, IfOk, slice_get};
ghost use Rattle.ic_base.specs.Settings.{AreChecked};
ghost use Rattle.ic_port.specs.Noding.{fresh, emitted_with, IsLawful};

use ic_base::{ConnEnd, Datagram, SegId, Settings};
use ic_hub::Hub;
use ic_law::{Entry, History};
use std::alloc::{AllocError, Global};
use std::marker::Model;

/// A hub that serves the worker of one query at a time, with all that it was asked and its replies. It is a port of that
/// worker.
#[derive(Drop)]
pub struct Node {
    pub(crate) hub: Hub,
    /// The last query that was begun, and 0 before the first.
    pub(crate) query: u32,
    /// Its ends here, and none once it was left.
    pub(crate) ends: Vec<ConnEnd>,
    pub(crate) entries: Vec<Entry>,
}

impl Model for Node {
    ghost use Rattle.ic_port.specs.Noding.{Noding, IsNode};

    ghost Value = { Noding };

    ghost view = { λ n. record {
      hub = n.hub;
      query = n.query;
      ends = n.ends.items;
      entries = n.entries.items;
    } };

    ghost invariant = { λ n. IsNode (record {
      hub = n.hub;
      query = n.query;
      ends = n.ends.items;
      entries = n.entries.items;
    }) };
}

impl Node {
    /// The node of a segment, of which no query has begun.
    pub fn new(
        alloc: Global,
        session: u32,
        at: SegId,
        settings: Settings,
    ) -> Result<Node, AllocError>
        requires { AreChecked settings }
        ensures { IfOk result (λ n. n ≡ fresh session at settings) }
    {
        Ok(Node {
            hub: Hub::new(alloc, session, at, settings)?,
            query: 0,
            ends: Vec::new(alloc),
            entries: Vec::new(alloc),
        })
    }

    /// Does nothing. Its clause: its hub stands for its entries, the laws of hubs hold of them, and the ends of its query are live here.
    pub fn lawful(&self)
        ensures { IsLawful self.now }
    {
        let _hub = &self.hub;
    }

    /// What the hub was asked, with its replies, oldest first.
    pub fn entries(&self) -> &[Entry]
        ensures { result.now ≡ self.now.entries }
    {
        self.entries.as_slice()
    }

    /// What was emitted with the entry at this place, from 0; nothing if there is no such entry. A call adds one entry at
    /// most: who notes how many there are before it so has the datagrams of that call.
    pub fn emitted(&self, place: usize) -> &[Datagram]
        ensures { result.now ≡ emitted_with (slice_get self.now.entries place) }
    {
        match self.entries.get(place) {
            Some(entry) => entry.reply.datagrams(),
            None => &[],
        }
    }

    /// The last query that was begun, and 0 before the first.
    pub fn query(&self) -> u32
        ensures { result ≡ self.now.query }
    {
        self.query
    }

    /// The ends of its query, and none once it was left.
    pub fn ends(&self) -> &[ConnEnd]
        ensures { result.now ≡ self.now.ends }
    {
        self.ends.as_slice()
    }

    /// Its segment.
    pub fn at(&self) -> SegId
        ensures { result ≡ self.now.hub.at }
    {
        self.hub.at()
    }

    pub fn session(&self) -> u32
        ensures { result ≡ self.now.hub.session }
    {
        self.hub.session()
    }

    /// Gives the entries alone. Takes no memory.
    pub fn into_history(self) -> History
        ensures { result ≡ self.entries }
    {
        History::from_vec(self.entries)
    }
}
