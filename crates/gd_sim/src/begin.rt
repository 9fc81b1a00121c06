// A query as it begins at each node, and a session before its first query.
ghost use Rattle.std.specs.Prelude.{◌≡◌, ◌<◌, ◌≤◌, ◌+◌, ◌≤ℤ◌, pos, negsuc, length, map, Bool, false, Some, slice_get, IfOk, OnOk, ℕ};
ghost use Rattle.std.specs.List.{range_with_len};
ghost use Rattle.ic_base.specs.Settings.{AreChecked};
ghost use Rattle.gd_law.specs.Answers.{gather_end};
ghost use Rattle.ic_port.specs.Noding.{fresh};
ghost use Rattle.gd_sim.specs.Beginning.{ends_of, IsBeginning, IsFreshScanner, IsFreshWorker, BeginsAt, CanBeginAt, CanBegin, AllBegin, IsNew};

use crate::fault::SimNo;
use crate::sim::Sim;
use crate::station::{Station, Worker};
use gd_net::Network;
use gd_work::{Gatherer, Scanner};
use ic_base::{ConnEnd, ConnKey, Drops, SegId, Settings};
use ic_port::Node;
use std::alloc::{AllocError, Global};

/// The number of the one motion of a gather.
const MOTION: u32 = 1;

/// What begins: a query of a session in packets of this many bytes, with so many segments that send.
#[derive(Clone, Copy)]
pub(crate) struct Beginning {
    pub session: u32,
    pub query: u32,
    pub packet: u32,
    pub senders: u32,
}

/// The segment of this number, from 0.
fn segment(number: u32) -> SegId
    requires { number < 64 }
    ensures { result ≡ pos number }
{
    let Some(id) = SegId::new(number as i32) else {
        unreachable!();
    };
    id
}

impl Beginning {
    /// An end of the connection from this segment.
    fn end(&self, sending: bool, from: u32) -> ConnEnd
        requires { from < 64 }
        ensures { result ≡ gather_end self.now.session self.now.query sending from }
    {
        let key = ConnKey {
            session: self.session,
            query: self.query,
            motion: MOTION,
            from: segment(from),
            to: SegId::DISPATCHER,
        };
        ConnEnd {
            key,
            sending,
            send_slice: 1,
            recv_slice: 0,
        }
    }

    /// The ends of the dispatcher.
    fn receiving(&self, alloc: Global) -> Result<Vec<ConnEnd>, AllocError>
        requires { self.now.senders ≤ 64 }
        ensures { IfOk result (λ ends. ends.items ≡ map (gather_end self.now.session self.now.query false) (range_with_len 0 self.now.senders)) }
    {
        let mut ends = Vec::with_capacity(alloc, self.senders as usize)?;
        for from in 0..self.senders {
            ends.push(self.end(false, from))?;
        }
        Ok(ends)
    }

    /// The ends of a segment.
    fn ends_at(&self, alloc: Global, at: SegId) -> Result<Vec<ConnEnd>, AllocError>
        requires { self.now.senders ≤ 64 }
        ensures ends { IfOk result (λ ends. ends.items ≡ ends_of self.now at) }
        ensures least { negsuc 0 ≤ℤ at }
    {
        if at.number() < 0 {
            return self.receiving(alloc);
        }
        let number = at.number() as u32;
        let mut ends = Vec::new(alloc);
        if number < self.senders {
            ends.push(self.end(true, number))?;
        }
        Ok(ends)
    }

    /// A scanner that sends to the dispatcher.
    fn scanner(&self, alloc: Global) -> Result<Scanner, AllocError>
        requires { IsBeginning self.now }
        ensures { IfOk result (IsFreshScanner self.now) }
    {
        Scanner::new(alloc, MOTION, SegId::DISPATCHER, self.packet)
    }

    /// The worker of a segment.
    fn worker_at(&self, alloc: Global, at: SegId) -> Result<Worker, AllocError>
        requires { IsBeginning self.now }
        ensures { IfOk result (IsFreshWorker self.now at) }
    {
        if at.number() < 0 {
            return Ok(Worker::Takes(Gatherer::new(alloc, MOTION)?));
        }
        if at.number() as u32 >= self.senders {
            return Ok(Worker::Rests);
        }
        Ok(Worker::Sends(self.scanner(alloc)?))
    }
}

impl Station {
    /// The station of a segment that served no query yet.
    fn new(
        alloc: Global,
        session: u32,
        at: SegId,
        settings: Settings,
    ) -> Result<Station, AllocError>
        requires { AreChecked settings }
        ensures { IfOk result (λ s. s.node ≡ fresh session at settings) }
    {
        Ok(Station {
            node: Node::new(alloc, session, at, settings)?,
            worker: Worker::Rests,
            quiet: false,
            left: true,
        })
    }

    /// The query begins here. A later one than the last is refused only if memory runs out.
    fn begin(&mut self, alloc: Global, beginning: &Beginning) -> Result<(), SimNo>
        requires beginning { IsBeginning beginning.now }
        requires can { CanBeginAt beginning.now self.old }
        ensures { OnOk result (BeginsAt beginning.now self.old self.new) }
    {
        let at = self.node.at();
        let ends = beginning.ends_at(alloc, at)?;
        let worker = beginning.worker_at(alloc, at)?;
        if self.node.begin(alloc, beginning.query, ends).is_err() {
            return Err(SimNo::Memory);
        }
        self.worker = worker;
        self.quiet = false;
        self.left = false;
        Ok(())
    }
}

impl Sim {
    /// The dispatcher, so many segments and the network between them, which loses the sends with these numbers.
    pub(crate) fn new(
        alloc: Global,
        session: u32,
        settings: Settings,
        segments: u32,
        drops: Drops,
    ) -> Result<Sim, AllocError>
        requires checked { AreChecked settings }
        requires most { segments ≤ 64 }
        ensures { IfOk result (IsNew session segments settings drops) }
    {
        let mut stations = Vec::with_capacity(alloc, segments as usize + 1)?;
        stations.push(Station::new(alloc, session, SegId::DISPATCHER, settings)?)?;
        for number in 0..segments {
            stations.push(Station::new(alloc, session, segment(number), settings)?)?;
        }
        let network = Network::new(alloc, segments, drops)?;
        Ok(Sim { stations, network })
    }

    /// The query begins at each station, the dispatcher's first.
    pub(crate) fn begin(&mut self, alloc: Global, beginning: &Beginning) -> Result<(), SimNo>
        requires beginning { IsBeginning beginning.now }
        requires can { CanBegin beginning.now self.old }
        ensures { OnOk result (AllBegin beginning.now self.old self.new) }
    {
        for place in 0..self.stations.len() {
            self.stations[place].begin(alloc, beginning)?;
        }
        Ok(())
    }
}
