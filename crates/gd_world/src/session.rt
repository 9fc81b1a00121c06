// The nodes of a session, and its past.
ghost use Rattle.std.specs.Prelude.{◌≡◌, ◌<◌, ◌≤◌, ◌+◌, ◌≤ℤ◌, ℕ, List, [], length, slice_get, slice_set, None, Some, pos, negsuc, MatchOption, IfOk, OnOk, OnErr};
ghost use Rattle.ic_base.specs.Settings.{AreChecked};
ghost use Rattle.ic_law.specs.declared.history.HubAsk.TheVariants as ask;
ghost use Rattle.ic_law.specs.Streams.{node_of};
ghost use Rattle.ic_port.specs.Noding.{Noding, fresh};
ghost use Rattle.gd_world.specs.declared.step.Step.TheVariants as step;
ghost use Rattle.gd_world.specs.Events.{segment_at};
ghost use Rattle.gd_world.specs.Sessions.{AreLawful, sent_by, emitted_by, last_entry, IsSessionOf, Recalls};
ghost use Rattle.gd_world.specs.Inside.{StaysBy, Begins, CanBegin, EntersAsked, EntersLeft, AreFresh, IsIn, CanSit, TakesTurn, added};
ghost use Rattle.ex_slice.specs.Slicing.{working};

use crate::acting;
use crate::past::{Did, note};
use crate::step::Step;
use ex_slice::{Slice, SliceNo, Turned};
use ic_base::{ConnEnd, Datagram, SegId, Settings};
use ic_law::Entry;
use ic_port::Node;
use std::alloc::{AllocError, Global};
use std::marker::Model;

/// The nodes of a session, the dispatcher's first, and the steps that were done there, oldest first.
#[derive(Drop)]
pub struct Session {
    pub(crate) nodes: Vec<Node>,
    pub(crate) past: Vec<Did>,
}

impl Model for Session {
    ghost use Rattle.gd_world.specs.Sessions.{Sessional};

    ghost Value = { Sessional };

    ghost view = { λ s. record { nodes = s.nodes.items; past = s.past.items } };
}

/// The position of a segment's node.
pub(crate) fn place_of(at: SegId) -> usize
    ensures place { result ≡ node_of at }
    ensures back { at ≡ segment_at (node_of at) }
{
    (at.number() + 1) as usize
}

/// The segment of this number, from 0.
fn segment(number: u32) -> SegId
    requires { number < 64 }
    ensures { result ≡ pos number }
{
    let Some(id) = SegId::new(number as i32) else {
        unreachable!();
    };
    id
}

/// The place of the entry that a history got, if it has grown from so many.
fn added(seen: usize, now: usize) -> Option<usize>
    ensures { result ≡ added seen now }
{
    if seen < now { Some(seen) } else { None }
}

/// The same answer, to be kept.
fn kept(answer: &Result<Turned, SliceNo>) -> Result<Turned, SliceNo>
    ensures { result ≡ answer.now }
{
    *answer
}

impl Session {
    /// The dispatcher and so many segments, in which nothing was done.
    pub fn new(
        alloc: Global,
        session: u32,
        segments: u32,
        settings: Settings,
    ) -> Result<Session, AllocError>
        requires checked { AreChecked settings }
        requires most { segments ≤ 64 }
        ensures session { IfOk result (IsSessionOf session segments settings) }
        ensures recalls { IfOk result (Recalls []) }
        ensures fresh { IfOk result (AreFresh session segments settings) }
    {
        let mut nodes = Vec::with_capacity(alloc, segments as usize + 1)?;
        nodes.push(Node::new(alloc, session, SegId::DISPATCHER, settings)?)?;
        for number in 0..segments {
            nodes.push(Node::new(alloc, session, segment(number), settings)?)?;
        }
        Ok(Session {
            nodes,
            past: Vec::new(alloc),
        })
    }

    /// The nodes, the dispatcher's first.
    pub fn nodes(&self) -> &[Node]
        ensures { result.now ≡ self.now.nodes }
    {
        self.nodes.as_slice()
    }

    /// The steps that were done, oldest first.
    pub fn past(&self) -> &[Did]
        ensures { result.now ≡ self.now.past }
    {
        self.past.as_slice()
    }

    /// Does nothing but look at each node. Its clause: the laws of hubs hold at each.
    pub fn lawful(&self)
        ensures { AreLawful self.now.nodes }
    {
        for node in &self.nodes {
            node.lawful();
        }
    }

    /// What was emitted with the entry of a step.
    fn emitted(&self, did: &Did) -> &[Datagram]
        ensures { result.now ≡ emitted_by self.now.nodes did.now }
    {
        let Some(place) = did.entry() else {
            return &[];
        };
        match self.nodes.get(place_of(did.step().at())) {
            Some(node) => node.emitted(place),
            None => &[],
        }
    }

    /// The number of the session, and 0 if it has no nodes.
    pub(crate) fn number(&self) -> u32
        ensures { (n : Noding) → slice_get self.now.nodes 0 ≡ Some n → result ≡ n.hub.session }
    {
        match self.nodes.get(0) {
            Some(node) => node.session(),
            None => 0,
        }
    }

    /// The entry that the last step added to its node's history, if it added one.
    pub fn last_entry(&self) -> Option<&Entry>
        ensures { MatchOption result (last_entry self.now ≡ None) (λ e. last_entry self.now ≡ Some e.now) }
    {
        let count = self.past.len();
        if count == 0 {
            return None;
        }
        let did = &self.past[count - 1];
        let place = did.entry()?;
        match self.nodes.get(place_of(did.step().at())) {
            Some(node) => node.entries().get(place),
            None => None,
        }
    }

    /// The datagram that was emitted under this number, from 0, in another owner. Walks the past.
    pub fn sent(&self, number: u64) -> Result<Option<Datagram>, AllocError>
        ensures { IfOk result (λ datagram. datagram ≡ slice_get (sent_by self.now) number) }
    {
        let mut left = number;
        for did in &self.past {
            let datagrams = self.emitted(did);
            let count = datagrams.len() as u64;
            if left < count {
                return Ok(Some(datagrams[left as usize].share()?));
            }
            left -= count;
        }
        Ok(None)
    }

    /// The node of this segment begins a query. Room for the step is taken first.
    pub(crate) fn begin(
        &mut self,
        alloc: Global,
        at: SegId,
        query: u32,
        ends: Vec<ConnEnd>,
    ) -> Result<(), AllocError>
        requires { CanBegin at query ends.items self.old }
        ensures ok { OnOk result (EntersAsked (Begins query ends.items) at (step.Begin at) (ask.Begin query ends.items) self.old self.new) }
        ensures err { OnErr result (self.new ≡ self.old) }
    {
        self.past.reserve(1)?;
        let node = &mut self.nodes[place_of(at)];
        let place = node.entries().len();
        acting::begin(alloc, node, query, ends)?;
        note(&mut self.past, Did::new(Step::Begin(at), None, Some(place)));
        Ok(())
    }

    /// The node of this segment is handed the datagram of this number. Room for the step is taken first.
    pub(crate) fn deliver(
        &mut self,
        alloc: Global,
        at: SegId,
        number: u64,
        datagram: Datagram,
    ) -> Result<(), AllocError>
        requires { node_of at < length self.old.nodes }
        ensures ok { OnOk result (EntersAsked StaysBy at (step.Deliver number at) (ask.Arrive datagram) self.old self.new) }
        ensures err { OnErr result (self.new ≡ self.old) }
    {
        self.past.reserve(1)?;
        let node = &mut self.nodes[place_of(at)];
        let place = node.entries().len();
        acting::deliver(alloc, node, datagram)?;
        let step = Step::Deliver { number, to: at };
        note(&mut self.past, Did::new(step, None, Some(place)));
        Ok(())
    }

    /// The clock of this segment's node goes on. Room for the step is taken first.
    pub(crate) fn tick(&mut self, alloc: Global, at: SegId) -> Result<(), AllocError>
        requires { node_of at < length self.old.nodes }
        ensures ok { OnOk result (EntersAsked StaysBy at (step.Tick at) ask.Tick self.old self.new) }
        ensures err { OnErr result (self.new ≡ self.old) }
    {
        self.past.reserve(1)?;
        let node = &mut self.nodes[place_of(at)];
        let place = node.entries().len();
        acting::tick(alloc, node)?;
        note(&mut self.past, Did::new(Step::Tick(at), None, Some(place)));
        Ok(())
    }

    /// The node of this segment asks to leave its query, which is this one; tells whether it left. Room for the step is taken
    /// first.
    pub(crate) fn leave(&mut self, at: SegId, query: u32) -> Result<bool, AllocError>
        requires { IsIn at query self.old }
        ensures ok { IfOk result (λ gone. EntersLeft gone at query self.old self.new) }
        ensures err { OnErr result (self.new ≡ self.old) }
    {
        self.past.reserve(1)?;
        let node = &mut self.nodes[place_of(at)];
        let place = node.entries().len();
        let gone = acting::leave(node)?;
        note(&mut self.past, Did::new(Step::Leave(at), None, Some(place)));
        Ok(gone)
    }

    /// The slice of this number takes a turn at the node of this segment. Room for the step is taken first.
    pub(crate) fn turn(
        &mut self,
        alloc: Global,
        at: SegId,
        number: u32,
        slice: &mut Slice<'_>,
    ) -> Result<Result<Turned, SliceNo>, AllocError>
        requires { CanSit at number (working slice.old) self.old }
        ensures ok { IfOk result (λ answer. TakesTurn answer at number (working slice.old) (working slice.new) self.old self.new) }
        ensures err { OnErr result (self.new ≡ self.old) }
        ensures slice { OnErr result (slice.new ≡ slice.old) }
    {
        self.past.reserve(1)?;
        let node = &mut self.nodes[place_of(at)];
        let seen = node.entries().len();
        let answer = acting::turn(alloc, node, slice, number);
        let place = added(seen, node.entries().len());
        let step = Step::Turn { slice: number, at };
        note(&mut self.past, Did::new(step, Some(kept(&answer)), place));
        Ok(answer)
    }
}
