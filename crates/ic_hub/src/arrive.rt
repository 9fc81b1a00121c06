// What comes from the network.
ghost use Rattle.std.specs.Prelude.{◌≡◌, ◌↔◌, ◌+◌, ◌^◌, ◌<◌, ◌++◌, [], ◌∷◌, length, vec_len, vec_capacity, true, false, List, OnErr, IfOk, IsTrue};
ghost use Rattle.ic_header.specs.Spelling.{AllowsBody};
ghost use Rattle.ic_law.specs.declared.history.Entry.{Entry};
ghost use Rattle.ic_header.specs.Packets.{goes_forth, key_of};
ghost use Rattle.ic_law.specs.Points.{IsDirected};
ghost use Rattle.ic_hub.specs.Entries.{arrive_entry};
ghost use Rattle.ic_hub.specs.Standing.{Stands};
ghost use Rattle.ic_hub.specs.Calls.{SamePlace, CountsDrop};
ghost use Rattle.ic_hub.specs.Finding.{IsFound};
ghost use Rattle.ic_hub.specs.Coming.{NamesKey, Addresses, turns, TurnsBack, ComesToNone, ComesToQuery, Asks, HearsForth, HearsBack, ReceiverHears, SenderHears, Comes, Arrives, told_of, counted};

use crate::finding::Found;
use crate::hub::Hub;
use crate::query::Query;
use crate::take::listed;
use ic_base::{ConnKey, Datagram, Datagrams, SegId};
use ic_conntab::Sides;
use ic_header::{Flags, Header, read, turned_packet};
use ic_law::{Arrived, DropCause};
use ic_receiver::Receiver;
use ic_sender::SendNo;
use ic_timed_sender::TimedSender;
use std::alloc::{AllocError, Global};

/// Whether a packet goes from the sending end to the receiving one.
fn goes_forth(flags: Flags) -> bool
    ensures { result ≡ goes_forth flags }
{
    match flags {
        Flags::Rows | Flags::LastRows | Flags::Query => true,
        Flags::Ack | Flags::Stop | Flags::Nak | Flags::Disorder | Flags::Duplicate => false,
    }
}

/// Whether a datagram travels with the rows of this connection, or against them.
fn is_directed(datagram: &Datagram, key: &ConnKey, forth: bool) -> bool
    ensures { IsTrue result ↔ IsDirected forth datagram.now key.now }
{
    if forth {
        datagram.from == key.from && datagram.to == key.to
    } else {
        datagram.from == key.to && datagram.to == key.from
    }
}

/// The connection that a header speaks of, if its content ids are segments.
fn key_in(head: &Header) -> Option<ConnKey>
    ensures { NamesKey head.now result }
{
    Some(ConnKey {
        session: head.session,
        query: head.query,
        motion: head.motion,
        from: SegId::new(head.src_content)?,
        to: SegId::new(head.dst_content)?,
    })
}

/// The connection of a datagram that leads between two segments, to this one, as its header says.
fn addressed(at: SegId, datagram: &Datagram, head: &Header) -> Option<ConnKey>
    ensures { Addresses at datagram.now head.now result }
{
    let key = key_in(head)?;
    if datagram.to == at && is_directed(datagram, &key, goes_forth(head.flags)) {
        Some(key)
    } else {
        None
    }
}

/// What is answered of a query that isn't live.
fn turns(ended: bool) -> Flags
    ensures { result ≡ turns ended }
{
    if ended { Flags::Stop } else { Flags::Nak }
}

/// An answer if there is no connection, to the number that a header has.
fn turned(
    alloc: Global,
    at: SegId,
    datagram: &Datagram,
    head: &Header,
    ended: bool,
) -> Result<Datagrams, AllocError>
    ensures { IfOk result (TurnsBack at datagram.now head.now ended) }
{
    let answer = turned_packet(alloc, at, datagram.from, head, turns(ended))?;
    Datagrams::one(alloc, answer)
}

fn dropped(alloc: Global, cause: DropCause) -> (Arrived, Datagrams)
    ensures { result ≡ (Arrived.Dropped cause, []) }
{
    (Arrived::Dropped(cause), Datagrams::new(alloc))
}

/// What comes of a query that isn't live: what asks is answered, an answer comes too late.
fn turn_back(
    alloc: Global,
    at: SegId,
    datagram: &Datagram,
    head: &Header,
    ended: bool,
) -> Result<(Arrived, Datagrams), AllocError>
    ensures { ComesToNone at datagram.now head.now ended result }
{
    if goes_forth(head.flags) {
        Ok((Arrived::Handled, turned(alloc, at, datagram, head, ended)?))
    } else {
        Ok(dropped(alloc, DropCause::Late))
    }
}

/// A packet of rows or a status query came for a receiver. Gives its answer.
fn ask(
    alloc: Global,
    receiver: &mut Receiver,
    head: &Header,
    body: &[u8],
) -> Result<Option<Datagram>, AllocError>
    requires forth { goes_forth head.now.flags ≡ true }
    ensures asks { IfOk result (Asks head.now body.now receiver.old receiver.new) }
    ensures memory { OnErr result (receiver.new ≡ receiver.old) }
{
    match head.flags {
        Flags::Rows => receiver.on_packet(alloc, head.seq, body, false),
        Flags::LastRows => receiver.on_packet(alloc, head.seq, body, true),
        Flags::Query => receiver.on_query(alloc, head.seq),
        Flags::Ack | Flags::Stop | Flags::Nak | Flags::Disorder | Flags::Duplicate =>
            unreachable!(),
    }
}

/// What becomes of it, by the answer, in a list that has room for it.
fn told(alloc: Global, room: Vec<Datagram>, answer: Option<Datagram>) -> (Arrived, Datagrams)
    requires none { vec_len room ≡ 0 }
    requires room { 0 < vec_capacity room }
    ensures { result ≡ told_of answer }
{
    match answer {
        Some(answer) => (Arrived::Handled, listed(room, answer)),
        None => dropped(alloc, DropCause::Beyond),
    }
}

/// A packet of rows or a status query came for a receiver. The room for the answer is taken before anything changes.
fn hear_forth(
    alloc: Global,
    receiver: &mut Receiver,
    head: &Header,
    body: &[u8],
) -> Result<(Arrived, Datagrams), AllocError>
    requires forth { goes_forth head.now.flags ≡ true }
    ensures { HearsForth head.now body.now receiver.old receiver.new result }
{
    let room = Vec::with_capacity(alloc, 1)?;
    let answer = ask(alloc, receiver, head, body)?;
    Ok(told(alloc, room, answer))
}

/// An answer came for a sender.
fn hear_back(
    alloc: Global,
    sender: &mut TimedSender,
    head: &Header,
    body: &[u8],
) -> Result<(Arrived, Datagrams), AllocError>
    requires back { goes_forth head.now.flags ≡ false }
    requires allowed { AllowsBody head.now.flags (length body.now) }
    requires fits { 64 + length body.now < 2 ^ 32 }
    ensures { HearsBack head.now body.now sender.old sender.new result }
{
    match sender.hear(alloc, head, body) {
        Ok(datagrams) => Ok((Arrived::Handled, datagrams)),
        Err(SendNo::Stray) => Ok(dropped(alloc, DropCause::Stray)),
        Err(_) => Err(AllocError),
    }
}

impl Query {
    /// A packet of rows or a status query came for the receiver at this place.
    fn hear_sender(
        &mut self,
        alloc: Global,
        place: usize,
        head: &Header,
        body: &[u8],
    ) -> Result<(Arrived, Datagrams), AllocError>
        requires here { place < length self.old.receivers }
        requires forth { goes_forth head.now.flags ≡ true }
        ensures { ReceiverHears place head.now body.now self.old self.new result }
    {
        hear_forth(alloc, &mut self.receivers[place], head, body)
    }

    /// An answer came for the sender at this place.
    fn hear_receiver(
        &mut self,
        alloc: Global,
        place: usize,
        head: &Header,
        body: &[u8],
    ) -> Result<(Arrived, Datagrams), AllocError>
        requires here { place < length self.old.senders }
        requires back { goes_forth head.now.flags ≡ false }
        requires allowed { AllowsBody head.now.flags (length body.now) }
        requires fits { 64 + length body.now < 2 ^ 32 }
        ensures { SenderHears place head.now body.now self.old self.new result }
    {
        hear_back(alloc, &mut self.senders[place], head, body)
    }
}

impl Hub {
    /// A packet came of this live query, whose ends on the two sides stand at these places.
    fn hear_there(
        &mut self,
        alloc: Global,
        query: usize,
        sides: Sides,
        head: &Header,
        body: &[u8],
    ) -> Result<(Arrived, Datagrams), AllocError>
        requires found { IsFound self.old (key_of head.now) (Found.Here query sides) }
        requires allowed { AllowsBody head.now.flags (length body.now) }
        requires fits { 64 + length body.now < 2 ^ 32 }
        ensures { ComesToQuery self.old query sides head.now body.now result self.new }
    {
        if goes_forth(head.flags) {
            match sides.receiver {
                Some(place) => self.live[query].hear_sender(alloc, place, head, body),
                None => Ok(dropped(alloc, DropCause::Foreign)),
            }
        } else {
            match sides.sender {
                Some(place) => self.live[query].hear_receiver(alloc, place, head, body),
                None => Ok(dropped(alloc, DropCause::Foreign)),
            }
        }
    }

    /// A packet came that reads so.
    fn hear(
        &mut self,
        alloc: Global,
        datagram: &Datagram,
        head: &Header,
        body: &[u8],
    ) -> Result<(Arrived, Datagrams), AllocError>
        requires allowed { AllowsBody head.now.flags (length body.now) }
        requires fits { 64 + length body.now < 2 ^ 32 }
        ensures { Comes self.old datagram.now head.now body.now result self.new }
    {
        let Some(key) = addressed(self.at, datagram, head) else {
            return Ok(dropped(alloc, DropCause::Foreign));
        };
        match self.find(&key) {
            Found::Foreign => Ok(dropped(alloc, DropCause::Foreign)),
            Found::Ended => turn_back(alloc, self.at, datagram, head, true),
            Found::NotBegun => turn_back(alloc, self.at, datagram, head, false),
            Found::Here { query, sides } => self.hear_there(alloc, query, sides, head, body),
        }
    }

    /// What a datagram makes of the connections, before a dropped one is counted.
    fn hear_any(
        &mut self,
        alloc: Global,
        datagram: &Datagram,
    ) -> Result<(Arrived, Datagrams), AllocError>
        ensures { Arrives self.old datagram.now result self.new }
    {
        match read(datagram.bytes.as_slice()) {
            Ok((head, body)) => self.hear(alloc, datagram, &head, body),
            Err(fault) => Ok(dropped(alloc, DropCause::Header(fault))),
        }
    }

    /// Counts a dropped datagram.
    fn count(&mut self, how: Arrived)
        ensures { self.new ≡ counted how self.old }
    {
        if let Arrived::Dropped(_) = how {
            self.dropped = self.dropped.saturating_add(1);
        }
    }

    /// The network hands a datagram over. Gives what became of it and the datagrams that are emitted. Costs reading the
    /// header, one look-up and what the connection does; takes memory for the answer, and for the packets that first go
    /// out with it. The payload of a packet of rows is copied once, into the receiver's ring; an answer copies each packet
    /// that first goes out with it once, and none that goes out again. A dropped datagram raises one count and changes
    /// nothing else.
    pub fn arrive(
        &mut self,
        alloc: Global,
        datagram: &Datagram,
    ) -> Result<(Arrived, Datagrams), AllocError>
        ensures dropped { IfOk result (λ r. CountsDrop self.old self.new r.0) }
        ensures memory { OnErr result (self.new ≡ self.old) }
        ensures place { SamePlace self.old self.new }
        ensures stands { (h : List Entry) → Stands self.old h → Stands self.new (h ++ arrive_entry datagram.now result ∷ []) }
    {
        let _table = &self.table;
        let (how, datagrams) = self.hear_any(alloc, datagram)?;
        self.count(how);
        Ok((how, datagrams))
    }
}
