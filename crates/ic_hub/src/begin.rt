// Queries that begin.
ghost use Rattle.std.specs.Prelude.{◌≡◌, ◌≤◌, ◌<◌, ◌++◌, [], ◌∷◌, List, None, length, take, drop, vec_len, vec_capacity, replicate, OnErr, OnOk, IfOk};
ghost use Rattle.std.specs.List.{AllByRecursion, flat_map};
ghost use Rattle.ic_base.specs.Settings.{AreChecked};
ghost use Rattle.ic_law.specs.declared.history.Entry.{Entry};
ghost use Rattle.ic_law.specs.Asking.{AreEnds};
ghost use Rattle.ic_law.specs.Clock.{last_tick};
ghost use Rattle.ic_hub.specs.Hubbing.{Ascend, place_in};
ghost use Rattle.ic_hub.specs.Entries.{begin_entry};
ghost use Rattle.ic_hub.specs.Standing.{Stands};
ghost use Rattle.ic_hub.specs.Calls.{SamePlace};
ghost use Rattle.ic_hub.specs.Beginning.{IsBetween, SendsFirst, ReceivesFirst, sender_begun, receiver_begun, IsBegun};

use crate::hub::Hub;
use crate::query::Query;
use ic_base::{BeginNo, ConnEnd, SegId, Settings};
use ic_conntab::Places;
use ic_receiver::Receiver;
use ic_timed_sender::TimedSender;
use std::alloc::{AllocError, Global};

/// Does nothing. Its clause: an end is of segments.
fn named(end: &ConnEnd)
    ensures { IsBetween end.now }
{
    let _from = end.key.from.number();
    let _to = end.key.to.number();
}

/// The connection of an end is put after others, if it sends.
fn add_sender(
    alloc: Global,
    senders: &mut Vec<TimedSender>,
    end: &ConnEnd,
    settings: &Settings,
    tick: u64,
) -> Result<(), AllocError>
    requires checked { AreChecked settings.now }
    requires last { tick ≤ last_tick }
    ensures begun { OnOk result (senders.new.items ≡ senders.old.items ++ sender_begun settings.now tick end.now) }
    ensures sends { OnOk result (SendsFirst settings.now tick end.now) }
    ensures between { IsBetween end.now }
{
    named(end);
    if !end.sending {
        return Ok(());
    }
    let sender = TimedSender::new(alloc, *end, settings, tick)?;
    senders.push(sender)?;
    Ok(())
}

/// The connection of an end is put after others, if it receives.
fn add_receiver(
    alloc: Global,
    receivers: &mut Vec<Receiver>,
    end: &ConnEnd,
    settings: &Settings,
) -> Result<(), AllocError>
    requires checked { AreChecked settings.now }
    ensures begun { OnOk result (receivers.new.items ≡ receivers.old.items ++ receiver_begun settings.now end.now) }
    ensures receives { OnOk result (ReceivesFirst settings.now end.now) }
{
    if end.sending {
        return Ok(());
    }
    let receiver = Receiver::new(alloc, *end, settings)?;
    receivers.push(receiver)?;
    Ok(())
}

/// A connection for each end that sends.
fn senders(
    alloc: Global,
    ends: &[ConnEnd],
    settings: &Settings,
    tick: u64,
) -> Result<Vec<TimedSender>, AllocError>
    requires checked { AreChecked settings.now }
    requires last { tick ≤ last_tick }
    ensures begun { IfOk result (λ v. v.items ≡ flat_map (sender_begun settings.now tick) ends.now) }
    ensures sends { OnOk result (AllByRecursion (SendsFirst settings.now tick) ends.now) }
    ensures between { OnOk result (AllByRecursion IsBetween ends.now) }
{
    let mut senders = Vec::new(alloc);
    for end in ends {
        add_sender(alloc, &mut senders, end, settings, tick)?;
    }
    Ok(senders)
}

/// A connection for each end that receives.
fn receivers(
    alloc: Global,
    ends: &[ConnEnd],
    settings: &Settings,
) -> Result<Vec<Receiver>, AllocError>
    requires checked { AreChecked settings.now }
    ensures begun { IfOk result (λ v. v.items ≡ flat_map (receiver_begun settings.now) ends.now) }
    ensures receives { OnOk result (AllByRecursion (ReceivesFirst settings.now) ends.now) }
{
    let mut receivers = Vec::new(alloc);
    for end in ends {
        add_receiver(alloc, &mut receivers, end, settings)?;
    }
    Ok(receivers)
}

/// No sender served, for each of so many motions.
fn unserved(alloc: Global, motions: usize) -> Result<Vec<Option<SegId>>, AllocError>
    ensures { IfOk result (λ v. v.items ≡ replicate motions None) }
{
    let mut served = Vec::new(alloc);
    for _ in 0..motions {
        served.push(None)?;
    }
    Ok(served)
}

/// The place of a query of this number among live ones, whose numbers ascend.
fn place_for(live: &[Query], number: u32) -> usize
    requires { Ascend live.now }
    ensures within { result ≤ length live.now }
    ensures before { AllByRecursion (λ l. l.number < number) (take result live.now) }
    ensures behind { AllByRecursion (λ l. number ≤ l.number) (drop result live.now) }
{
    live.partition_point(|query| query.number < number)
}

/// Inserts a query if there is room.
fn insert(live: &mut Vec<Query>, place: usize, query: Query)
    requires place { place ≤ vec_len live.old }
    requires room { vec_len live.old < vec_capacity live.old }
    ensures items { live.new.items ≡ take place live.old.items ++ query ∷ drop place live.old.items }
{
    let _inserted = live.insert(place, query);
}

impl Query {
    /// The query with these ends, of whose connections nothing was put and nothing came.
    fn begin(
        alloc: Global,
        number: u32,
        ends: &[ConnEnd],
        settings: &Settings,
        tick: u64,
    ) -> Result<Query, AllocError>
        requires checked { AreChecked settings.now }
        requires last { tick ≤ last_tick }
        ensures begun { IfOk result (IsBegun settings.now tick number ends.now) }
    {
        let places = Places::new(alloc, ends)?;
        let served = unserved(alloc, places.motions())?;
        let senders = senders(alloc, ends, settings, tick)?;
        let receivers = receivers(alloc, ends, settings)?;
        Ok(Query {
            number,
            places,
            senders,
            receivers,
            served,
        })
    }
}

impl Hub {
    /// A query that may begin, if there is memory.
    fn begin_now(&mut self, alloc: Global, query: u32, ends: &[ConnEnd]) -> Result<(), BeginNo>
        requires ends { AreEnds (place_in self.old) query ends.now }
        ensures err { OnErr result (self.new ≡ self.old) }
        ensures place { SamePlace self.old self.new }
        ensures count { self.new.dropped ≡ self.old.dropped }
        ensures stands { (h : List Entry) → Stands self.old h → Stands self.new (h ++ begin_entry query ends.now result ∷ []) }
    {
        let Ok(begun) = Query::begin(alloc, query, ends, &self.settings, self.tick) else {
            return Err(BeginNo::Memory);
        };
        let Ok(()) = self.live.reserve(1) else {
            return Err(BeginNo::Memory);
        };
        self.table.begin(alloc, query, begun.places.keys())?;
        let place = place_for(self.live.as_slice(), query);
        insert(&mut self.live, place, begun);
        Ok(())
    }

    /// Begins a query with the ends that it has here: each of this session and query, no two of one key and one side, and
    /// a connection of the segment to itself with both sides. A query that has begun or ended is refused before any room
    /// is taken. Takes the room for all packets of the ends, and touches none of it. Looks each end up once; nothing
    /// changes if it is refused.
    pub fn begin(&mut self, alloc: Global, query: u32, ends: &[ConnEnd]) -> Result<(), BeginNo>
        requires ends { AreEnds (place_in self.old) query ends.now }
        ensures err { OnErr result (self.new ≡ self.old) }
        ensures place { SamePlace self.old self.new }
        ensures count { self.new.dropped ≡ self.old.dropped }
        ensures stands { (h : List Entry) → Stands self.old h → Stands self.new (h ++ begin_entry query ends.now result ∷ []) }
    {
        if let Err(no) = self.table.may_begin(query) {
            return Err(no);
        }
        self.begin_now(alloc, query, ends)
    }
}
