// The clock goes on.
ghost use Rattle.std.specs.Prelude.{◌≡◌, ◌++◌, [], ◌∷◌, List, map, IfOk, IfErr, OnOk, OnErr};
ghost use Rattle.std.specs.List.{AllByRecursion, flat_map};
ghost use Rattle.ic_law.specs.declared.history.Entry.{Entry};
ghost use Rattle.ic_timed_sender.specs.Timed.{datagrams_due, queries_due, ticking};
ghost use Rattle.ic_timed_sender.specs.Standing.{GivesPacketUp, GivesQueryUp};
ghost use Rattle.ic_hub.specs.Entries.{tick_entry};
ghost use Rattle.ic_hub.specs.Standing.{Stands};
ghost use Rattle.ic_hub.specs.Calls.{SamePlace};
ghost use Rattle.ic_hub.specs.Ticking.{tick_no, MayResend, MayAsk, RefusedFor, RefusedFirst, Passes, Begins, Leaves, plan_for, plan_of, emission_of, MayTick, RefusedIn, ticked_query, ticked};

use crate::hub::Hub;
use crate::query::Query;
use ic_base::Datagrams;
use ic_law::TickNo;
use ic_sender::SendNo;
use ic_timed_sender::{Numbers, TimedSender, tick_behind};
use std::alloc::{AllocError, Global};

/// Why the clock doesn't go on. What a look is never refused for becomes out of memory.
fn tick_no(no: SendNo) -> TickNo
    ensures { result ≡ tick_no no }
{
    match no {
        SendNo::Spent { key, seq, tries } => TickNo::Spent { key, seq, tries },
        SendNo::Full | SendNo::Stopped | SendNo::TooLong(_) | SendNo::Stray | SendNo::Memory => {
            TickNo::Memory
        }
    }
}

/// Puts datagrams after others.
fn append(datagrams: &mut Datagrams, more: Datagrams) -> Result<(), AllocError>
    ensures { OnOk result (datagrams.new ≡ datagrams.old ++ more) }
{
    for datagram in more.into_vec() {
        datagrams.push(datagram)?;
    }
    Ok(())
}

/// What is due of one connection: the numbers of its packets are put after other lists, and their datagrams after other
/// datagrams. If nothing is due no list is made, and no memory taken.
fn due_of(
    alloc: Global,
    sender: &TimedSender,
    plan: &mut Vec<Numbers>,
    datagrams: &mut Datagrams,
) -> Result<(), TickNo>
    ensures plan { OnOk result (plan.new.items ≡ plan.old.items ++ plan_for sender.now) }
    ensures datagrams { OnOk result (datagrams.new ≡ datagrams.old ++ datagrams_due sender.now) }
    ensures may { OnOk result (MayResend sender.now) }
    ensures err { IfErr result (RefusedFor GivesPacketUp sender.now) }
{
    if !sender.is_due() {
        return Ok(());
    }
    let due = match sender.due(alloc) {
        Ok(due) => due,
        Err(no) => return Err(tick_no(no)),
    };
    let Ok(()) = append(datagrams, due.datagrams) else {
        return Err(TickNo::Memory);
    };
    let Ok(()) = plan.push(due.numbers) else {
        return Err(TickNo::Memory);
    };
    Ok(())
}

/// The status query of one connection, if it is due, is put after other datagrams.
fn query_of(alloc: Global, sender: &TimedSender, datagrams: &mut Datagrams) -> Result<(), TickNo>
    ensures datagrams { OnOk result (datagrams.new ≡ datagrams.old ++ queries_due sender.now) }
    ensures may { OnOk result (MayAsk sender.now) }
    ensures err { IfErr result (RefusedFor GivesQueryUp sender.now) }
{
    let queries = match sender.query(alloc) {
        Ok(queries) => queries,
        Err(no) => return Err(tick_no(no)),
    };
    let Ok(()) = append(datagrams, queries) else {
        return Err(TickNo::Memory);
    };
    Ok(())
}

/// What is due of these connections: for each of which a packet is due the numbers of its packets are put after other
/// lists, and their datagrams after other datagrams.
fn dues(
    alloc: Global,
    senders: &[TimedSender],
    plan: &mut Vec<Numbers>,
    datagrams: &mut Datagrams,
) -> Result<(), TickNo>
    ensures plan { OnOk result (plan.new.items ≡ plan.old.items ++ flat_map plan_for senders.now) }
    ensures datagrams { OnOk result (datagrams.new ≡ datagrams.old ++ flat_map datagrams_due senders.now) }
    ensures may { OnOk result (AllByRecursion MayResend senders.now) }
    ensures err { IfErr result (RefusedFirst MayResend (RefusedFor GivesPacketUp) senders.now) }
{
    for sender in senders {
        due_of(alloc, sender, plan, datagrams)?;
    }
    Ok(())
}

/// The status queries that are due of these connections are put after other datagrams.
fn queries(alloc: Global, senders: &[TimedSender], datagrams: &mut Datagrams) -> Result<(), TickNo>
    ensures datagrams { OnOk result (datagrams.new ≡ datagrams.old ++ flat_map queries_due senders.now) }
    ensures may { OnOk result (AllByRecursion MayAsk senders.now) }
    ensures err { IfErr result (RefusedFirst MayAsk (RefusedFor GivesQueryUp) senders.now) }
{
    for sender in senders {
        query_of(alloc, sender, datagrams)?;
    }
    Ok(())
}

/// The tick is over for a connection: what was due of it was emitted. Gives the lists after its own.
fn pass_one<'a>(sender: &mut TimedSender, plan: &'a [Numbers]) -> &'a [Numbers]
    requires plan { Begins (plan_for sender.old) plan.now }
    requires packets { MayResend sender.old }
    requires queries { MayAsk sender.old }
    ensures ok { sender.new ≡ ticking sender.old }
    ensures stands { Passes sender.old }
    ensures rest { Leaves (plan_for sender.old) plan.now result.now }
{
    if !sender.is_due() {
        sender.ticked([].as_slice());
        return plan;
    }
    let (own, rest) = plan.split_at(1);
    sender.ticked(own[0].as_slice());
    rest
}

/// The tick is over for these connections. Gives the lists after theirs.
fn pass<'a>(senders: &mut [TimedSender], plan: &'a [Numbers]) -> &'a [Numbers]
    requires plan { Begins (flat_map plan_for senders.old) plan.now }
    requires packets { AllByRecursion MayResend senders.old }
    requires queries { AllByRecursion MayAsk senders.old }
    ensures ok { senders.new ≡ map ticking senders.old }
    ensures stands { AllByRecursion Passes senders.old }
    ensures rest { Leaves (flat_map plan_for senders.old) plan.now result.now }
{
    let mut rest = plan;
    for i in 0..senders.len() {
        rest = pass_one(&mut senders[i], rest);
    }
    rest
}

impl Query {
    /// What is due at the next tick, without a change.
    fn due(
        &self,
        alloc: Global,
        plan: &mut Vec<Numbers>,
        datagrams: &mut Datagrams,
    ) -> Result<(), TickNo>
        ensures plan { OnOk result (plan.new.items ≡ plan.old.items ++ plan_of self.now) }
        ensures datagrams { OnOk result (datagrams.new ≡ datagrams.old ++ emission_of self.now) }
        ensures may { OnOk result (MayTick self.now) }
        ensures err { IfErr result (RefusedIn self.now) }
    {
        dues(alloc, self.senders.as_slice(), plan, datagrams)?;
        queries(alloc, self.senders.as_slice(), datagrams)
    }

    /// The tick is over: what is due was emitted. Gives the lists after its own.
    fn ticked<'a>(&mut self, plan: &'a [Numbers]) -> &'a [Numbers]
        requires plan { Begins (plan_of self.old) plan.now }
        requires may { MayTick self.old }
        ensures ok { self.new ≡ ticked_query self.old }
        ensures stands { AllByRecursion Passes self.old.senders }
        ensures rest { Leaves (plan_of self.old) plan.now result.now }
    {
        pass(self.senders.as_mut_slice(), plan)
    }
}

/// What is due at the next tick of each live query, without a change. If nothing is due it takes no memory.
fn all_due(alloc: Global, live: &[Query], datagrams: &mut Datagrams) -> Result<Vec<Numbers>, TickNo>
    ensures plan { IfOk result (λ v. v.items ≡ flat_map plan_of live.now) }
    ensures datagrams { OnOk result (datagrams.new ≡ datagrams.old ++ flat_map emission_of live.now) }
    ensures may { OnOk result (AllByRecursion MayTick live.now) }
    ensures err { IfErr result (RefusedFirst MayTick RefusedIn live.now) }
{
    let mut plan = Vec::new(alloc);
    for query in live {
        query.due(alloc, &mut plan, datagrams)?;
    }
    Ok(plan)
}

/// The tick is over for each live query.
fn pass_all(live: &mut [Query], plan: &[Numbers])
    requires plan { plan.now ≡ flat_map plan_of live.old }
    requires may { AllByRecursion MayTick live.old }
    ensures ok { live.new ≡ map ticked_query live.old }
    ensures stands { AllByRecursion (λ l. AllByRecursion Passes l.senders) live.old }
{
    let mut rest = plan;
    for i in 0..live.len() {
        rest = live[i].ticked(rest);
    }
}

impl Hub {
    /// The tick is over: what is due was emitted.
    fn ticked(&mut self, plan: &[Numbers])
        requires plan { plan.now ≡ flat_map plan_of self.old.live }
        requires may { AllByRecursion MayTick self.old.live }
        ensures ok { self.new ≡ ticked self.old }
        ensures stands { AllByRecursion (λ l. AllByRecursion Passes l.senders) self.old.live }
    {
        pass_all(self.live.as_mut_slice(), plan);
        self.tick = tick_behind(self.tick);
    }

    /// The clock goes on by one: gives the packets that are emitted again and the status queries that are due, by query,
    /// in each the packets of its connections in their order and then the queries. If one of them has no resending
    /// left the first such is named and nothing changes. First all are looked at, then all are changed, which takes no
    /// memory. Looks at each sending connection, whose clock goes on; if nothing is due of it no list is made for it. If
    /// nothing is due at all the tick takes no memory.
    pub fn tick(&mut self, alloc: Global) -> Result<Datagrams, TickNo>
        ensures err { OnErr result (self.new ≡ self.old) }
        ensures place { SamePlace self.old self.new }
        ensures count { self.new.dropped ≡ self.old.dropped }
        ensures stands { (h : List Entry) → Stands self.old h → Stands self.new (h ++ tick_entry result ∷ []) }
    {
        let mut datagrams = Datagrams::new(alloc);
        let plan = all_due(alloc, self.live.as_slice(), &mut datagrams)?;
        self.ticked(plan.as_slice());
        Ok(datagrams)
    }
}
