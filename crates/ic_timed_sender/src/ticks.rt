// A tick, in two halves.
ghost use Rattle.std.specs.Prelude.{◌≡◌, ◌≤◌, ◌<◌, ◌+◌, ℕ, List, [], ◌∷◌, ◌++◌, min, map, length, true, false, Contains, None, IfOk, OnErr};
ghost use Rattle.ic_expire.specs.Items.{is_due as is_item_due};
ghost use Rattle.ic_expire.specs.Queue.{IsHeld};
ghost use Rattle.ic_law.specs.declared.history.Entry.{Entry};
ghost use Rattle.ic_law.specs.Numbers.{IsIncreasingFrom};
ghost use Rattle.ic_law.specs.Clock.{last_tick};
ghost use Rattle.ic_law.specs.Emitting.{query_due};
ghost use Rattle.ic_sender.specs.Sending.{spent_of, waits_longer};
ghost use Rattle.ic_sender.specs.Calls.{Queries, IsNow, LeavesRoom, is_unanswered};
ghost use Rattle.ic_sender.specs.Entries.{IsTicking, tried_when, queried_when};
ghost use Rattle.ic_timed_sender.specs.Timed.{SameEnd, next_tick, is_due_next, datagrams_due, queries_due, ticking, MayTick};
ghost use Rattle.ic_timed_sender.specs.Looking.{Looks, GivesDue, GivesQuery};
ghost use Rattle.ic_timed_sender.specs.Emitted.{AreOutgoing};
ghost use Rattle.ic_timed_sender.specs.Standing.{StandsNext, Tells, KeepsPackets, GivesPacketUp, KeepsQuery, GivesQueryUp, IsQuiet};

use crate::due::{Due, Numbers};
use crate::timed::{TimedSender, bounded};
use ic_base::Datagrams;
use ic_expire::{Due as DuePacket, Expiry};
use ic_sender::{SendNo, Sender};
use std::alloc::{AllocError, Global};

/// The last tick, at which the clock stands still: what is due 64 ticks later still fits in 64 bits.
const LAST: u64 = 18_446_744_073_709_551_488;

/// The tick after this one. At the last tick the clock stands still.
#[tactic(auto, unfolding(ic_law::specs::Clock::last_tick))]
pub fn tick_behind(now: u64) -> u64
    ensures { result ≡ next_tick now }
{
    now.saturating_add(1).min(LAST)
}

/// The numbers of packets whose time is over.
fn numbers_of(alloc: Global, dues: &[DuePacket]) -> Result<Vec<u32>, AllocError>
    ensures { IfOk result (λ v. v.items ≡ map (λ d. d.seq) dues.now) }
{
    dues.iter().map(|due| due.seq).collect(alloc)
}

/// These packets were emitted again, and wait longer.
fn again(sender: &mut Sender, numbers: &[u32], now: u64, waits: &mut Expiry)
    requires increase { IsIncreasingFrom 1 numbers.now }
    requires unspent { spent_of sender.old numbers.now ≡ None }
    requires taken { (n : ℕ) → Contains numbers.now n → IsHeld sender.old.conn n waits.old.held → ⊥ }
    requires now { IsNow now waits.old }
    requires room { LeavesRoom (length numbers.now) waits.old }
    ensures state { sender.new ≡ tried_when numbers.now sender.old }
    ensures waits { waits.new ≡ record waits.old { held = waits_longer now sender.old numbers.now waits.old.held } }
{
    if !numbers.is_empty() {
        sender.due_done(numbers, now, waits);
    }
}

/// The status query was emitted, if one is due, and is due again after a longer time.
fn asked(sender: &mut Sender, now: u64)
    requires last { now ≤ last_tick }
    requires answered { is_unanswered sender.old.settings.retries now sender.old.asked ≡ false }
    ensures { sender.new ≡ queried_when (query_due now sender.old.asked) now sender.old }
{
    if let Some(due) = sender.query_due() {
        if due <= now {
            sender.query_done(now);
        }
    }
}

impl TimedSender {
    fn look(&self, alloc: Global) -> Result<Due, SendNo>
        ensures { Looks self.now result }
    {
        let dues = self.waits.due_at(alloc, tick_behind(self.tick))?;
        let numbers = numbers_of(alloc, dues.as_slice())?;
        let datagrams = self.sender.due_gives(alloc, numbers.as_slice())?;
        Ok(Due {
            numbers: Numbers::from_vec(numbers),
            datagrams,
        })
    }

    /// Whether a packet is due at the next tick. If none is, `due` gives nothing. Takes no memory, and looks at what is due
    /// first alone.
    pub fn is_due(&self) -> bool
        ensures value { result ≡ is_due_next self.now }
        ensures quiet { result ≡ false → IsQuiet self.now }
    {
        let _sound = &self.sender;
        bounded(&self.sender, &self.waits);
        self.waits.is_due(tick_behind(self.tick))
    }

    /// The first half of a tick: the packets that are due at the next one, or the first of them with no resending left.
    /// Changes nothing. Allocates for the numbers and for the datagrams, and not at all if nothing is due; copies no
    /// bytes.
    pub fn due(&self, alloc: Global) -> Result<Due, SendNo>
        ensures looks { Looks self.now result }
        ensures ok { IfOk result (GivesDue self.now) }
        ensures order { IfOk result (λ d. IsIncreasingFrom 1 d.numbers) }
        ensures tells { Tells self.now KeepsPackets GivesPacketUp result }
        ensures formed { IfOk result (λ d. AreOutgoing self.now.sending d.datagrams) }
    {
        let _sound = &self.sender;
        bounded(&self.sender, &self.waits);
        self.look(alloc)
    }

    /// The first half of a tick: the status query, if it is due at the next one, or that it has no resending left.
    /// Changes nothing, and allocates only if one is due.
    pub fn query(&self, alloc: Global) -> Result<Datagrams, SendNo>
        ensures looks { Queries self.now.sending (next_tick self.now.now) result }
        ensures ok { IfOk result (GivesQuery self.now) }
        ensures tells { Tells self.now KeepsQuery GivesQueryUp result }
        ensures formed { IfOk result (AreOutgoing self.now.sending) }
    {
        self.sender.query_gives(alloc, tick_behind(self.tick))
    }

    /// The second half of a tick: these packets, which `due` gave, were emitted again, and so was the status query that
    /// `query` gave. They are due again after a longer time, and the clock is at the next tick. Neither look said that
    /// anything is given up. Takes no memory.
    pub fn ticked(&mut self, numbers: &[u32])
        requires { MayTick self.old numbers.now }
        ensures ok { self.new ≡ ticking self.old }
        ensures end { SameEnd self.old self.new }
        ensures stands { StandsNext self.old self.new (IsTicking self.old.sending.end.key (datagrams_due self.old ++ queries_due self.old)) }
    {
        bounded(&self.sender, &self.waits);
        let next = tick_behind(self.tick);
        self.waits.pass(next);
        again(&mut self.sender, numbers, next, &mut self.waits);
        asked(&mut self.sender, next);
        self.tick = next;
    }
}
