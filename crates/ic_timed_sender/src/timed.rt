// One sending connection and its queue.
ghost use Rattle.std.specs.Prelude.{◌≡◌, ◌↔◌, ◌-◌, ◌^◌, ◌≤◌, min, List, length, true, IfOk, IsTrue};
ghost use Rattle.ic_base.specs.Settings.{AreChecked};
ghost use Rattle.ic_row.specs.Values.{Datum};
ghost use Rattle.ic_chunk.specs.Counts.{greatest_count};
ghost use Rattle.ic_expire.specs.Queue.{IsQueue};
ghost use Rattle.ic_law.specs.declared.history.Entry.{Entry};
ghost use Rattle.ic_law.specs.History.{rows_emitted_of, sent_upto};
ghost use Rattle.ic_law.specs.Putting.{finished_of};
ghost use Rattle.ic_law.specs.Hearing.{stopped_of};
ghost use Rattle.ic_law.specs.Streams.{AreSent};
ghost use Rattle.ic_law.specs.Clock.{last_tick};
ghost use Rattle.ic_sender.specs.Standing.{IsOver, IsOverIn};
ghost use Rattle.ic_timed_sender.specs.Timed.{begun_at};
ghost use Rattle.ic_timed_sender.specs.Standing.{Stands, StandsFirst};

use ic_base::{ConnEnd, ConnKey, Settings};
use ic_expire::Expiry;
use ic_sender::Sender;
use std::alloc::{AllocError, Global};
use std::marker::Model;

/// One sending connection, seen as the connection, what waits for its answers, and the tick at which it is.
///
/// A [`Sender`] says what each event makes of a connection, and here is what it needs beside: a queue of its own, so that no
/// event of one connection touches another, and the clock. TCP calls the two its retransmission queue and its timer.
#[derive(Drop)]
pub struct TimedSender {
    pub(crate) sender: Sender,
    /// What waits for an answer, with room for all that is kept. Last asked at `tick`.
    pub(crate) waits: Expiry,
    /// How many ticks there were, up to the last one.
    pub(crate) tick: u64,
    /// How many rows the chunks that were put end. Stands still at its greatest value.
    pub(crate) rows: u64,
}

impl Model for TimedSender {
    ghost use Rattle.ic_timed_sender.specs.Timed.{TimedState};
    ghost use Rattle.ic_timed_sender.specs.Standing.{IsSound};

    ghost Value = { TimedState };

    ghost view = { λ o. record { sending = o.sender; held = o.waits.held; now = o.tick; rows = o.rows } };

    ghost invariant = { λ o. IsSound o.sender o.waits o.tick o.rows };
}

/// Does nothing but look. Its clauses: a queue is in order, and a connection keeps no more than its settings allow.
pub(crate) fn bounded(sender: &Sender, waits: &Expiry)
    ensures queue { IsQueue waits.now }
    ensures kept { length sender.now.kept ≤ sender.now.settings.send_depth }
{
    let _waiting = waits.len();
    let _kept = sender.unacked();
}

impl TimedSender {
    /// The sending end of a connection of which nothing was put, at tick `now`. Takes the room for all packets that it may
    /// keep, `send_depth` times `packet` bytes, and for the queue of them.
    pub fn new(
        alloc: Global,
        end: ConnEnd,
        settings: &Settings,
        now: u64,
    ) -> Result<TimedSender, AllocError>
        requires checked { AreChecked settings.now }
        requires last { now ≤ last_tick }
        ensures begun { IfOk result (λ o. o ≡ begun_at end settings.now now) }
        ensures stands { IfOk result (StandsFirst end now) }
    {
        let sender = Sender::new(alloc, end, 0, settings)?;
        let mut waits = Expiry::with_room(alloc, settings.send_depth)?;
        waits.pass(now);
        Ok(TimedSender {
            sender,
            waits,
            tick: now,
            rows: 0,
        })
    }

    pub fn key(&self) -> ConnKey
        ensures { result ≡ self.now.sending.end.key }
    {
        self.sender.key()
    }

    /// Whether the peer wants no more.
    pub fn is_stopped(&self) -> bool
        ensures value { result ≡ self.now.sending.stopped }
        ensures tells { (h : List Entry) → Stands self.now h → stopped_of self.now.sending.end.key h ≡ result }
    {
        self.sender.is_stopped()
    }

    /// Whether the end of stream was put.
    pub fn is_finished(&self) -> bool
        ensures value { result ≡ self.now.sending.finished }
        ensures tells { (h : List Entry) → Stands self.now h → finished_of self.now.sending.end.key h ≡ result }
    {
        self.sender.is_finished()
    }

    /// Whether nothing is left to do: stopped, or finished with all packets acknowledged.
    pub fn is_over(&self) -> bool
        ensures value { IsTrue result ↔ IsOver self.now.sending }
        ensures tells { (h : List Entry) → Stands self.now h → IsTrue result ↔ IsOverIn self.now.sending.end.key h }
    {
        self.sender.is_over()
    }

    /// The greatest number emitted, 0 if nothing was.
    pub fn sent(&self) -> u32
        ensures value { result ≡ self.now.sending.sent }
        ensures tells { (h : List Entry) → Stands self.now h → sent_upto self.now.sending.end.key h ≡ result }
    {
        self.sender.sent()
    }

    /// How often a packet was emitted again. Stands still at its greatest value.
    pub fn resent(&self) -> u128
        ensures value { result ≡ self.now.sending.resent }
        ensures tells { (h : List Entry) → Stands self.now h → result ≡ min (length (rows_emitted_of self.now.sending.end.key h) - sent_upto self.now.sending.end.key h) (2 ^ 128 - 1) }
    {
        self.sender.resent()
    }

    /// How many rows were put: rows end with whole chunks and ends. Stands still at its greatest value.
    pub fn rows(&self) -> u64
        ensures value { result ≡ self.now.rows }
        ensures tells { (h : List Entry) (rows : List (List Datum)) → Stands self.now h → AreSent self.now.sending.end.key h rows → result ≡ min greatest_count (length rows) }
    {
        self.rows
    }
}
