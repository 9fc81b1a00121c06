// The four calls of a tick.
ghost use Rattle.std.specs.Prelude.{◌≡◌, ◌≤◌, ◌<◌, ◌+◌, ◌^◌, ℕ, List, [], true, false, length, min, map, find, Contains, Option, Some, None, IfOk, ◌&&◌, ◌==◌};
ghost use Rattle.std.specs.Option.{option_map};
ghost use Rattle.std.specs.List.{AllByRecursion, list_any};
ghost use Rattle.ic_expire.specs.Queue.{IsHeld};
ghost use Rattle.ic_law.specs.Numbers.{IsIncreasingFrom};
ghost use Rattle.ic_law.specs.Clock.{last_tick};
ghost use Rattle.ic_law.specs.Timers.{lost_where};
ghost use Rattle.ic_law.specs.Emitting.{query_due};
ghost use Rattle.ic_sender.specs.Listed.{Rises};
ghost use Rattle.ic_sender.specs.Sending.{Sending, spent_of, tried, trying, waits_longer, querying, copies};
ghost use Rattle.ic_sender.specs.Calls.{Tries, Queries, IsNow, LeavesRoom, is_unanswered};

use crate::flight::{Flight, push_copies, retry_all};
use crate::numbers::again;
use crate::send_no::SendNo;
use crate::sender::Sender;
use crate::waiting::wait_longer;
use ic_base::Datagrams;
use ic_expire::Expiry;
use ic_header::query_packet;
use ic_window::Window;
use std::alloc::{AllocError, Global};

/// Whether the packet of this number has no resending left.
fn has_no_try(flights: &[Flight], seq: u32, retries: u32) -> bool
    ensures { result ≡ list_any (λ f. (f.seq == seq) && (f.tries == retries)) flights.now }
{
    flights
        .iter()
        .any(|flight| flight.seq == seq && flight.tries == retries)
}

/// The first of these packets with no resending left.
fn first_spent(flights: &[Flight], seqs: &[u32], retries: u32) -> Option<u32>
    ensures { result ≡ find (λ n. list_any (λ f. (f.seq == n) && (f.tries == retries)) flights.now) seqs.now }
{
    for seq in seqs {
        if has_no_try(flights, *seq, retries) {
            return Some(*seq);
        }
    }
    None
}

/// A window that lost, if packets were emitted again.
fn with_loss(window: &Window, seqs: &[u32]) -> Window
    ensures { result ≡ lost_where seqs.now window.now }
{
    let mut window = *window;
    if seqs.is_empty() {
        return window;
    }
    window.lost();
    window
}

/// A tick emits these packets again.
fn retry_listed(flights: &mut Vec<Flight>, seqs: &[u32])
    requires rises { Rises seqs.now }
    requires tries { AllByRecursion (λ f. f.tries < 4294967295) flights.old.items }
    ensures { flights.new.items ≡ map (tried seqs.now) flights.old.items }
{
    retry_all(flights.as_mut_slice(), seqs);
}

impl Sender {
    /// The first half of a tick, for packets whose time is over: gives their datagrams again, or says which has no
    /// resending left. The numbers increase. Copies no bytes.
    pub fn due_gives(&self, alloc: Global, seqs: &[u32]) -> Result<Datagrams, SendNo>
        ensures { Tries self.now seqs.now result }
    {
        if let Some(seq) = first_spent(self.flights.as_slice(), seqs, self.settings.retries) {
            return Err(SendNo::Spent {
                key: self.end.key,
                seq,
                tries: self.settings.retries,
            });
        }
        let mut datagrams = Vec::new(alloc);
        push_copies(self.flights.as_slice(), seqs, &mut datagrams)?;
        Ok(Datagrams::from_vec(datagrams))
    }

    /// The second half: these packets were emitted again and wait longer, and that is one loss. They were taken out of
    /// the queue at `now`, and none of them is spent. Takes no memory.
    pub fn due_done(&mut self, seqs: &[u32], now: u64, expiry: &mut Expiry)
        requires some { 0 < length seqs.now }
        requires increase { IsIncreasingFrom 1 seqs.now }
        requires unspent { spent_of self.old seqs.now ≡ None }
        requires taken { (n : ℕ) → Contains seqs.now n → IsHeld self.old.conn n expiry.old.held → ⊥ }
        requires now { IsNow now expiry.old }
        requires room { LeavesRoom (length seqs.now) expiry.old }
        ensures tries { self.new ≡ trying seqs.now self.old }
        ensures waits { expiry.new ≡ record expiry.old { held = waits_longer now self.old seqs.now expiry.old.held } }
    {
        wait_longer(
            expiry,
            self.conn,
            self.flights.as_slice(),
            seqs,
            &self.window,
            now,
        );
        retry_listed(&mut self.flights, seqs);
        self.window = with_loss(&self.window, seqs);
        self.resent = self.resent.saturating_add(seqs.len() as u128);
    }

    /// The first half of a tick, for the status query: gives it if it is due, or says that it has no resending left.
    pub fn query_gives(&self, alloc: Global, now: u64) -> Result<Datagrams, SendNo>
        ensures { Queries self.now now result }
    {
        match self.asked {
            Some(asked) if asked.due <= now => {
                if asked.tries == self.settings.retries {
                    return Err(SendNo::Spent {
                        key: self.end.key,
                        seq: self.numbers.sent,
                        tries: asked.tries,
                    });
                }
                let datagram = query_packet(alloc, &self.end, self.numbers.sent)?;
                Ok(Datagrams::one(alloc, datagram)?)
            }
            _ => Ok(Datagrams::new(alloc)),
        }
    }

    /// The second half: the status query that is due was emitted, and is due again after a longer time. Takes no memory.
    pub fn query_done(&mut self, now: u64)
        requires last { now ≤ last_tick }
        requires due { query_due now self.old.asked ≡ true }
        requires answered { is_unanswered self.old.settings.retries now self.old.asked ≡ false }
        ensures { self.new ≡ querying now self.old }
    {
        self.asked = again(&self.window, self.asked, now);
    }
}
