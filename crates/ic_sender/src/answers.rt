// The answers of the receiving end.
ghost use Rattle.std.specs.Prelude.{◌≡◌, ◌≢◌, ◌≤◌, ◌<◌, ◌+◌, ◌-◌, ◌⊎◌, ℕ, [], ◌∷◌, ◌++◌, true, false, length, filter, map, nat_lt, max, min, ◌^◌, Ok, IfOk, OnErr, OnOk, vec_len, vec_capacity};
ghost use Rattle.std.specs.Option.{option_map};
ghost use Rattle.ic_header.specs.declared.flags.Flags.TheVariants.{Ack, Stop, Nak, Disorder, Duplicate};
ghost use Rattle.ic_header.specs.Spelling.{AllowsBody};
ghost use Rattle.ic_expire.specs.Items.{is_upto};
ghost use Rattle.ic_expire.specs.Queue.{without};
ghost use Rattle.ic_law.specs.Numbers.{IsIncreasingFrom, last_or};
ghost use Rattle.ic_sender.specs.Listed.{Rises};
ghost use Rattle.ic_sender.specs.Sending.{Sending, run_with, hearing, datagrams_again, halting, lost_with, counted, marked, named};
ghost use Rattle.ic_sender.specs.Sending.{freed_window as freed_in, sample_by};
ghost use Rattle.ic_sender.specs.Calls.{Hears, Gives, IsNow, WaitsAlone, LeavesRoom, unsent, acknowledging, repeating, missing_of, unknown, IsStrayAck, IsStrayDuplicate, IsStrayDisorder, IsStrayNak, IsStrayListing};
ghost use Rattle.ic_sender.specs.Entries.{IsHearing};
ghost use Rattle.ic_sender.specs.Standing.{StandsOn};
ghost use Rattle.ic_sender.specs.Views.{told};

use crate::flight::{Flight, find, free, hear_all, join, push_copies_above};
use crate::listing::{last_increasing, word, words};
use crate::numbers::{Numbers, later};
use crate::planning::plan_end;
use crate::send_no::SendNo;
use crate::sender::Sender;
use crate::waiting::wait_all;
use ic_base::{Datagram, Datagrams};
use ic_expire::Expiry;
use ic_window::Window;
use std::alloc::{AllocError, Global};

/// What an answer tells.
#[derive(Clone, Copy)]
pub(crate) struct Answer<'a> {
    /// The end of the run that came.
    pub run: u32,
    /// How many packets were consumed.
    pub consumed: u32,
    /// The packet that it names.
    pub names: Option<u32>,
    /// The packets that are missing.
    pub lists: &'a [u32],
}

/// A window with the time of this packet, if it was never emitted again: Karn's rule.
fn sampled(window: &Window, flight: Option<&Flight>, now: u64) -> Window
    ensures { result ≡ sample_by now (option_map (λ f. f.now) flight.entry) window.now }
{
    let mut window = *window;
    match flight {
        Some(flight) if !flight.resent => {
            window.sample(now.saturating_sub(flight.since));
            window
        }
        _ => window,
    }
}

/// A window that lost, if anything was emitted again.
fn with_loss(window: &Window, again: &[Datagram]) -> Window
    ensures { result ≡ lost_with again.now window.now }
{
    let mut window = *window;
    if again.is_empty() {
        return window;
    }
    window.lost();
    window
}

/// An answer names a packet and lists others.
fn hear_listed(flights: &mut Vec<Flight>, names: Option<u32>, lists: &[u32])
    requires { Rises lists.now }
    ensures items { flights.new.items ≡ map (λ f. marked lists.now (named names f)) flights.old.items }
    ensures len { vec_len flights.new ≡ vec_len flights.old }
    ensures capacity { vec_capacity flights.new ≡ vec_capacity flights.old }
{
    hear_all(flights.as_mut_slice(), names, lists);
}

impl Sender {
    /// The window once the packets up to the run's end are freed.
    fn freed_window(&self, run: u32, now: u64) -> Window
        ensures { result ≡ freed_in now run self.now }
    {
        let freed = run.saturating_sub(self.numbers.acked);
        let mut window = self.window;
        if freed == 0 {
            return window;
        }
        window.grown(freed);
        sampled(&window, find(self.flights.as_slice(), run), now)
    }

    /// An answer that isn't a stray one: what it frees is freed, what it lists goes out again, and then what there is
    /// room for.
    fn hear(
        &mut self,
        alloc: Global,
        answer: &Answer<'_>,
        now: u64,
        expiry: &mut Expiry,
    ) -> Result<Datagrams, AllocError>
        requires run { answer.now.run ≤ self.old.sent }
        requires rises { Rises answer.now.lists.now }
        requires now { IsNow now expiry.old }
        requires alone { WaitsAlone self.old expiry.old }
        requires room { LeavesRoom (unsent self.old) expiry.old }
        ensures ok { IfOk result (λ ds. Gives (hearing now (told answer.now) self.old) (without (is_upto self.old.conn (run_with (told answer.now) self.old)) expiry.old.held) now
            (datagrams_again now (told answer.now) self.old) ds self.new expiry.old expiry.new) }
        ensures memory { OnErr result ((self.new ≡ self.old) × (expiry.new ≡ expiry.old)) }
    {
        let run = self.numbers.acked.max(answer.run);
        let mut datagrams = Vec::new(alloc);
        push_copies_above(self.flights.as_slice(), run, answer.lists, &mut datagrams)?;
        let again = datagrams.len() as u128;
        let freed = self.freed_window(run, now);
        let window = with_loss(&freed, datagrams.as_slice());
        let asked = later(&freed, self.asked, now);
        let numbers = Numbers {
            sealed: self.numbers.sealed,
            sent: self.numbers.sent,
            acked: run,
            consumed: self.numbers.consumed.max(answer.consumed),
        };
        let depth = self.settings.receive_depth;
        let plan = plan_end(
            alloc,
            &self.end,
            &self.ring,
            None,
            &numbers,
            &window,
            depth,
            asked,
            now,
            &mut datagrams,
        )?;
        self.flights.reserve(plan.flights.len())?;
        expiry.cut(self.conn, run);
        let _freed = self.ring.acked(run);
        free(&mut self.flights, run);
        hear_listed(&mut self.flights, answer.names, answer.lists);
        wait_all(expiry, self.conn, plan.flights.as_slice(), plan.due);
        self.numbers.sent += plan.count;
        self.numbers.acked = run;
        self.numbers.consumed = numbers.consumed;
        self.window = window;
        self.asked = plan.asked;
        self.resent = self.resent.saturating_add(again);
        join(&mut self.flights, plan.flights);
        Ok(Datagrams::from_vec(datagrams))
    }

    /// An acknowledgement came: packets up to `seq` came, and `extra` were consumed. Frees what it acknowledges, and
    /// emits what there is room for.
    pub fn on_ack(
        &mut self,
        alloc: Global,
        seq: u32,
        extra: u32,
        now: u64,
        expiry: &mut Expiry,
    ) -> Result<Datagrams, SendNo>
        requires now { IsNow now expiry.old }
        requires alone { self.old.stopped ≡ false → WaitsAlone self.old expiry.old }
        requires room { self.old.stopped ≡ false → LeavesRoom (unsent self.old) expiry.old }
        ensures hears { Hears self.old expiry.old now (IsStrayAck self.old seq extra) (acknowledging seq extra) result self.new expiry.new }
        ensures stands { StandsOn now self.old expiry.old.held self.new expiry.new.held (IsHearing self.old.end.key Ack seq extra [] result) }
    {
        self.ack(alloc, seq, extra, now, expiry)
    }

    fn ack(
        &mut self,
        alloc: Global,
        seq: u32,
        extra: u32,
        now: u64,
        expiry: &mut Expiry,
    ) -> Result<Datagrams, SendNo>
        requires now { IsNow now expiry.old }
        requires alone { self.old.stopped ≡ false → WaitsAlone self.old expiry.old }
        requires room { self.old.stopped ≡ false → LeavesRoom (unsent self.old) expiry.old }
        ensures { Hears self.old expiry.old now (IsStrayAck self.old seq extra) (acknowledging seq extra) result self.new expiry.new }
    {
        if self.stopped {
            return Ok(Datagrams::new(alloc));
        }
        if seq > self.numbers.sent {
            return Err(SendNo::Stray);
        }
        if extra > seq {
            return Err(SendNo::Stray);
        }
        let answer = Answer {
            run: seq,
            consumed: extra,
            names: None,
            lists: &[],
        };
        Ok(self.hear(alloc, &answer, now, expiry)?)
    }

    /// Packet `seq` came before, and the run ends at `extra`. Frees up to there, and emits what there is room for.
    pub fn on_duplicate(
        &mut self,
        alloc: Global,
        seq: u32,
        extra: u32,
        now: u64,
        expiry: &mut Expiry,
    ) -> Result<Datagrams, SendNo>
        requires now { IsNow now expiry.old }
        requires alone { self.old.stopped ≡ false → WaitsAlone self.old expiry.old }
        requires room { self.old.stopped ≡ false → LeavesRoom (unsent self.old) expiry.old }
        ensures hears { Hears self.old expiry.old now (IsStrayDuplicate self.old seq extra) (repeating seq extra) result self.new expiry.new }
        ensures stands { StandsOn now self.old expiry.old.held self.new expiry.new.held (IsHearing self.old.end.key Duplicate seq extra [] result) }
    {
        self.duplicate(alloc, seq, extra, now, expiry)
    }

    fn duplicate(
        &mut self,
        alloc: Global,
        seq: u32,
        extra: u32,
        now: u64,
        expiry: &mut Expiry,
    ) -> Result<Datagrams, SendNo>
        requires now { IsNow now expiry.old }
        requires alone { self.old.stopped ≡ false → WaitsAlone self.old expiry.old }
        requires room { self.old.stopped ≡ false → LeavesRoom (unsent self.old) expiry.old }
        ensures { Hears self.old expiry.old now (IsStrayDuplicate self.old seq extra) (repeating seq extra) result self.new expiry.new }
    {
        if self.stopped {
            return Ok(Datagrams::new(alloc));
        }
        if seq > self.numbers.sent {
            return Err(SendNo::Stray);
        }
        if extra > self.numbers.sent {
            return Err(SendNo::Stray);
        }
        let answer = Answer {
            run: extra,
            consumed: 0,
            names: Some(seq),
            lists: &[],
        };
        Ok(self.hear(alloc, &answer, now, expiry)?)
    }

    /// Packet `seq` came before there was such a connection: it is alive, and is emitted again when it is due.
    pub fn on_nak(
        &mut self,
        alloc: Global,
        seq: u32,
        now: u64,
        expiry: &mut Expiry,
    ) -> Result<Datagrams, SendNo>
        requires now { IsNow now expiry.old }
        requires alone { self.old.stopped ≡ false → WaitsAlone self.old expiry.old }
        requires room { self.old.stopped ≡ false → LeavesRoom (unsent self.old) expiry.old }
        ensures hears { Hears self.old expiry.old now (IsStrayNak self.old seq) (unknown seq) result self.new expiry.new }
        ensures stands { (extra : ℕ) → StandsOn now self.old expiry.old.held self.new expiry.new.held (IsHearing self.old.end.key Nak seq extra [] result) }
    {
        self.nak(alloc, seq, now, expiry)
    }

    fn nak(
        &mut self,
        alloc: Global,
        seq: u32,
        now: u64,
        expiry: &mut Expiry,
    ) -> Result<Datagrams, SendNo>
        requires now { IsNow now expiry.old }
        requires alone { self.old.stopped ≡ false → WaitsAlone self.old expiry.old }
        requires room { self.old.stopped ≡ false → LeavesRoom (unsent self.old) expiry.old }
        ensures { Hears self.old expiry.old now (IsStrayNak self.old seq) (unknown seq) result self.new expiry.new }
    {
        if self.stopped {
            return Ok(Datagrams::new(alloc));
        }
        if seq > self.numbers.sent {
            return Err(SendNo::Stray);
        }
        let answer = Answer {
            run: 0,
            consumed: 0,
            names: Some(seq),
            lists: &[],
        };
        Ok(self.hear(alloc, &answer, now, expiry)?)
    }

    /// Whether a report of what is missing is a stray one.
    fn is_stray(&self, seq: u32, extra: u32, numbers: &[u32]) -> bool
        ensures yes { result ≡ true → IsStrayListing self.now.sent seq extra numbers.now }
        ensures no { result ≡ false → IsStrayListing self.now.sent seq extra numbers.now → ⊥ }
        ensures rises { result ≡ false → Rises numbers.now }
    {
        if seq > self.numbers.sent {
            return true;
        }
        if extra > self.numbers.sent {
            return true;
        }
        match last_increasing(numbers) {
            Some(last) => extra <= last,
            None => true,
        }
    }

    /// Packet `seq` came after a gap, `extra` is the greatest that came, and `missing` has the numbers that are missing
    /// below it, four bytes each. Frees what is before the first of them, emits those again that are on their way, and
    /// then what there is room for. Reads the numbers into memory once, and goes over them once; each packet on its way
    /// is looked at for each number that is not above it.
    pub fn on_disorder(
        &mut self,
        alloc: Global,
        seq: u32,
        extra: u32,
        missing: &[u8],
        now: u64,
        expiry: &mut Expiry,
    ) -> Result<Datagrams, SendNo>
        requires allowed { AllowsBody Disorder (length missing.now) }
        requires now { IsNow now expiry.old }
        requires alone { self.old.stopped ≡ false → WaitsAlone self.old expiry.old }
        requires room { self.old.stopped ≡ false → LeavesRoom (unsent self.old) expiry.old }
        ensures hears { Hears self.old expiry.old now (IsStrayDisorder self.old seq extra missing.now) (missing_of seq missing.now) result self.new expiry.new }
        ensures stands { StandsOn now self.old expiry.old.held self.new expiry.new.held (IsHearing self.old.end.key Disorder seq extra missing.now result) }
    {
        self.disorder(alloc, seq, extra, missing, now, expiry)
    }

    fn disorder(
        &mut self,
        alloc: Global,
        seq: u32,
        extra: u32,
        missing: &[u8],
        now: u64,
        expiry: &mut Expiry,
    ) -> Result<Datagrams, SendNo>
        requires allowed { AllowsBody Disorder (length missing.now) }
        requires now { IsNow now expiry.old }
        requires alone { self.old.stopped ≡ false → WaitsAlone self.old expiry.old }
        requires room { self.old.stopped ≡ false → LeavesRoom (unsent self.old) expiry.old }
        ensures { Hears self.old expiry.old now (IsStrayDisorder self.old seq extra missing.now) (missing_of seq missing.now) result self.new expiry.new }
    {
        if self.stopped {
            return Ok(Datagrams::new(alloc));
        }
        let numbers = words(alloc, missing)?;
        if self.is_stray(seq, extra, numbers.as_slice()) {
            return Err(SendNo::Stray);
        }
        let answer = Answer {
            run: word(missing, 0).saturating_sub(1),
            consumed: 0,
            names: Some(seq),
            lists: numbers.as_slice(),
        };
        Ok(self.hear(alloc, &answer, now, expiry)?)
    }

    /// The receiving end wants no more. Keeps nothing, and nothing waits. Takes no memory.
    pub fn on_stop(&mut self, expiry: &mut Expiry)
        ensures halts { self.new ≡ halting self.old }
        ensures waits { expiry.new ≡ record expiry.old { held = without (is_upto self.old.conn self.old.sent) expiry.old.held } }
        ensures stands { (now seq extra : ℕ) → StandsOn now self.old expiry.old.held self.new expiry.new.held (IsHearing self.old.end.key Stop seq extra [] (Ok [])) }
    {
        self.stop(expiry);
    }

    fn stop(&mut self, expiry: &mut Expiry)
        ensures halts { self.new ≡ halting self.old }
        ensures waits { expiry.new ≡ record expiry.old { held = without (is_upto self.old.conn self.old.sent) expiry.old.held } }
    {
        expiry.cut(self.conn, self.numbers.sent);
        self.ring.clear();
        self.flights.clear();
        self.asked = None;
        self.stopped = true;
    }
}
