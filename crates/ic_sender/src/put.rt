// Chunks that are put on a connection, and the end of stream.
ghost use Rattle.std.specs.Prelude.{◌≡◌, ◌≤◌, ◌<◌, ◌+◌, ◌-◌, ◌^◌, ◌++◌, [], ◌∷◌, true, false, length, nat_le, nat_lt, if◌then◌else◌, vec_capacity, IfOk, OnErr, OnOk, IfErr};
ghost use Rattle.ic_chunk.specs.Chunks.{spelled, end_of_stream};
ghost use Rattle.ic_sendring.specs.Ring.{room_of, next_packet};
ghost use Rattle.ic_sender.specs.Sending.{Sending, adding, ending, sealing};
ghost use Rattle.ic_sender.specs.Calls.{Puts, NeedsPacket, Gives, Refused, IsNow, WaitsAlone, LeavesRoom, unsent, unsealed};
ghost use Rattle.ic_sender.specs.Entries.{IsPutting, IsFinishing};
ghost use Rattle.ic_sender.specs.Standing.{StandsOn};

use crate::flight::join;
use crate::planning::plan_end;
use crate::send_no::SendNo;
use crate::sender::Sender;
use crate::waiting::wait_all;
use ic_base::Datagrams;
use ic_expire::Expiry;
use ic_sendring::{Sealed, SendRing};
use std::alloc::{AllocError, Global};

/// What a packet needs beside its chunks: 64 bytes for the header, and 4 for the end of stream.
const BESIDE: usize = 68;

/// The end of stream, as a chunk: no bytes, of kind 4.
const END: [u8; 4] = [0, 0, 0, 4];

/// Puts bytes in place of others, if there is room. Takes no memory.
fn refill(opened: &mut Vec<u8>, bytes: &[u8])
    requires { length bytes.now ≤ vec_capacity opened.old }
    ensures items { opened.new.items ≡ bytes.now }
    ensures capacity { vec_capacity opened.old ≤ vec_capacity opened.new }
{
    opened.clear();
    if opened.extend_from_slice(bytes).is_err() {
        unreachable!();
    }
}

/// Adds bytes, if there is room. Takes no memory.
fn fill(opened: &mut Vec<u8>, bytes: &[u8])
    requires { length opened.old.items + length bytes.now ≤ vec_capacity opened.old }
    ensures items { opened.new.items ≡ opened.old.items ++ bytes.now }
    ensures capacity { vec_capacity opened.old ≤ vec_capacity opened.new }
{
    if opened.extend_from_slice(bytes).is_err() {
        unreachable!();
    }
}

/// Seals a payload, if there is room. Takes no memory.
fn seal(ring: &mut SendRing, payload: &[u8], last: bool)
    requires kept { length ring.old.kept < ring.old.depth }
    requires number { ring.old.sealed + 1 < 4294967296 }
    requires fits { length payload.now ≤ room_of ring.old.packet }
    ensures { ring.new ≡ record ring.old { sealed = ring.old.sealed + 1; kept = ring.old.kept ++ next_packet ring.old payload.now last ∷ [] } }
{
    if ring.seal(payload, last).is_err() {
        unreachable!();
    }
}

/// A payload with the end of stream after it.
#[tactic(auto, unfolding(ic_chunk::specs::Chunks::spelled))]
fn with_end(alloc: Global, payload: &[u8]) -> Result<Vec<u8>, AllocError>
    requires { length payload.now ≤ 65507 }
    ensures { IfOk result (λ v. v.items ≡ payload.now ++ spelled end_of_stream) }
{
    let mut bytes = Vec::with_capacity(alloc, payload.len() + END.len())?;
    bytes.extend_from_slice(payload)?;
    bytes.extend_from_slice(&END)?;
    Ok(bytes)
}

impl Sender {
    /// Whether a chunk of this length fits in the packet that is being filled.
    fn fits(&self, chunk: usize) -> bool
        requires { chunk + 68 ≤ self.now.settings.packet }
        ensures { result ≡ nat_le (length self.now.opened + chunk + 68) self.now.settings.packet }
    {
        self.opened.len() <= self.settings.packet as usize - BESIDE - chunk
    }

    /// Whether one packet more can be sealed, or why not.
    fn refused(&self) -> Result<(), SendNo>
        ensures ok { OnOk result ((length self.now.kept < self.now.settings.send_depth) × (self.now.sealed + 1 < 2 ^ 32)) }
        ensures err { IfErr result (λ e. Refused self.now e) }
    {
        if self.ring.unacked() >= self.settings.send_depth {
            return Err(SendNo::Full);
        }
        if self.numbers.sealed == u32::MAX {
            return Err(SendNo::TooLong(self.end.key));
        }
        Ok(())
    }

    /// A chunk is appended to the packet that is being filled, if it fits.
    fn append(
        &mut self,
        alloc: Global,
        chunk: &[u8],
        now: u64,
        expiry: &mut Expiry,
    ) -> Result<Datagrams, AllocError>
        requires fits { length self.old.opened + length chunk.now + 68 ≤ self.old.settings.packet }
        requires now { IsNow now expiry.old }
        requires alone { WaitsAlone self.old expiry.old }
        requires room { LeavesRoom (unsent self.old) expiry.old }
        ensures ok { IfOk result (λ ds. Gives (record self.old { opened = self.old.opened ++ chunk.now }) expiry.old.held now [] ds self.new expiry.old expiry.new) }
        ensures memory { OnErr result ((self.new ≡ self.old) × (expiry.new ≡ expiry.old)) }
    {
        let mut datagrams = Vec::new(alloc);
        let depth = self.settings.receive_depth;
        let plan = plan_end(
            alloc,
            &self.end,
            &self.ring,
            None,
            &self.numbers,
            &self.window,
            depth,
            self.asked,
            now,
            &mut datagrams,
        )?;
        self.flights.reserve(plan.flights.len())?;
        fill(&mut self.opened, chunk);
        wait_all(expiry, self.conn, plan.flights.as_slice(), plan.due);
        self.numbers.sent += plan.count;
        self.asked = plan.asked;
        join(&mut self.flights, plan.flights);
        Ok(Datagrams::from_vec(datagrams))
    }

    /// The packet that is being filled is sealed, and the next begins with a chunk.
    fn append_next(
        &mut self,
        alloc: Global,
        chunk: &[u8],
        now: u64,
        expiry: &mut Expiry,
    ) -> Result<Datagrams, AllocError>
        requires fits { length chunk.now + 68 ≤ self.old.settings.packet }
        requires kept { length self.old.kept < self.old.settings.send_depth }
        requires number { self.old.sealed + 1 < 4294967296 }
        requires now { IsNow now expiry.old }
        requires alone { WaitsAlone self.old expiry.old }
        requires room { LeavesRoom (unsent self.old + 1) expiry.old }
        ensures ok { IfOk result (λ ds. Gives (record (sealing self.old.opened false self.old) { opened = chunk.now }) expiry.old.held now [] ds self.new expiry.old expiry.new) }
        ensures memory { OnErr result ((self.new ≡ self.old) × (expiry.new ≡ expiry.old)) }
    {
        let mut datagrams = Vec::new(alloc);
        let depth = self.settings.receive_depth;
        let numbers = self.numbers.with_one();
        let newest = Sealed {
            seq: numbers.sealed,
            last: false,
            payload: self.opened.as_slice(),
        };
        let plan = plan_end(
            alloc,
            &self.end,
            &self.ring,
            Some(newest),
            &numbers,
            &self.window,
            depth,
            self.asked,
            now,
            &mut datagrams,
        )?;
        self.flights.reserve(plan.flights.len())?;
        seal(&mut self.ring, self.opened.as_slice(), false);
        refill(&mut self.opened, chunk);
        wait_all(expiry, self.conn, plan.flights.as_slice(), plan.due);
        self.numbers.sealed += 1;
        self.numbers.sent += plan.count;
        self.asked = plan.asked;
        join(&mut self.flights, plan.flights);
        Ok(Datagrams::from_vec(datagrams))
    }

    /// The packet that is being filled is sealed with the end of stream.
    fn end_stream(
        &mut self,
        alloc: Global,
        now: u64,
        expiry: &mut Expiry,
    ) -> Result<Datagrams, AllocError>
        requires kept { length self.old.kept < self.old.settings.send_depth }
        requires number { self.old.sealed + 1 < 4294967296 }
        requires now { IsNow now expiry.old }
        requires alone { WaitsAlone self.old expiry.old }
        requires room { LeavesRoom (unsent self.old + 1) expiry.old }
        ensures ok { IfOk result (λ ds. Gives (ending self.old) expiry.old.held now [] ds self.new expiry.old expiry.new) }
        ensures memory { OnErr result ((self.new ≡ self.old) × (expiry.new ≡ expiry.old)) }
    {
        let mut datagrams = Vec::new(alloc);
        let depth = self.settings.receive_depth;
        let numbers = self.numbers.with_one();
        let payload = with_end(alloc, self.opened.as_slice())?;
        let newest = Sealed {
            seq: numbers.sealed,
            last: true,
            payload: payload.as_slice(),
        };
        let plan = plan_end(
            alloc,
            &self.end,
            &self.ring,
            Some(newest),
            &numbers,
            &self.window,
            depth,
            self.asked,
            now,
            &mut datagrams,
        )?;
        self.flights.reserve(plan.flights.len())?;
        seal(&mut self.ring, payload.as_slice(), true);
        wait_all(expiry, self.conn, plan.flights.as_slice(), plan.due);
        self.numbers.sealed += 1;
        self.numbers.sent += plan.count;
        self.asked = plan.asked;
        self.finished = true;
        join(&mut self.flights, plan.flights);
        Ok(Datagrams::from_vec(datagrams))
    }

    fn put_running(
        &mut self,
        alloc: Global,
        chunk: &[u8],
        now: u64,
        expiry: &mut Expiry,
    ) -> Result<Datagrams, SendNo>
        requires running { self.old.stopped ≡ false }
        requires most { length chunk.now + 68 ≤ self.old.settings.packet }
        requires now { IsNow now expiry.old }
        requires alone { WaitsAlone self.old expiry.old }
        requires room { LeavesRoom (unsealed self.old) expiry.old }
        ensures { Puts self.old expiry.old now (NeedsPacket self.old chunk.now) (adding chunk.now self.old) result self.new expiry.new }
    {
        if self.fits(chunk.len()) {
            return Ok(self.append(alloc, chunk, now, expiry)?);
        }
        self.refused()?;
        Ok(self.append_next(alloc, chunk, now, expiry)?)
    }

    /// Puts a chunk of 4 bytes or more that isn't an end of stream, and emits what there is room for. If the chunk
    /// doesn't fit in the packet that is being filled, that packet is sealed. `now` is the tick of the queue's last
    /// question, or the one before it. Copies the chunk once, and each packet once when it is sealed and once when it is
    /// first emitted.
    pub fn put(
        &mut self,
        alloc: Global,
        chunk: &[u8],
        now: u64,
        expiry: &mut Expiry,
    ) -> Result<Datagrams, SendNo>
        requires unfinished { self.old.finished ≡ false }
        requires least { 4 ≤ length chunk.now }
        requires most { length chunk.now + 68 ≤ self.old.settings.packet }
        requires now { IsNow now expiry.old }
        requires alone { self.old.stopped ≡ false → WaitsAlone self.old expiry.old }
        requires room { self.old.stopped ≡ false → LeavesRoom (unsealed self.old) expiry.old }
        ensures puts { Puts self.old expiry.old now (NeedsPacket self.old chunk.now) (adding chunk.now self.old) result self.new expiry.new }
        ensures stands { StandsOn now self.old expiry.old.held self.new expiry.new.held (IsPutting self.old.end.key chunk.now result) }
    {
        if self.stopped {
            return Err(SendNo::Stopped);
        }
        self.put_running(alloc, chunk, now, expiry)
    }

    fn finish_running(
        &mut self,
        alloc: Global,
        now: u64,
        expiry: &mut Expiry,
    ) -> Result<Datagrams, SendNo>
        requires running { self.old.stopped ≡ false }
        requires now { IsNow now expiry.old }
        requires alone { WaitsAlone self.old expiry.old }
        requires room { LeavesRoom (unsealed self.old) expiry.old }
        ensures { Puts self.old expiry.old now (Unit {0}) (ending self.old) result self.new expiry.new }
    {
        self.refused()?;
        Ok(self.end_stream(alloc, now, expiry)?)
    }

    /// Puts the end of stream, which seals the packet that is being filled, and emits what there is room for. Copies that
    /// packet once more than a put does.
    pub fn finish(
        &mut self,
        alloc: Global,
        now: u64,
        expiry: &mut Expiry,
    ) -> Result<Datagrams, SendNo>
        requires unfinished { self.old.finished ≡ false }
        requires now { IsNow now expiry.old }
        requires alone { self.old.stopped ≡ false → WaitsAlone self.old expiry.old }
        requires room { self.old.stopped ≡ false → LeavesRoom (unsealed self.old) expiry.old }
        ensures puts { Puts self.old expiry.old now (Unit {0}) (ending self.old) result self.new expiry.new }
        ensures stands { StandsOn now self.old expiry.old.held self.new expiry.new.held (IsFinishing self.old.end.key result) }
    {
        if self.stopped {
            return Err(SendNo::Stopped);
        }
        self.finish_running(alloc, now, expiry)
    }
}
