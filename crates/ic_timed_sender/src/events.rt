// What is put, and the answers that come.
ghost use Rattle.std.specs.Prelude.{◌≡◌, ◌≤◌, ◌<◌, ◌+◌, ◌++◌, ◌^◌, ℕ, List, length, true, false, IfOk, OnErr};
ghost use Rattle.ic_header.specs.Spelling.{AllowsBody};
ghost use Rattle.ic_header.specs.Packets.{goes_forth};
ghost use Rattle.ic_chunk.specs.Counts.{HasCounted};
ghost use Rattle.ic_sender.specs.Sending.{adding, ending};
ghost use Rattle.ic_sender.specs.Calls.{Puts, NeedsPacket, IsNow, WaitsAlone, LeavesRoom, unsent};
ghost use Rattle.ic_sender.specs.Entries.{IsPutting, IsFinishing, IsHearing};
ghost use Rattle.ic_sender.specs.Standing.{StandsOn};
ghost use Rattle.ic_timed_sender.specs.Timed.{queue_of, SameEnd, HearsBy, taken_of};
ghost use Rattle.ic_timed_sender.specs.Emitted.{AreOutgoing};
ghost use Rattle.ic_timed_sender.specs.Standing.{StandsNext};

use crate::timed::{TimedSender, bounded};
use ic_base::Datagrams;
use ic_chunk::count_more;
use ic_expire::Expiry;
use ic_header::{Flags, Header};
use ic_sender::{SendNo, Sender};
use std::alloc::Global;

/// Does nothing. Its clauses: numbers of 32 bits are such.
fn are_words(seq: u32, extra: u32)
    ensures seq { seq < 2 ^ 32 }
    ensures extra { extra < 2 ^ 32 }
{}

/// The count of the rows that were put, with those of a chunk, if it was taken.
fn rows_with(rows: u64, chunk: &[u8], given: &Result<Datagrams, SendNo>) -> u64
    ensures counts { (payloads : List (List ℕ)) → HasCounted payloads rows → HasCounted (payloads ++ taken_of chunk.now given.now) result }
    ensures err { OnErr given.now (result ≡ rows) }
{
    match given {
        Ok(_datagrams) => count_more(rows, chunk),
        Err(_no) => rows,
    }
}

/// An answer, by its kind.
fn answer(
    sender: &mut Sender,
    alloc: Global,
    head: &Header,
    body: &[u8],
    now: u64,
    waits: &mut Expiry,
) -> Result<Datagrams, SendNo>
    requires back { goes_forth head.now.flags ≡ false }
    requires allowed { AllowsBody head.now.flags (length body.now) }
    requires now { IsNow now waits.old }
    requires alone { sender.old.stopped ≡ false → WaitsAlone sender.old waits.old }
    requires room { sender.old.stopped ≡ false → LeavesRoom (unsent sender.old) waits.old }
    ensures hears { HearsBy head.now.flags head.now.seq head.now.extra body.now sender.old waits.old now result sender.new waits.new }
    ensures stands { StandsOn now sender.old waits.old.held sender.new waits.new.held (IsHearing sender.old.end.key head.now.flags head.now.seq head.now.extra body.now result) }
{
    match head.flags {
        Flags::Ack => sender.on_ack(alloc, head.seq, head.extra, now, waits),
        Flags::Nak => sender.on_nak(alloc, head.seq, now, waits),
        Flags::Disorder => sender.on_disorder(alloc, head.seq, head.extra, body, now, waits),
        Flags::Duplicate => sender.on_duplicate(alloc, head.seq, head.extra, now, waits),
        Flags::Stop => {
            sender.on_stop(waits);
            Ok(Datagrams::new(alloc))
        }
        Flags::Rows | Flags::LastRows | Flags::Query => unreachable!(),
    }
}

impl TimedSender {
    /// Puts a chunk of 4 bytes or more that isn't an end of stream, and emits what there is room for. If the chunk
    /// doesn't fit in the packet that is being filled, that packet is sealed. Allocates for the datagrams that go out, and
    /// copies the chunk once, and each packet once when it is sealed and once when it is first emitted. Counts the row that
    /// ends with it, if one does. If it is refused nothing changes.
    pub fn put(&mut self, alloc: Global, chunk: &[u8]) -> Result<Datagrams, SendNo>
        requires unfinished { self.old.sending.finished ≡ false }
        requires least { 4 ≤ length chunk.now }
        requires most { length chunk.now + 68 ≤ self.old.sending.settings.packet }
        ensures puts { Puts self.old.sending (queue_of self.old) self.old.now (NeedsPacket self.old.sending chunk.now) (adding chunk.now self.old.sending) result self.new.sending (queue_of self.new) }
        ensures err { OnErr result (self.new ≡ self.old) }
        ensures end { SameEnd self.old self.new }
        ensures now { self.new.now ≡ self.old.now }
        ensures formed { IfOk result (AreOutgoing self.old.sending) }
        ensures stands { StandsNext self.old self.new (IsPutting self.old.sending.end.key chunk.now result) }
    {
        bounded(&self.sender, &self.waits);
        let given = self.sender.put(alloc, chunk, self.tick, &mut self.waits);
        self.rows = rows_with(self.rows, chunk, &given);
        given
    }

    /// Puts the end of stream, which seals the packet that is being filled, and emits what there is room for. Copies that
    /// packet once more than a put does. If it is refused nothing changes.
    pub fn finish(&mut self, alloc: Global) -> Result<Datagrams, SendNo>
        requires unfinished { self.old.sending.finished ≡ false }
        ensures puts { Puts self.old.sending (queue_of self.old) self.old.now (Unit {0}) (ending self.old.sending) result self.new.sending (queue_of self.new) }
        ensures err { OnErr result (self.new ≡ self.old) }
        ensures end { SameEnd self.old self.new }
        ensures now { self.new.now ≡ self.old.now }
        ensures formed { IfOk result (AreOutgoing self.old.sending) }
        ensures stands { StandsNext self.old self.new (IsFinishing self.old.sending.end.key result) }
    {
        bounded(&self.sender, &self.waits);
        self.sender.finish(alloc, self.tick, &mut self.waits)
    }

    /// An answer of this connection came: it frees what it acknowledges, emits again what it lists, and then what there is
    /// room for. What the two numbers say goes by the kind of the answer; the other fields of the header are read by
    /// nobody here. Allocates for the datagrams that go out, and once for the numbers of a report of what is missing. Copies
    /// each packet that is first emitted, and none that is emitted again. If it is refused nothing changes.
    pub fn hear(&mut self, alloc: Global, head: &Header, body: &[u8]) -> Result<Datagrams, SendNo>
        requires back { goes_forth head.now.flags ≡ false }
        requires allowed { AllowsBody head.now.flags (length body.now) }
        requires fits { 64 + length body.now < 2 ^ 32 }
        ensures hears { HearsBy head.now.flags head.now.seq head.now.extra body.now self.old.sending (queue_of self.old) self.old.now result self.new.sending (queue_of self.new) }
        ensures err { OnErr result (self.new ≡ self.old) }
        ensures end { SameEnd self.old self.new }
        ensures now { self.new.now ≡ self.old.now }
        ensures formed { IfOk result (AreOutgoing self.old.sending) }
        ensures stands { StandsNext self.old self.new (IsHearing self.old.sending.end.key head.now.flags head.now.seq head.now.extra body.now result) }
    {
        are_words(head.seq, head.extra);
        bounded(&self.sender, &self.waits);
        answer(
            &mut self.sender,
            alloc,
            head,
            body,
            self.tick,
            &mut self.waits,
        )
    }
}
