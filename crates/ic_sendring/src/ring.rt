// The ring of one sending connection.
ghost use Rattle.std.specs.Prelude.{◌≡◌, ◌+◌, ◌<◌, ◌≤◌, [], drop, length, false, Some, IfOk, IsSome, IsTrue};
ghost use Rattle.ic_sendring.specs.Ring.{Packet, IsRing, Seals, empty, room_of, next_of, packet_at, with_sent, behind};
ghost use Rattle.ic_sendring.specs.Views.{lent};

use crate::fault::SealNo;
use crate::sealed::Sealed;
use crate::slot::{Slot, fill, push};
use circular_buffer::HeapCircularBuffer;
use std::alloc::{AllocError, Global};
use std::marker::Model;

/// The bytes of a packet that are its header.
const HEADER: u32 = 64;

/// The packets of one connection that are sealed and not acknowledged yet, seen as the number of the last one sealed,
/// the kept packets from the least number on, each with whether it was sent, the depth in packets, and the size of a
/// packet in bytes.
///
/// What TCP calls a send buffer with its retransmission queue. All its room is taken by `with_depth`, with one block for
/// all payloads; a payload is copied once, when it is sealed, and stays in place until it is freed.
#[derive(Drop)]
pub struct SendRing {
    depth: u32,
    packet: u32,
    /// The number of the last packet sealed.
    sealed: u32,
    /// How many of the kept packets were sent, the first ones.
    sent: usize,
    /// By increasing number without a gap, with places for `depth` of them.
    slots: HeapCircularBuffer<Slot>,
    /// Payload slots, one after another: packet s is in slot s - 1 modulo the depth. It is as long as the slots that
    /// were used.
    block: Vec<u8>,
}

impl Model for SendRing {
    ghost use Rattle.std.specs.Prelude.{vec_capacity};
    ghost use Rattle.ic_sendring.specs.Ring.{Ring};
    ghost use Rattle.ic_sendring.specs.Views.{packets_of, ring_of};
    ghost use Rattle.ic_sendring.specs.Room.{IsSound};

    ghost Value = { Ring };

    ghost view = { λ r. ring_of r.depth r.packet r.sealed r.sent (packets_of r.block.items r.slots.items) };

    ghost invariant = { λ r. IsSound r.depth r.packet r.sealed r.sent r.slots.items r.slots.capacity r.block.items (vec_capacity r.block) };
}

impl SendRing {
    /// A ring of which nothing was sealed, with room for `depth` payloads of `packet - 64` bytes. The room isn't touched
    /// before a packet is sealed in it.
    pub fn with_depth(alloc: Global, depth: u32, packet: u32) -> Result<SendRing, AllocError>
        ensures { IfOk result (λ r. r ≡ empty depth packet) }
    {
        let slots = HeapCircularBuffer::with_capacity(alloc, depth as usize)?;
        let room = packet.saturating_sub(HEADER) as usize;
        let block = Vec::with_capacity(alloc, depth as usize * room)?;
        Ok(SendRing {
            depth,
            packet,
            sealed: 0,
            sent: 0,
            slots,
            block,
        })
    }

    /// Gives a payload of at most `packet - 64` bytes the next number, from 1. Copies it once, and takes no memory.
    pub fn seal(&mut self, payload: &[u8], last: bool) -> Result<u32, SealNo>
        requires { length payload.now ≤ room_of self.old.packet }
        ensures seals { Seals self.old payload.now last result self.new }
    {
        if self.slots.len() >= self.depth as usize {
            return Err(SealNo::Full);
        }
        let Some(seq) = self.sealed.checked_add(1) else {
            return Err(SealNo::TooLong);
        };
        let room = self.packet.saturating_sub(HEADER) as usize;
        let at = (self.sealed % self.depth) as usize * room;
        fill(&mut self.block, at, room, payload);
        let len = payload.len();
        push(&mut self.slots, Slot { seq, last, at, len });
        self.sealed = seq;
        Ok(seq)
    }

    /// The first packet that wasn't sent.
    pub fn next_unsent(&self) -> Option<Sealed<'_>>
        ensures value { lent result ≡ next_of self.now }
        ensures ring { IsRing self.now }
    {
        match self.slots.get(self.sent) {
            Some(slot) => Some(slot.lend(self.block.as_slice())),
            None => None,
        }
    }

    /// Marks the first packet that wasn't sent.
    pub fn sent(&mut self)
        requires { IsSome (next_of self.old) }
        ensures next { (p : Packet) → next_of self.old ≡ Some p → self.new ≡ record self.old { kept = with_sent p.seq self.old.kept } }
    {
        self.sent += 1;
    }

    /// Does an acknowledgement up to this number free the first packet?
    fn is_freed_by(&self, upto: u32) -> bool
        ensures some { IsTrue result → 0 < length self.now.kept }
        ensures first { IsTrue result → behind upto (drop 1 self.now.kept) ≡ behind upto self.now.kept }
        ensures none { result ≡ false → behind upto self.now.kept ≡ self.now.kept }
    {
        match self.slots.front() {
            Some(slot) => slot.seq <= upto,
            None => false,
        }
    }

    /// Frees the first packet.
    fn free_first(&mut self)
        requires { 0 < length self.old.kept }
        ensures { self.new ≡ record self.old { kept = drop 1 self.old.kept } }
    {
        let _freed = self.slots.pop_front();
        self.sent = self.sent.saturating_sub(1);
    }

    /// Frees every kept packet with a number at most `upto`, unsent ones too, and says how many. Copies nothing; costs
    /// as many steps as packets are freed.
    pub fn acked(&mut self, upto: u32) -> u32
        ensures kept { self.new ≡ record self.old { kept = behind upto self.old.kept } }
        ensures count { result + length self.new.kept ≡ length self.old.kept }
    {
        let before = self.unacked();
        while self.is_freed_by(upto) {
            self.free_first();
        }
        before - self.unacked()
    }

    /// How many packets are kept, sent or not.
    pub fn unacked(&self) -> u32
        ensures value { result ≡ length self.now.kept }
        ensures ring { IsRing self.now }
    {
        self.slots.len() as u32
    }

    /// The packet of this number, with the bytes that were sealed under it, while it is kept.
    pub fn packet(&self, seq: u32) -> Option<Sealed<'_>>
        ensures value { lent result ≡ packet_at seq self.now }
        ensures ring { IsRing self.now }
    {
        if seq > self.sealed {
            return None;
        }
        // How many packets are after it.
        let behind = (self.sealed - seq) as usize;
        if behind >= self.slots.len() {
            return None;
        }
        match self.slots.get(self.slots.len() - 1 - behind) {
            Some(slot) => Some(slot.lend(self.block.as_slice())),
            None => None,
        }
    }

    /// Frees all packets. Numbers go on.
    pub fn clear(&mut self)
        ensures { self.new ≡ record self.old { kept = [] } }
    {
        let sealed = self.sealed;
        let _freed = self.acked(sealed);
    }
}
