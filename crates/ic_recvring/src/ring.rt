// The ring of one receiving connection.
ghost use Rattle.std.specs.Prelude.{◌≡◌, ℕ, IfOk, IsSome, slice_get, Contains};
ghost use Rattle.ic_recvring.specs.Numbers.{IsRunEnd, IsGreatest, missing};
ghost use Rattle.ic_recvring.specs.Ring.{Ring, IsRing, Stores, empty, numbers, stored_of, front_of, after_front, without};
ghost use Rattle.ic_recvring.specs.Views.{lent};

use crate::answer::Store;
use crate::sealed::Sealed;
use crate::seqs::Seqs;
use crate::slot::{Slot, free_slots, keep};
use crate::window::{absent, is_kept, run_on, top_from};
use std::alloc::{AllocError, Global};
use std::marker::Model;

/// The bytes of a packet that are its header.
const HEADER: u32 = 64;

/// The packets of one connection that came and aren't consumed yet, seen as the number of the last one consumed, the
/// kept packets by increasing number, the depth in packets, and the size of a packet in bytes.
///
/// What TCP calls a reassembly queue: a block of slots, in which packet s stands in slot s modulo the depth. All its room
/// is taken by `with_depth`; a payload is copied once, when it is stored.
#[derive(Drop)]
pub struct RecvRing {
    depth: u32,
    packet: u32,
    consumed: u32,
    /// The end of the run.
    run: u32,
    /// The greatest number stored.
    top: u32,
    /// As many as the ring is deep, each with room for the longest payload.
    slots: Vec<Slot>,
}

impl Model for RecvRing {
    ghost use Rattle.ic_recvring.specs.Ring.{Ring};
    ghost use Rattle.ic_recvring.specs.Views.{ring_of};
    ghost use Rattle.ic_recvring.specs.Room.{IsSound};

    ghost Value = { Ring };

    ghost view = { λ r. ring_of r.depth r.packet r.consumed r.slots.items };

    ghost invariant = { λ r. IsSound r.depth r.packet r.consumed r.run r.top r.slots.items };
}

impl RecvRing {
    /// A ring of which nothing has come, with room for `depth` payloads of `packet - 64` bytes. The room isn't touched
    /// before a packet is stored in it.
    pub fn with_depth(alloc: Global, depth: u32, packet: u32) -> Result<RecvRing, AllocError>
        ensures { IfOk result (λ r. r ≡ empty depth packet) }
    {
        let room = packet.saturating_sub(HEADER) as usize;
        let slots = free_slots(alloc, depth as usize, room)?;
        Ok(RecvRing {
            depth,
            packet,
            consumed: 0,
            run: 0,
            top: 0,
            slots,
        })
    }

    /// A packet came. Copies its payload once into its slot, and takes no memory. Takes a fixed number of steps, and one
    /// more for each packet that it joins to the run.
    pub fn store(&mut self, seq: u32, payload: &[u8], last: bool) -> Store
        ensures stores { (r : ℕ) → IsRunEnd (stored_of self.old) r → Stores self.old r (record { seq = seq; last = last; payload = payload.now }) result self.new }
    {
        if seq <= self.run {
            return Store::Duplicate;
        }
        if seq - self.consumed > self.depth {
            return Store::Beyond;
        }
        if is_kept(self.slots.as_slice(), self.depth, seq) {
            return Store::Duplicate;
        }
        if payload.len() > self.packet.saturating_sub(HEADER) as usize {
            return Store::Beyond;
        }
        let place = (seq % self.depth) as usize;
        keep(&mut self.slots[place], payload, last);
        self.top = self.top.max(seq);
        self.run = run_on(self.slots.as_slice(), self.depth, self.run, self.top);
        Store::Stored
    }

    /// Takes back the packet of this number, as if it hadn't been stored: for whoever can't answer it. Copies nothing,
    /// and its slot is free again.
    pub fn take_back(&mut self, seq: u32)
        requires { Contains (numbers self.old.kept) seq }
        ensures { self.new ≡ without seq self.old }
    {
        let place = (seq % self.depth) as usize;
        self.slots[place].kept = false;
        self.run = self.run.min(seq - 1);
        self.top = top_from(self.slots.as_slice(), self.depth, self.consumed, self.top);
    }

    /// The packet that is to be consumed next, once it came.
    pub fn front(&self) -> Option<Sealed<'_>>
        ensures value { lent result ≡ front_of self.now }
        ensures ring { IsRing self.now }
    {
        if self.consumed >= self.run {
            return None;
        }
        let seq = self.consumed + 1;
        let slot = &self.slots[(seq % self.depth) as usize];
        Some(Sealed {
            seq,
            last: slot.last,
            payload: slot.payload.as_slice(),
        })
    }

    /// Lets the front go. Copies nothing.
    pub fn consume(&mut self)
        requires { IsSome (front_of self.old) }
        ensures front { front_of self.old ≡ slice_get self.old.kept 0 }
        ensures rest { self.new ≡ after_front self.old }
        ensures stored { stored_of self.new ≡ stored_of self.old }
    {
        let seq = self.consumed + 1;
        let place = (seq % self.depth) as usize;
        self.slots[place].kept = false;
        self.consumed = seq;
    }

    /// The greatest number up to which all packets from 1 were stored, 0 if packet 1 wasn't.
    pub fn run_end(&self) -> u32
        ensures value { IsRunEnd (stored_of self.now) result }
        ensures ring { IsRing self.now }
    {
        self.run
    }

    /// The number of the last packet consumed, 0 if none was.
    pub fn consumed(&self) -> u32
        ensures value { result ≡ self.now.consumed }
        ensures ring { IsRing self.now }
    {
        self.consumed
    }

    /// The greatest number stored, consumed or not: the run's end if nothing is kept beyond it.
    pub fn greatest(&self) -> u32
        ensures value { IsGreatest (stored_of self.now) result }
        ensures ring { IsRing self.now }
    {
        self.top
    }

    /// The numbers from the run's end to the greatest that aren't kept, increasing. Looks at each number between the two
    /// once.
    pub fn missing(&self, alloc: Global) -> Result<Seqs, AllocError>
        ensures ok { IfOk result (λ seqs. (r g : ℕ) → IsRunEnd (stored_of self.now) r → IsGreatest (stored_of self.now) g
            → seqs ≡ missing (stored_of self.now) r g) }
    {
        let seqs = absent(alloc, self.slots.as_slice(), self.depth, self.run, self.top)?;
        Ok(Seqs::from_vec(seqs))
    }
}
