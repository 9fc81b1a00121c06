// The packets of a ring, and the block of their payloads.
ghost use Rattle.std.specs.Prelude.{◌≡◌, ◌+◌, ◌<◌, ◌≤◌, [], ◌∷◌, ◌++◌, ℕ, length, vec_capacity};
ghost use Rattle.std.specs.List.{between};
ghost use Rattle.circular_buffer.specs.Buffer.{buffer};
ghost use Rattle.ic_sendring.specs.Views.{packet_of};

use crate::sealed::Sealed;
use circular_buffer::HeapCircularBuffer;

/// A packet that is kept: its number, whether it has the end of stream, and its payload's slot in the block.
#[derive(Clone, Copy)]
pub(crate) struct Slot {
    pub seq: u32,
    pub last: bool,
    /// If its slot begins.
    pub at: usize,
    /// How many bytes of the slot are its payload.
    pub len: usize,
}

impl Slot {
    /// The packet, with its bytes in the block.
    pub(crate) fn lend<'a>(&self, block: &'a [u8]) -> Sealed<'a>
        requires { self.now.at + self.now.len ≤ length block.now }
        ensures seq { result.seq ≡ self.now.seq }
        ensures last { result.last ≡ self.now.last }
        ensures payload { result.payload.now ≡ (packet_of block.now self.now).payload }
    {
        Sealed {
            seq: self.seq,
            last: self.last,
            payload: &block[self.at..self.at + self.len],
        }
    }
}

/// Makes the slot that begins at `at` part of the block, if it isn't yet: slots are used one after another at
/// first. Takes no memory.
fn reach(block: &mut Vec<u8>, end: usize)
    requires { end ≤ vec_capacity block.old }
    ensures end { end ≤ length block.new.items }
    ensures longer { length block.old.items ≤ length block.new.items }
    ensures same { (a e : ℕ) → e ≤ length block.old.items → between a e block.new.items ≡ between a e block.old.items }
    ensures capacity { vec_capacity block.old ≤ vec_capacity block.new }
{
    if block.len() < end {
        if block.resize(end, 0).is_err() {
            unreachable!();
        }
    }
}

/// Writes bytes at a place of the block.
fn write(block: &mut Vec<u8>, at: usize, bytes: &[u8])
    requires { at + length bytes.now ≤ length block.old.items }
    ensures here { between at (at + length bytes.now) block.new.items ≡ bytes.now }
    ensures before { (a e : ℕ) → e ≤ at → between a e block.new.items ≡ between a e block.old.items }
    ensures behind { (a e : ℕ) → at + length bytes.now ≤ a → between a e block.new.items ≡ between a e block.old.items }
    ensures len { length block.new.items ≡ length block.old.items }
    ensures capacity { vec_capacity block.old ≤ vec_capacity block.new }
{
    let end = at + bytes.len();
    block[at..end].copy_from_slice(bytes);
}

/// Fills the slot of `room` bytes that begins at `at`, and leaves the others. Copies the bytes, and takes no memory.
pub(crate) fn fill(block: &mut Vec<u8>, at: usize, room: usize, bytes: &[u8])
    requires within { at + room ≤ vec_capacity block.old }
    requires fits { length bytes.now ≤ room }
    ensures here { between at (at + length bytes.now) block.new.items ≡ bytes.now }
    ensures before { (a e : ℕ) → e ≤ at → e ≤ length block.old.items → between a e block.new.items ≡ between a e block.old.items }
    ensures behind { (a e : ℕ) → at + room ≤ a → e ≤ length block.old.items → between a e block.new.items ≡ between a e block.old.items }
    ensures end { at + room ≤ length block.new.items }
    ensures longer { length block.old.items ≤ length block.new.items }
    ensures capacity { vec_capacity block.old ≤ vec_capacity block.new }
{
    reach(block, at + room);
    write(block, at, bytes);
}

/// Adds a packet after the others. Takes no memory.
pub(crate) fn push(slots: &mut HeapCircularBuffer<Slot>, slot: Slot)
    requires { length slots.old.items < slots.old.capacity }
    ensures { slots.new ≡ buffer (slots.old.items ++ slot ∷ []) slots.old.capacity }
{
    if slots.try_push_back(slot).is_err() {
        unreachable!();
    }
}
