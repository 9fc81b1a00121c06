// The slots of a ring.
ghost use Rattle.std.specs.Prelude.{◌≡◌, ◌≤◌, ◌<◌, ◌%◌, length, true, false, replicate, vec_len, vec_capacity, is_some, All, IfOk};
ghost use Rattle.ic_recvring.specs.Views.{packet_in};
ghost use Rattle.ic_recvring.specs.Room.{HasRoom, AreFree};

use std::alloc::{AllocError, Global};

/// A slot, with its buffer: packet s stands in slot s modulo the depth.
#[derive(Drop)]
pub(crate) struct Slot {
    /// Whether a packet is kept in it.
    pub kept: bool,
    pub last: bool,
    pub payload: Vec<u8>,
}

/// So many slots in which nothing is kept, each with room for so many bytes. Touches no byte of them.
pub(crate) fn free_slots(alloc: Global, count: usize, room: usize) -> Result<Vec<Slot>, AllocError>
    ensures count { IfOk result (λ v. length v.items ≡ count) }
    ensures rooms { IfOk result (λ v. All (HasRoom room) v.items) }
    ensures free { IfOk result (λ v. AreFree v.items) }
{
    let mut slots = Vec::with_capacity(alloc, count)?;
    for _ in 0..count {
        let payload = Vec::with_capacity(alloc, room)?;
        slots.push(Slot {
            kept: false,
            last: false,
            payload,
        })?;
    }
    Ok(slots)
}

/// A packet is kept in this slot from now on. Copies its bytes, and takes no memory.
pub(crate) fn keep(slot: &mut Slot, bytes: &[u8], last: bool)
    requires { length bytes.now ≤ vec_capacity slot.old.payload }
    ensures kept { slot.new.kept ≡ true }
    ensures last { slot.new.last ≡ last }
    ensures payload { slot.new.payload.items ≡ bytes.now }
    ensures capacity { vec_capacity slot.old.payload ≤ vec_capacity slot.new.payload }
{
    slot.kept = true;
    slot.last = last;
    slot.payload.clear();
    if slot.payload.extend_from_slice(bytes).is_err() {
        unreachable!();
    }
}
