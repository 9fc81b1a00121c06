// Rows cut into chunks.
ghost use Rattle.std.specs.Prelude.{◌≡◌, ℕ, ◌<◌, ◌≤◌, List, [], ◌∷◌, ◌++◌, true, false, OnErr, Ok};
ghost use Rattle.ic_chunk.specs.Cutting.{kind_of};

use crate::chunk::{ChunkKind, push_chunk};
use ic_base::Bytes;
use std::alloc::AllocError;
use std::marker::Model;

/// Bytes of a packet in which a chunk's body has no room: the packet header of 64, the chunk's head of 4, and 4 kept
/// for the end of stream.
const TAKEN: usize = 72;

/// A row's spelling while it is cut into chunks, seen as the list of the chunks still to come. It shares the spelling's
/// bytes, and copies each of them once, into the caller's buffer.
#[derive(Drop)]
pub struct Splitter {
    row: Bytes,
    /// How many bytes of the row were written so far.
    done: usize,
    /// The greatest length of a chunk's body, in bytes.
    room: usize,
}

impl Model for Splitter {
    ghost use Rattle.std.specs.Prelude.{List, ◌<◌, ◌≤◌, ◌^◌, length};
    ghost use Rattle.ic_chunk.specs.Chunks.{Chunk};
    ghost use Rattle.ic_chunk.specs.Cutting.{left_of};

    ghost Value = { List Chunk };

    ghost view = { λ s. left_of s.room s.row s.done };

    ghost invariant = { λ s. (0 < s.room) × (s.room < 2 ^ 16) × (s.done ≤ length s.row) };
}

impl Splitter {
    ghost use Rattle.ic_chunk.specs.Chunks.{Chunk, spelled};
    ghost use Rattle.ic_chunk.specs.Cutting.{chunks_of};

    /// Begins to cut a row's spelling for packets of at most `packet` bytes, 128..=65507. Copies nothing, takes no
    /// memory.
    pub fn new(row: Bytes, packet: u32) -> Splitter
        requires least { 128 ≤ packet }
        requires greatest { packet ≤ 65507 }
        ensures { result ≡ chunks_of packet row }
    {
        Splitter {
            row,
            done: 0,
            room: packet as usize - TAKEN,
        }
    }

    /// Appends the next chunk to `out`. Gives `false` if none is left. Fails only if out of memory.
    pub fn next(&mut self, out: &mut Vec<u8>) -> Result<bool, AllocError>
        ensures chunk { result ≡ Ok true
            → (c : Chunk) × (self.old ≡ c ∷ self.new) × (out.new.items ≡ out.old.items ++ spelled c) }
        ensures last { result ≡ Ok false
            → (self.old ≡ []) × (self.new ≡ []) × (out.new.items ≡ out.old.items) }
        ensures err { OnErr result ((self.new ≡ self.old) × (out.new.items ≡ out.old.items)) }
    {
        let (_, left) = self.row.as_slice().split_at(self.done);
        if left.is_empty() {
            return Ok(false);
        }
        let size = left.len().min(self.room);
        let kind = kind_of(self.done == 0, size == left.len());
        let (body, _) = left.split_at(size);
        push_chunk(out, kind, body)?;
        self.done += size;
        Ok(true)
    }
}

/// The kind of a chunk by whether it has the row's first bytes, and whether it has the last ones.
fn kind_of(first: bool, last: bool) -> ChunkKind
    ensures { result ≡ kind_of first last }
{
    match (first, last) {
        (true, true) => ChunkKind::Whole,
        (true, false) => ChunkKind::Start,
        (false, false) => ChunkKind::Middle,
        (false, true) => ChunkKind::End,
    }
}
