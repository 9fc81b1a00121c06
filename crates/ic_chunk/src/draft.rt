// A payload while it is read.
ghost use Rattle.std.specs.Prelude.{◌≡◌, ◌≤◌, ℕ, List, [], ◌++◌, length, take, drop, true, false, None, IfOk, OnOk, MatchOption, vec_len, Ok, Err};
ghost use Rattle.ic_row.specs.Reading.{read_row_of};
ghost use Rattle.ic_chunk.specs.Chunks.{chunk_of};
ghost use Rattle.ic_chunk.specs.Reading.{is_nil, may_stand, goes, ends, does, goes_on};
ghost use Rattle.ic_chunk.specs.Joining.{Keeps, Stops, IsTold, told};

use crate::chunk::{ChunkKind, chunk_at};
use crate::fault::FeedNo;
use ic_row::{Row, RowNo, Rows, read_row};
use std::alloc::{AllocError, Global};

/// What was read of a payload so far. It only appends to the bytes that it was given, so that the caller can have them
/// back.
#[derive(Drop)]
pub(crate) struct Draft {
    /// The bytes of an unfinished row from earlier payloads, and then the bodies of this payload's starts, middles and
    /// ends.
    pub bytes: Vec<u8>,
    /// The position in these bytes at which the unfinished row begins; their end if no row is unfinished.
    pub from: usize,
    /// Whether the end of stream came.
    pub ended: bool,
    /// The rows that ended in this payload.
    pub rows: Rows,
    ghost within: { from ≤ vec_len bytes },
}

/// Whether a chunk of this kind is allowed here, between two rows or within a row.
fn may_stand(kind: ChunkKind, between: bool) -> bool
    ensures { (rest : List ℕ) → is_nil rest ≡ between → result ≡ may_stand kind rest }
{
    match kind {
        ChunkKind::Whole | ChunkKind::Start | ChunkKind::EndOfStream => between,
        ChunkKind::Middle | ChunkKind::End => !between,
        ChunkKind::Empty => true,
    }
}

/// The row that the bytes spell, or `None` if they spell none.
fn row_of(alloc: Global, bytes: &[u8]) -> Result<Option<Row>, AllocError>
    ensures { IfOk result (λ found. MatchOption found
        (ends (read_row_of bytes.now) ≡ None)
        (λ row. read_row_of bytes.now ≡ Ok row)) }
{
    match read_row(alloc, bytes) {
        Ok(row) => Ok(Some(row)),
        Err(RowNo::RowFault(_)) => Ok(None),
        Err(RowNo::Memory) => Err(AllocError),
    }
}

impl Draft {
    ghost use Rattle.ic_chunk.specs.Drafts.{standing, Takes, Reads};

    /// Takes a chunk. Gives `false` if the chunk can't come next in the stream.
    fn take(&mut self, alloc: Global, kind: ChunkKind, body: &[u8]) -> Result<bool, AllocError>
        ensures took { IfOk result (Takes (goes_on (standing self.old) (chunk_of kind body.now)) self.old self.new) }
        ensures keeps { Keeps self.old.bytes.items self.new.bytes.items }
    {
        if self.ended || !may_stand(kind, self.from == self.bytes.len()) {
            return Ok(false);
        }
        self.take_allowed(alloc, kind, body)
    }

    /// Takes a chunk of a kind that is allowed here. Gives `false` if its bytes spell no row.
    fn take_allowed(
        &mut self,
        alloc: Global,
        kind: ChunkKind,
        body: &[u8],
    ) -> Result<bool, AllocError>
        requires open { self.old.ended ≡ false }
        requires allowed { may_stand kind (standing self.old).rest ≡ true }
        ensures took { IfOk result (Takes (does kind (standing self.old).rest body.now) self.old self.new) }
        ensures keeps { Keeps self.old.bytes.items self.new.bytes.items }
    {
        match kind {
            ChunkKind::Whole => self.take_whole(alloc, body),
            ChunkKind::Start | ChunkKind::Middle => self.take_part(body),
            ChunkKind::End => self.take_end(alloc, body),
            ChunkKind::EndOfStream => {
                self.ended = true;
                Ok(true)
            }
            ChunkKind::Empty => Ok(true),
        }
    }

    fn take_whole(&mut self, alloc: Global, body: &[u8]) -> Result<bool, AllocError>
        requires open { self.old.ended ≡ false }
        requires between { (standing self.old).rest ≡ [] }
        ensures took { IfOk result (Takes (ends (read_row_of body.now)) self.old self.new) }
        ensures keeps { Keeps self.old.bytes.items self.new.bytes.items }
    {
        match row_of(alloc, body)? {
            None => Ok(false),
            Some(row) => {
                self.rows.push(row)?;
                Ok(true)
            }
        }
    }

    fn take_part(&mut self, body: &[u8]) -> Result<bool, AllocError>
        requires open { self.old.ended ≡ false }
        ensures took { IfOk result (Takes (goes ((standing self.old).rest ++ body.now)) self.old self.new) }
        ensures keeps { Keeps self.old.bytes.items self.new.bytes.items }
    {
        self.bytes.extend_from_slice(body)?;
        Ok(true)
    }

    fn take_end(&mut self, alloc: Global, body: &[u8]) -> Result<bool, AllocError>
        requires open { self.old.ended ≡ false }
        ensures took { IfOk result (Takes (ends (read_row_of ((standing self.old).rest ++ body.now))) self.old self.new) }
        ensures keeps { Keeps self.old.bytes.items self.new.bytes.items }
    {
        self.bytes.extend_from_slice(body)?;
        let (_, spelling) = self.bytes.as_slice().split_at(self.from);
        match row_of(alloc, spelling)? {
            None => Ok(false),
            Some(row) => {
                self.rows.push(row)?;
                self.from = self.bytes.len();
                Ok(true)
            }
        }
    }

    /// Reads a payload from its first chunk to its last, each once.
    pub(crate) fn read(&mut self, alloc: Global, payload: &[u8]) -> Result<(), FeedNo>
        ensures ok { OnOk result (Reads payload.now self.old self.new) }
        ensures fault { (k : ℕ) → result ≡ Err (FeedNo.ChunkFault k)
            → IsTold (λ count. Stops payload.now count (standing self.old)) k }
        ensures keeps { Keeps self.old.bytes.items self.new.bytes.items }
    {
        let mut left = payload;
        let mut count = 0usize;
        while !left.is_empty() {
            let Some((kind, body, more)) = chunk_at(left) else {
                return Err(fault_at(count));
            };
            if !self.take(alloc, kind, body)? {
                return Err(fault_at(count));
            }
            left = more;
            count += 1;
        }
        Ok(())
    }

    /// The bytes that it was given, without those that it appended.
    pub(crate) fn taken_back(self, kept: usize) -> Vec<u8>
        ensures { result.items ≡ take kept self.bytes.items }
    {
        let Draft { mut bytes, .. } = self;
        bytes.truncate(kept);
        bytes
    }
}

fn fault_at(count: usize) -> FeedNo
    ensures { result ≡ FeedNo.ChunkFault (told count) }
{
    FeedNo::ChunkFault {
        chunk: count.min(u32::MAX as usize) as u32,
    }
}
