// One chunk, written and read.
ghost use Rattle.std.specs.Prelude.{◌≡◌, ℕ, List, ◌<◌, ◌^◌, ◌++◌, length, OnOk, OnErr};
ghost use Rattle.ic_chunk.specs.Chunks.{chunk_of, kind_number, allows, spelled, end_of_stream};
ghost use Rattle.ic_chunk.specs.Reading.{kind_at, chunk_at};
ghost use Rattle.ic_chunk.specs.Seen.{seen};

use std::alloc::AllocError;

/// What a chunk carries. The chunk's head has its number.
#[derive(Clone, Copy, Debug, PartialEq, Eq)]
pub enum ChunkKind {
    /// A whole row.
    Whole,
    /// The first bytes of a row.
    Start,
    /// Bytes of a row between its first and its last ones.
    Middle,
    /// The last bytes of a row.
    End,
    /// No bytes: the sender has no more rows.
    EndOfStream,
    /// No bytes: the chunk is skipped. It is read but never written.
    Empty,
}

/// The number of a kind, 0..=5.
fn number_of(kind: ChunkKind) -> u16
    ensures { result ≡ kind_number kind }
{
    match kind {
        ChunkKind::Whole => 0,
        ChunkKind::Start => 1,
        ChunkKind::Middle => 2,
        ChunkKind::End => 3,
        ChunkKind::EndOfStream => 4,
        ChunkKind::Empty => 5,
    }
}

/// The four bytes before a body of this many bytes.
#[tactic(auto, unfolding(crate::specs::Chunks::spelled))]
fn head(kind: ChunkKind, size: u16) -> [u8; 4]
    ensures { (body : List ℕ) → length body ≡ size → spelled (chunk_of kind body) ≡ result ++ body }
{
    let size = size.to_be_bytes();
    let number = number_of(kind).to_be_bytes();
    [size[0], size[1], number[0], number[1]]
}

/// Appends a chunk. Allocates at most once, and copies the body once.
pub(crate) fn push_chunk(out: &mut Vec<u8>, kind: ChunkKind, body: &[u8]) -> Result<(), AllocError>
    requires { length body.now < 2 ^ 16 }
    ensures ok { OnOk result (out.new.items ≡ out.old.items ++ spelled (chunk_of kind body.now)) }
    ensures err { OnErr result (out.new.items ≡ out.old.items) }
{
    let head = head(kind, body.len() as u16);
    out.reserve(4 + body.len())?;
    out.extend_from_slice(&head)?;
    out.extend_from_slice(body)?;
    Ok(())
}

/// Appends the end of stream: the four bytes `00 00 00 04`. Fails only if out of memory.
pub fn push_end_of_stream(out: &mut Vec<u8>) -> Result<(), AllocError>
    ensures ok { OnOk result (out.new.items ≡ out.old.items ++ spelled end_of_stream) }
    ensures err { OnErr result (out.new.items ≡ out.old.items) }
{
    push_chunk(out, ChunkKind::EndOfStream, &[])
}

/// The kind with this number, or `None` if there is none.
#[tactic(auto, unfolding(crate::specs::Reading::kind_at))]
fn kind_at(number: u16) -> Option<ChunkKind>
    ensures { result ≡ kind_at number }
{
    match number {
        0 => Some(ChunkKind::Whole),
        1 => Some(ChunkKind::Start),
        2 => Some(ChunkKind::Middle),
        3 => Some(ChunkKind::End),
        4 => Some(ChunkKind::EndOfStream),
        5 => Some(ChunkKind::Empty),
        _ => None,
    }
}

/// Whether a chunk of this kind may have a body of this many bytes.
fn allows(kind: ChunkKind, size: usize) -> bool
    ensures { result ≡ allows kind size }
{
    match kind {
        ChunkKind::EndOfStream | ChunkKind::Empty => size == 0,
        _ => size > 0,
    }
}

/// A chunk's kind, its body, and the bytes after it.
pub(crate) type Found<'a> = Option<(ChunkKind, &'a [u8], &'a [u8])>;

/// The chunk at the front of the bytes. `None` if its head or body is cut off, or if its head isn't allowed.
#[tactic(auto, unfolding(crate::specs::Reading::chunk_at))]
pub(crate) fn chunk_at(bytes: &[u8]) -> Found<'_>
    ensures { seen result ≡ chunk_at bytes.now }
{
    let (size, rest) = bytes.split_first_chunk::<2>()?;
    let (number, rest) = rest.split_first_chunk::<2>()?;
    let kind = kind_at(u16::from_be_bytes(*number))?;
    let size = usize::from(u16::from_be_bytes(*size));
    if rest.len() < size || !allows(kind, size) {
        return None;
    }
    let (body, rest) = rest.split_at(size);
    Some((kind, body, rest))
}
