// Whether a chunk can be put.
ghost use Rattle.std.specs.Prelude.{◌≡◌, ◌≢◌, ℕ, List, ◌++◌, length, IsTrue, IfSome};
ghost use Rattle.ic_chunk.specs.declared.chunk.ChunkKind.TheVariants.{EndOfStream};
ghost use Rattle.ic_chunk.specs.Chunks.{chunk_of, kind_number, allows, spelled};
ghost use Rattle.ic_law.specs.Points.{Place};
ghost use Rattle.ic_law.specs.Asking.{IsPuttable};
ghost use Rattle.ic_hub.specs.Putting.{IsTuple};

use ic_base::Settings;
use ic_chunk::ChunkKind;

/// The kind of a number, if chunks of that kind are put.
fn kind_of(number: u8) -> Option<ChunkKind>
    ensures { IfSome result (λ kind. kind ≢ EndOfStream) }
{
    match number {
        0 => Some(ChunkKind::Whole),
        1 => Some(ChunkKind::Start),
        2 => Some(ChunkKind::Middle),
        3 => Some(ChunkKind::End),
        5 => Some(ChunkKind::Empty),
        _ => None,
    }
}

/// A kind's number, 0..=5.
fn number_of(kind: ChunkKind) -> u16
    ensures { result ≡ kind_number kind }
{
    match kind {
        ChunkKind::Whole => 0,
        ChunkKind::Start => 1,
        ChunkKind::Middle => 2,
        ChunkKind::End => 3,
        ChunkKind::EndOfStream => 4,
        ChunkKind::Empty => 5,
    }
}

/// May a chunk of this kind have a body of this many bytes?
fn allows(kind: ChunkKind, size: u16) -> bool
    ensures { result ≡ allows kind size }
{
    match kind {
        ChunkKind::EndOfStream | ChunkKind::Empty => size == 0,
        _ => size > 0,
    }
}

/// The four bytes in front of a body of this many bytes.
#[tactic(auto, unfolding(ic_chunk::specs::Chunks::spelled))]
fn head_of(kind: ChunkKind, size: u16) -> [u8; 4]
    ensures { (body : List ℕ) → length body ≡ size → spelled (chunk_of kind body) ≡ result ++ body }
{
    let size = size.to_be_bytes();
    let number = number_of(kind).to_be_bytes();
    [size[0], size[1], number[0], number[1]]
}

/// Whether these four bytes in front of a body of this many bytes make a chunk that can be put.
fn is_head(head: &[u8; 4], size: u16) -> bool
    ensures { (body : List ℕ) → length body ≡ size → IsTrue result → IsTuple (head.now ++ body) }
{
    let Some(kind) = kind_of(head[3]) else {
        return false;
    };
    allows(kind, size) && *head == head_of(kind, size)
}

/// Whether these bytes are one tuple chunk, not an end of stream, and a packet of these settings has room for it: only
/// then [`Hub::put`](crate::Hub::put) puts it. Looks at the four bytes in front and at the length.
pub fn is_puttable(settings: &Settings, bytes: &[u8]) -> bool
    ensures { (place : Place) → place.settings ≡ settings.now → IsTrue result → IsPuttable place bytes.now }
{
    let packet = settings.packet;
    if packet < 68 || bytes.len() > packet as usize - 68 {
        return false;
    }
    let Some((head, body)) = bytes.split_first_chunk::<4>() else {
        return false;
    };
    if body.len() > 65535 {
        return false;
    }
    is_head(head, body.len() as u16)
}
