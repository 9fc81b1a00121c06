// Reading a source to its end.
ghost use Rattle.std.specs.Prelude.{◌≡◌, ℕ, ◌<◌, ◌≤◌, length, IfOk, OnOk, OnErr, IfSome, IsErrOf, vec_len};
ghost use Rattle.std.specs.Io.KnownBytes.{IsAtEnd};
ghost use Rattle.ic_edge.specs.Causes.{Rose, LosesAFront};
ghost use Rattle.ic_edge.specs.declared.whole.ReadNo.TheVariants.{Memory};

use crate::source::Source;
use std::alloc::{AllocError, Global};

/// Why a source wasn't read to its end.
#[derive(Clone, Copy, Debug, PartialEq, Eq)]
pub enum ReadNo {
    /// The outside: the source failed, and counted it.
    Failed,
    /// The outside: the source has more bytes than the caller's limit.
    TooLong,
    /// This side: out of memory for the bytes or for the buffer.
    Memory,
}

impl From<AllocError> for ReadNo {
    ghost from_gives = { λ _ e. e ≡ Memory };

    fn from(_: AllocError) -> Self {
        ReadNo::Memory
    }
}

/// How many bytes one read asks for: enough that the cost of a call is small beside that of its bytes.
const PIECE: usize = 65536;

/// All bytes of a source, up to its end. The error is `TooLong` if they are more than `limit` bytes. A fault that comes
/// before the byte beyond the limit is `Failed`; later faults aren't met. An error loses the bytes read so far: the
/// source goes on after them.
///
/// Allocates a buffer of 65536 bytes and room for what was read. The steps are linear in the bytes.
pub fn read_whole<S: Source>(alloc: Global, source: &mut S, limit: usize) -> Result<Vec<u8>, ReadNo>
    ensures whole { IfOk result (λ v. IfSome (S.left source.old) (λ xs. v.items ≡ xs)) }
    ensures end { OnOk result (IsAtEnd (S.left source.new)) }
    ensures fits { IfOk result (λ v. vec_len v ≤ limit) }
    ensures too_long { IsErrOf result ReadNo.TooLong → IfSome (S.left source.old) (λ xs. limit < length xs) }
    ensures failed { IsErrOf result ReadNo.Failed → Rose (S.count source.old) (S.count source.new) }
    ensures later { S.count source.old ≤ S.count source.new }
    ensures leaves { OnErr result (LosesAFront (S.left source.old) (S.left source.new)) }
{
    let mut piece = piece_buffer(alloc)?;
    read_in_pieces(alloc, source, &mut piece, limit)
}

/// A buffer for one read.
fn piece_buffer(alloc: Global) -> Result<Vec<u8>, AllocError>
    ensures { IfOk result (λ v. 0 < vec_len v) }
{
    vec![in alloc; 0u8; PIECE]
}

/// The same, with reads into `piece`.
fn read_in_pieces<S: Source>(
    alloc: Global,
    source: &mut S,
    piece: &mut [u8],
    limit: usize,
) -> Result<Vec<u8>, ReadNo>
    requires { 0 < length piece.old }
    ensures whole { IfOk result (λ v. IfSome (S.left source.old) (λ xs. v.items ≡ xs)) }
    ensures end { OnOk result (IsAtEnd (S.left source.new)) }
    ensures fits { IfOk result (λ v. vec_len v ≤ limit) }
    ensures too_long { IsErrOf result ReadNo.TooLong → IfSome (S.left source.old) (λ xs. limit < length xs) }
    ensures failed { IsErrOf result ReadNo.Failed → Rose (S.count source.old) (S.count source.new) }
    ensures later { S.count source.old ≤ S.count source.new }
    ensures leaves { OnErr result (LosesAFront (S.left source.old) (S.left source.new)) }
{
    let mut all = Vec::new(alloc);
    while all.len() <= limit {
        let n = match source.read(piece) {
            Ok(n) => n,
            Err(_) => return Err(ReadNo::Failed),
        };
        if n == 0 {
            return Ok(all);
        }
        all.extend_from_slice(&piece[..n])?;
    }
    Err(ReadNo::TooLong)
}
