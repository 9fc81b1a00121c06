// Why a payload wasn't taken.
ghost use Rattle.std.specs.Prelude.{◌≡◌};
ghost use Rattle.ic_chunk.specs.declared.fault.FeedNo.TheVariants.{Memory};

use std::alloc::{AllocError, AllocFailed};

/// Why a joiner gave no rows for a payload.
#[derive(Clone, Copy, Debug, PartialEq, Eq)]
pub enum FeedNo {
    /// The doing of the payloads' sender: with this payload they aren't the front of a stream of rows. Holds the
    /// number, from 0, of the first chunk of this payload that can't come next, or 4294967295 if that number is
    /// greater.
    ChunkFault { chunk: u32 },
    /// Out of memory on this side. The payload may be fed again.
    Memory,
}

impl From<AllocError> for FeedNo {
    ghost from_gives = { λ _ e. e ≡ Memory };

    fn from(_e: AllocError) -> FeedNo {
        FeedNo::Memory
    }
}

impl<T: Drop> From<AllocFailed<T>> for FeedNo {
    ghost from_gives = { λ _ e. e ≡ Memory };

    fn from(_e: AllocFailed<T>) -> FeedNo {
        FeedNo::Memory
    }
}
