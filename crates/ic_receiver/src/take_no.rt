// Why nothing is handed over.
ghost use Rattle.std.specs.Prelude.{◌≡◌};
ghost use Rattle.ic_receiver.specs.declared.take_no.TakeNo.TheVariants.{Memory};

use std::alloc::AllocError;

/// Why there is no parcel. The receiver is as before.
#[derive(Clone, Copy, Debug, PartialEq, Eq)]
pub enum TakeNo {
    /// The network's or the peer's doing: the next packet isn't there yet.
    Empty,
    /// The end of the stream was taken, or the slice halted the connection: nothing more is to be taken.
    Ended,
    Memory,
}

impl From<AllocError> for TakeNo {
    ghost from_gives = { λ _ e. e ≡ Memory };

    fn from(_e: AllocError) -> TakeNo {
        TakeNo::Memory
    }
}
