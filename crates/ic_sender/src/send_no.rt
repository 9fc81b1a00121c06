// Why a sender doesn't do what it is asked.
ghost use Rattle.std.specs.Prelude.{◌≡◌};
ghost use Rattle.ic_sender.specs.declared.send_no.SendNo.TheVariants.{Memory};

use ic_base::ConnKey;
use std::alloc::AllocError;

/// Why a call of a [`Sender`](crate::Sender) is refused. The sender, and the queue of what waits, are as before.
#[derive(Clone, Copy, Debug, PartialEq, Eq)]
pub enum SendNo {
    /// The peer's doing, who acknowledged too little yet: as many packets are kept as there is room for.
    Full,
    /// The peer wants no more.
    Stopped,
    /// The caller's doing: the stream needs packet 4294967296, and there is no such number.
    TooLong(ConnKey),
    /// The peer's or the network's doing: this packet, or a status query after it, was emitted again so often, and no
    /// answer came.
    Spent { key: ConnKey, seq: u32, tries: u32 },
    /// The peer's or the network's doing: an answer to what wasn't emitted, or one that contradicts itself.
    Stray,
    Memory,
}

impl From<AllocError> for SendNo {
    ghost from_gives = { λ _ e. e ≡ Memory };

    fn from(_e: AllocError) -> SendNo {
        SendNo::Memory
    }
}
