// What the calls of a tree answer.
ghost use Rattle.std.specs.Prelude.{◌≡◌};
ghost use Rattle.ex_tree.specs.declared.answers.TreeNo.TheVariants.{Memory};

use ic_base::{ConnKey, PortNo};
use ic_row::Row;
use std::alloc::AllocError;

/// What one pull gave.
#[derive(Drop, Debug)]
pub enum Pulled {
    /// The next row of the output. No call was made.
    Row(Row),
    /// An operator went on. No call was made: pull again.
    Step,
    /// A motion went on, by one call at most. No row can be given yet.
    More,
    /// The peer, the network or another worker: the call was answered `Empty` or `Busy`. Pull again later.
    Wait(PortNo),
    /// Each row of the output was given, and it has ended. No call was made.
    End,
}

/// Why a tree goes no further.
#[derive(Clone, Copy, Debug, PartialEq, Eq)]
pub enum TreeNo {
    /// The sender: what was taken on this connection is no front of a stream of rows of the motion's kinds, or it is wrongly
    /// marked as the last.
    Malformed(ConnKey),
    /// The rows: in the aggregate of this number in preorder a count leaves 64 bits, or a sum 128 bits.
    Overflow { node: u32 },
    /// This side: out of memory.
    Memory,
}

impl From<AllocError> for TreeNo {
    ghost from_gives = { λ _ e. e ≡ Memory };

    fn from(_e: AllocError) -> TreeNo {
        TreeNo::Memory
    }
}
