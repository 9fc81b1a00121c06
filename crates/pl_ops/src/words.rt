// How operators speak with who runs them.
ghost use Rattle.std.specs.Prelude.{◌≡◌};
ghost use Rattle.pl_ops.specs.declared.words.OpNo.TheVariants.{Memory};

use ic_row::Row;
use std::alloc::{AllocError, AllocFailed};

/// An input of an operator. One with a single input takes it from the left.
#[derive(Clone, Copy, Debug, PartialEq, Eq)]
pub enum Side {
    Left,
    Right,
}

/// What an operator answers when it is asked for a row.
#[derive(Drop, Debug)]
pub enum Next {
    /// Its next output row.
    Row(Row),
    /// The rows given so far determine no further one: it wants a row of this input, or word that there are no more.
    Wants(Side),
    /// Its output has ended, and each row of it was given.
    End,
}

/// Why an operator gives no more rows. It answers the same from then on.
#[derive(Clone, Copy, Debug, PartialEq, Eq)]
pub enum OpNo {
    /// The rows: after some input row an exact count leaves 64 bits, or an exact sum 128 bits.
    Overflow,
    /// This side: no memory was left.
    Memory,
}

impl From<AllocError> for OpNo {
    ghost from_gives = { λ _ e. e ≡ Memory };

    fn from(_e: AllocError) -> OpNo {
        OpNo::Memory
    }
}

impl<T: Drop> From<AllocFailed<T>> for OpNo {
    ghost from_gives = { λ _ e. e ≡ Memory };

    fn from(_e: AllocFailed<T>) -> OpNo {
        OpNo::Memory
    }
}
