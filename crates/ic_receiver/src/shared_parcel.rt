// A parcel with two owners.
ghost use Rattle.std.specs.Prelude.{◌≡◌, IfOk};

use ic_base::Parcel;
use std::alloc::AllocError;
use std::marker::Model;

/// A parcel with two owners of its bytes, seen as that parcel: one for the slice that takes it, one for who keeps the
/// answer. Both are there before anything is taken, so that a take that was done can't lack memory afterwards.
#[derive(Drop)]
pub struct SharedParcel {
    one: Parcel,
    other: Parcel,
}

impl Model for SharedParcel {
    ghost use Rattle.std.specs.Prelude.{◌≡◌};
    ghost use Rattle.ic_base.specs.declared.datagram.Parcel.{Parcel};

    ghost Value = { Parcel };

    ghost view = { λ p. p.one };

    ghost invariant = { λ p. p.other ≡ p.one };
}

impl SharedParcel {
    /// The parcel with a second owner. Copies no byte.
    pub(crate) fn new(parcel: Parcel) -> Result<SharedParcel, AllocError>
        ensures { IfOk result (λ p. p ≡ parcel) }
    {
        let other = Parcel {
            from: parcel.from,
            payload: parcel.payload.share()?,
            last: parcel.last,
        };
        Ok(SharedParcel { one: parcel, other })
    }

    pub fn parcel(&self) -> &Parcel
        ensures { result.now ≡ self.now }
    {
        &self.one
    }

    /// The parcel, once for each owner. Takes no memory.
    pub fn split(self) -> (Parcel, Parcel)
        ensures one { result.0 ≡ self }
        ensures other { result.1 ≡ self }
    {
        (self.one, self.other)
    }
}
