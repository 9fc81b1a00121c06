// What a reply gives, taken out of it.
ghost use Rattle.std.specs.Prelude.{◌≡◌};
ghost use Rattle.ic_law.specs.History.{datagrams_of};
ghost use Rattle.ic_law.specs.Parting.{parcel_of};

use crate::history::HubReply;
use ic_base::{Datagrams, Parcel};
use std::alloc::Global;

impl HubReply {
    /// Gives the datagrams that are emitted with it. Takes no memory.
    pub fn into_datagrams(self, alloc: Global) -> Datagrams
        ensures { result ≡ datagrams_of self }
    {
        match self {
            HubReply::Gave(Ok(datagrams)) => datagrams,
            HubReply::Took(Ok((_parcel, datagrams))) => datagrams,
            HubReply::Came(_how, datagrams) => datagrams,
            HubReply::Ticked(Ok(datagrams)) => datagrams,
            _ => Datagrams::new(alloc),
        }
    }

    /// Gives the parcel, if a take was served, and the datagrams that are emitted with it. Takes no memory.
    pub fn into_parts(self, alloc: Global) -> (Option<Parcel>, Datagrams)
        ensures parcel { result.0 ≡ parcel_of self }
        ensures datagrams { result.1 ≡ datagrams_of self }
    {
        match self {
            HubReply::Took(Ok((parcel, datagrams))) => (Some(parcel), datagrams),
            other => (None, other.into_datagrams(alloc)),
        }
    }
}
