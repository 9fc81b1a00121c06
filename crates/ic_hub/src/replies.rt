// Replies, made of the answers of calls: out of memory is the one variant `Memory`.
ghost use Rattle.std.specs.Prelude.{◌≡◌, Err};
ghost use Rattle.ic_hub.specs.Entries.{begun_of, gave_of, took_of, came_of, ticked_of, own_of};

use ic_base::{BeginNo, Datagrams, Parcel};
use ic_law::{Arrived, HubNo, HubReply, TickNo};
use ic_receiver::SharedParcel;
use std::alloc::AllocError;

/// The reply of a begin.
pub fn begun(answer: Result<(), BeginNo>) -> HubReply
    ensures { result ≡ begun_of answer }
{
    match answer {
        Ok(()) => HubReply::Begun(Ok(())),
        Err(BeginNo::Memory) => HubReply::Memory,
        Err(no) => HubReply::Begun(Err(no)),
    }
}

/// The reply of a put, a finish or a halt.
pub fn gave(answer: Result<Datagrams, HubNo>) -> HubReply
    ensures { result ≡ gave_of answer }
{
    match answer {
        Ok(datagrams) => HubReply::Gave(Ok(datagrams)),
        Err(HubNo::Memory) => HubReply::Memory,
        Err(no) => HubReply::Gave(Err(no)),
    }
}

/// The reply of a take that is refused.
fn took_none(no: &HubNo) -> HubReply
    ensures { result ≡ took_of (Err no.now) }
{
    match no {
        HubNo::Memory => HubReply::Memory,
        no => HubReply::Took(Err(*no)),
    }
}

/// The reply of a take, which has one owner of the parcel, with what the slice is given, which has the other. Takes no
/// memory and copies no byte.
pub fn took(answer: Result<(SharedParcel, Datagrams), HubNo>) -> (HubReply, Result<Parcel, HubNo>)
    ensures reply { result.0 ≡ took_of answer }
    ensures own { result.1 ≡ own_of answer }
{
    match answer {
        Ok((parcel, datagrams)) => {
            let (own, kept) = parcel.split();
            (HubReply::Took(Ok((kept, datagrams))), Ok(own))
        }
        Err(no) => {
            let reply = took_none(&no);
            (reply, Err(no))
        }
    }
}

/// The reply of a datagram that comes.
pub fn came(answer: Result<(Arrived, Datagrams), AllocError>) -> HubReply
    ensures { result ≡ came_of answer }
{
    match answer {
        Ok((how, datagrams)) => HubReply::Came(how, datagrams),
        Err(_) => HubReply::Memory,
    }
}

/// The reply of a tick.
pub fn ticked(answer: Result<Datagrams, TickNo>) -> HubReply
    ensures { result ≡ ticked_of answer }
{
    match answer {
        Ok(datagrams) => HubReply::Ticked(Ok(datagrams)),
        Err(TickNo::Memory) => HubReply::Memory,
        Err(no) => HubReply::Ticked(Err(no)),
    }
}
