// Parcels that the slice takes, and connections that it halts.
ghost use Rattle.std.specs.Prelude.{◌≡◌, ◌<◌, ◌++◌, [], ◌∷◌, ℕ, Some, All, length, slice_get, vec_len, vec_capacity, List, OnErr};
ghost use Rattle.ic_law.specs.declared.history.Entry.{Entry};
ghost use Rattle.ic_conntab.specs.Ends.{motions_of};
ghost use Rattle.ic_receiver.specs.Entries.{list_of};
ghost use Rattle.ic_hub.specs.Entries.{take_entry, take_from_entry, halt_entry};
ghost use Rattle.ic_hub.specs.Standing.{Stands};
ghost use Rattle.ic_hub.specs.Calls.{SamePlace};
ghost use Rattle.ic_hub.specs.Taking.{Takes, HaltsOne, TakesAt, HaltsAt, rank_of, IsFirstOf, FindsFirst, Refuses, TakesAny};

use crate::hub::Hub;
use crate::query::Query;
use crate::refusals::take_no;
use ic_base::{ConnKey, Datagram, Datagrams, SegId};
use ic_law::HubNo;
use ic_receiver::{Receiver, SharedParcel};
use std::alloc::Global;

/// A receiver that is ready, by its place, with its rank in cyclic order.
#[derive(Clone, Copy)]
struct Ranked {
    place: usize,
    rank: i32,
}

/// How many segments there are, -1..=63: any number less this is below every number.
const SEGMENTS: i32 = 65;

/// Who comes first in cyclic order after the segment served last has the least rank.
fn rank(last: Option<SegId>, from: SegId) -> i32
    ensures { result ≡ rank_of last from }
{
    let from = from.number();
    match last {
        Some(last) if last.number() < from => from - SEGMENTS,
        _ => from,
    }
}

/// The first of the one found so far and the receiver at this place, if that is ready.
fn first_of(
    first: Option<Ranked>,
    receiver: &Receiver,
    place: usize,
    last: Option<SegId>,
) -> Option<Ranked>
    ensures { IsFirstOf first receiver.now place last result }
{
    if !receiver.is_ready() {
        return first;
    }
    let rank = rank(last, receiver.from());
    match first {
        Some(found) if found.rank <= rank => first,
        _ => Some(Ranked { place, rank }),
    }
}

/// The place of the first ready one of the receivers at these places, in cyclic order after the sender served last.
fn first_ready(receivers: &[Receiver], places: &[usize], last: Option<SegId>) -> Option<usize>
    requires within { All (λ place. place < length receivers.now) places.now }
    ensures { FindsFirst receivers.now places.now last result }
{
    let mut first = None;
    for place in places {
        first = first_of(first, &receivers[*place], *place, last);
    }
    Some(first?.place)
}

/// Why none of the receivers at these places hands a parcel over.
fn refusal(receivers: &[Receiver], places: &[usize]) -> HubNo
    requires within { All (λ place. place < length receivers.now) places.now }
    ensures { Refuses receivers.now places.now result }
{
    for place in places {
        if !receivers[*place].is_over() {
            return HubNo::Empty;
        }
    }
    HubNo::Ended
}

/// One datagram in a list that has room for it.
pub(crate) fn listed(room: Vec<Datagram>, datagram: Datagram) -> Datagrams
    requires none { vec_len room ≡ 0 }
    requires room { 0 < vec_capacity room }
    ensures { result ≡ datagram ∷ [] }
{
    let mut items = room;
    let _pushed = items.push(datagram);
    Datagrams::from_vec(items)
}

/// Nothing, or one datagram in a list that has room for it.
pub(crate) fn listed_or_none(room: Vec<Datagram>, datagram: Option<Datagram>) -> Datagrams
    requires none { vec_len room ≡ 0 }
    requires room { 0 < vec_capacity room }
    ensures { result ≡ list_of datagram }
{
    match datagram {
        Some(datagram) => listed(room, datagram),
        None => Datagrams::from_vec(room),
    }
}

/// The next parcel of a receiver, with the datagram that tells its sender of the new room. The room for the list of that
/// one is taken before anything changes.
fn take_one(alloc: Global, receiver: &mut Receiver) -> Result<(SharedParcel, Datagrams), HubNo>
    ensures { Takes receiver.old receiver.new result }
{
    let Ok(room) = Vec::with_capacity(alloc, 1) else {
        return Err(HubNo::Memory);
    };
    match receiver.take(alloc) {
        Ok((parcel, told)) => Ok((parcel, listed(room, told))),
        Err(no) => Err(take_no(no)),
    }
}

/// Halts a receiver. The room for the list of the datagram is taken before anything changes.
fn halt_one(alloc: Global, receiver: &mut Receiver) -> Result<Datagrams, HubNo>
    ensures { HaltsOne receiver.old receiver.new result }
{
    let Ok(room) = Vec::with_capacity(alloc, 1) else {
        return Err(HubNo::Memory);
    };
    match receiver.halt(alloc) {
        Ok(told) => Ok(listed_or_none(room, told)),
        Err(_) => Err(HubNo::Memory),
    }
}

impl Query {
    /// A take of the receiver at this place.
    fn take(&mut self, alloc: Global, place: usize) -> Result<(SharedParcel, Datagrams), HubNo>
        requires here { place < length self.old.receivers }
        ensures { TakesAt place self.old self.new result }
    {
        take_one(alloc, &mut self.receivers[place])
    }

    /// A take of any sender of the motion at this place. What it takes is noted as served last.
    fn take_any(&mut self, alloc: Global, motion: usize) -> Result<(SharedParcel, Datagrams), HubNo>
        requires here { motion < length (motions_of self.old.ends) }
        ensures { (number : ℕ) → slice_get (motions_of self.old.ends) motion ≡ Some number → TakesAny motion number self.old self.new result }
    {
        let places = self.places.receivers(motion);
        let Some(place) = first_ready(self.receivers.as_slice(), places, self.served[motion]) else {
            return Err(refusal(self.receivers.as_slice(), places));
        };
        let (parcel, told) = take_one(alloc, &mut self.receivers[place])?;
        self.served[motion] = Some(parcel.parcel().from);
        Ok((parcel, told))
    }

    /// Halts the receiver at this place.
    fn halt(&mut self, alloc: Global, place: usize) -> Result<Datagrams, HubNo>
        requires here { place < length self.old.receivers }
        ensures { HaltsAt place self.old self.new result }
    {
        halt_one(alloc, &mut self.receivers[place])
    }
}

impl Hub {
    /// The slice takes the next parcel of any sender of a motion: of the first that is ready, in cyclic order after the
    /// one served last, at first from the least. Gives it, for two owners, with the answer that tells its sender of the
    /// new room. Looks at each sender of the motion; copies the payload once, out of the ring.
    pub fn take(
        &mut self,
        alloc: Global,
        query: u32,
        motion: u32,
    ) -> Result<(SharedParcel, Datagrams), HubNo>
        ensures err { OnErr result (self.new ≡ self.old) }
        ensures place { SamePlace self.old self.new }
        ensures count { self.new.dropped ≡ self.old.dropped }
        ensures stands { (h : List Entry) → Stands self.old h → Stands self.new (h ++ take_entry query motion result ∷ []) }
    {
        let Some(place) = self.place_of(query) else {
            return Err(HubNo::Unknown { query, motion });
        };
        let Some(at) = self.live[place].places.motion(motion) else {
            return Err(HubNo::Unknown { query, motion });
        };
        self.live[place].take_any(alloc, at)
    }

    /// The slice takes the next parcel of one sender, for two owners. Copies the payload once, out of the ring.
    pub fn take_from(
        &mut self,
        alloc: Global,
        key: &ConnKey,
    ) -> Result<(SharedParcel, Datagrams), HubNo>
        ensures err { OnErr result (self.new ≡ self.old) }
        ensures place { SamePlace self.old self.new }
        ensures count { self.new.dropped ≡ self.old.dropped }
        ensures stands { (h : List Entry) → Stands self.old h → Stands self.new (h ++ take_from_entry key.now result ∷ []) }
    {
        let Some((query, place)) = self.receiver_of(key) else {
            return Err(HubNo::Unknown {
                query: key.query,
                motion: key.motion,
            });
        };
        self.live[query].take(alloc, place)
    }

    /// The slice wants no more of one sender. Gives the datagram that says so, and none if nothing more comes anyway.
    pub fn halt(&mut self, alloc: Global, key: &ConnKey) -> Result<Datagrams, HubNo>
        ensures err { OnErr result (self.new ≡ self.old) }
        ensures place { SamePlace self.old self.new }
        ensures count { self.new.dropped ≡ self.old.dropped }
        ensures stands { (h : List Entry) → Stands self.old h → Stands self.new (h ++ halt_entry key.now result ∷ []) }
    {
        let Some((query, place)) = self.receiver_of(key) else {
            return Err(HubNo::Unknown {
                query: key.query,
                motion: key.motion,
            });
        };
        self.live[query].halt(alloc, place)
    }
}
