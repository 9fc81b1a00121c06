// A pull: a row without a call, or one take.
ghost use Rattle.std.specs.Prelude.{◌≡◌, ◌<◌, length, IfOk};
ghost use Rattle.std.specs.List.{Contains};
ghost use Rattle.ic_motion.specs.Answers.{Touches, IsAfterCall, WaitsBusy, PullWaits};
ghost use Rattle.ic_motion.specs.Hearing.{senders_of, streams_of};
ghost use Rattle.ic_motion.specs.Picking.{pick_of};
ghost use Rattle.ic_motion.specs.Feeding.{place_of, FeedsAt, Feeds, Lacks, Takes};
ghost use Rattle.ic_motion.specs.declared.picking.Pick.TheVariants as picks;
ghost use Rattle.ic_motion.specs.Pulling.{Listens, Pulls};

use crate::answers::{Got, MotionEnd, MotionNo};
use crate::picking::{Pick, next_pick, show};
use crate::track::Track;
use ic_base::{Parcel, Port, PortNo, SegId};
use ic_row::Kind;
use pl_tree::Keys;
use std::alloc::Global;

/// Gives a row, or takes.
pub(crate) fn advance<P: Port>(
    alloc: Global,
    port: &mut P,
    end: &MotionEnd,
    order: &Option<Keys>,
    kinds: &[Kind],
    tracks: &mut Vec<Track>,
) -> Result<Got, MotionNo>
    requires listens { Listens (P.keys port.old) end.now.motion (senders_of tracks.old.items) }
    ensures keys { P.keys port.new ≡ P.keys port.old }
    ensures steps { Touches P.steps port.old port.new result }
    ensures busy { WaitsBusy (P.busy port.old) (P.busy port.new) (PullWaits result) }
    ensures pulls { Pulls (pick_of order.now (streams_of tracks.old.items)) (P.keys port.old) end.now kinds.now
        tracks.old.items tracks.new.items (P.log port.old) (P.log port.new) result }
{
    match next_pick(order, tracks.as_slice()) {
        Pick::Any => take_any(alloc, port, end, kinds, tracks),
        Pick::One(place) => take_one(alloc, port, end, kinds, tracks, place),
        Pick::Row(_) | Pick::Nothing => Ok(show(order, tracks)),
    }
}

/// Takes from any sender.
fn take_any<P: Port>(
    alloc: Global,
    port: &mut P,
    end: &MotionEnd,
    kinds: &[Kind],
    tracks: &mut Vec<Track>,
) -> Result<Got, MotionNo>
    requires listens { Listens (P.keys port.old) end.now.motion (senders_of tracks.old.items) }
    ensures keys { P.keys port.new ≡ P.keys port.old }
    ensures steps { P.steps port.old port.new }
    ensures after { IsAfterCall result }
    ensures busy { WaitsBusy (P.busy port.old) (P.busy port.new) (PullWaits result) }
    ensures pulls { Pulls picks.Any (P.keys port.old) end.now kinds.now
        tracks.old.items tracks.new.items (P.log port.old) (P.log port.new) result }
{
    let taken = port.take(alloc, end.motion);
    took(alloc, end, kinds, tracks, taken)
}

/// Takes from one sender.
fn take_one<P: Port>(
    alloc: Global,
    port: &mut P,
    end: &MotionEnd,
    kinds: &[Kind],
    tracks: &mut Vec<Track>,
    place: usize,
) -> Result<Got, MotionNo>
    requires listens { Listens (P.keys port.old) end.now.motion (senders_of tracks.old.items) }
    requires below { place < length tracks.old.items }
    ensures keys { P.keys port.new ≡ P.keys port.old }
    ensures steps { P.steps port.old port.new }
    ensures after { IsAfterCall result }
    ensures busy { WaitsBusy (P.busy port.old) (P.busy port.new) (PullWaits result) }
    ensures pulls { Pulls (picks.One place) (P.keys port.old) end.now kinds.now
        tracks.old.items tracks.new.items (P.log port.old) (P.log port.new) result }
{
    let sender = tracks[place].sender();
    let taken = port.take_from(alloc, end.motion, sender);
    took(alloc, end, kinds, tracks, taken)
}

/// Takes over what a take was answered.
fn took(
    alloc: Global,
    end: &MotionEnd,
    kinds: &[Kind],
    tracks: &mut Vec<Track>,
    taken: Result<Parcel, PortNo>,
) -> Result<Got, MotionNo>
    requires { IfOk taken (λ p. Contains (senders_of tracks.old.items) p.from) }
    ensures takes { Takes end.now kinds.now tracks.old.items tracks.new.items result taken }
    ensures after { IsAfterCall result }
{
    match taken {
        Ok(parcel) => gain(alloc, end, kinds, tracks, &parcel),
        Err(no) => lost(tracks, no),
    }
}

/// Takes over a parcel.
fn gain(
    alloc: Global,
    end: &MotionEnd,
    kinds: &[Kind],
    tracks: &mut Vec<Track>,
    parcel: &Parcel,
) -> Result<Got, MotionNo>
    requires { Contains (senders_of tracks.old.items) parcel.now.from }
    ensures feeds { Feeds end.now kinds.now parcel.now tracks.old.items tracks.new.items result }
    ensures after { IsAfterCall result }
{
    feed(alloc, end, kinds, tracks, parcel)?;
    Ok(Got::More)
}

/// Feeds a parcel to its sender's track.
fn feed(
    alloc: Global,
    end: &MotionEnd,
    kinds: &[Kind],
    tracks: &mut Vec<Track>,
    parcel: &Parcel,
) -> Result<(), MotionNo>
    requires { Contains (senders_of tracks.old.items) parcel.now.from }
    ensures { FeedsAt end.now kinds.now parcel.now (place_of tracks.old.items parcel.now.from) tracks.old.items tracks.new.items result }
{
    let place = place_of(tracks.as_slice(), parcel.from);
    tracks[place].feed(alloc, end, kinds, parcel)
}

/// The place of a sender.
fn place_of(tracks: &[Track], sender: SegId) -> usize
    ensures value { result ≡ place_of tracks.now sender }
    ensures among { Contains (senders_of tracks.now) sender → result < length tracks.now }
{
    let mut place = 0;
    while place < tracks.len() {
        if tracks[place].sender().number() == sender.number() {
            return place;
        }
        place += 1;
    }
    place
}

/// Takes over that a take was refused.
fn lost(tracks: &mut Vec<Track>, no: PortNo) -> Result<Got, MotionNo>
    ensures lacks { Lacks no tracks.old.items tracks.new.items result }
    ensures after { IsAfterCall result }
{
    match no {
        PortNo::Empty | PortNo::Busy => Ok(Got::Wait(no)),
        // A take is never refused so: none is made once each sender has ended.
        PortNo::Ended | PortNo::Full | PortNo::Stopped | PortNo::TooLong(_) => {
            Err(MotionNo::Memory)
        }
        PortNo::Memory => Err(MotionNo::Memory),
    }
}
