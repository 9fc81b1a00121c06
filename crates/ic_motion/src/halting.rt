// Halts: no more is wanted of any sender, one a call.
ghost use Rattle.std.specs.Prelude.{◌≡◌, ◌<◌, length};
ghost use Rattle.ic_motion.specs.Answers.{StepsOnce, WaitsBusy, SendWaits, done_or_more};
ghost use Rattle.ic_motion.specs.Hearing.{senders_of};
ghost use Rattle.ic_motion.specs.Pulling.{Listens};
ghost use Rattle.ic_motion.specs.Halting.{all_heard, halt_at, IsNextGoing, halt_refused, HaltsBy, Halting};

use crate::answers::{MotionNo, Sent};
use crate::track::Track;
use ic_base::{Port, PortNo};
use std::alloc::Global;

/// Halts the first sender from which more may come.
pub(crate) fn halt_next<P: Port>(
    alloc: Global,
    port: &mut P,
    motion: u32,
    tracks: &mut Vec<Track>,
) -> Result<Sent, MotionNo>
    requires listens { Listens (P.keys port.old) motion (senders_of tracks.old.items) }
    ensures keys { P.keys port.new ≡ P.keys port.old }
    ensures steps { StepsOnce P.steps port.old port.new }
    ensures busy { WaitsBusy (P.busy port.old) (P.busy port.new) (SendWaits result) }
    ensures halting { Halting motion tracks.old.items tracks.new.items (P.log port.old) (P.log port.new) result }
{
    let place = next_going(tracks.as_slice());
    if place >= tracks.len() {
        return Ok(Sent::Done);
    }
    let sender = tracks[place].sender();
    let answer = port.halt(alloc, motion, sender);
    halt_by(tracks, place, answer)
}

/// The first place of a sender from which more may come, or else their number.
fn next_going(tracks: &[Track]) -> usize
    ensures { IsNextGoing tracks.now result }
{
    let mut place = 0;
    while place < tracks.len() {
        if !tracks[place].is_heard() {
            return place;
        }
        place += 1;
    }
    place
}

/// Takes over what a halt was answered.
fn halt_by(
    tracks: &mut Vec<Track>,
    place: usize,
    answer: Result<(), PortNo>,
) -> Result<Sent, MotionNo>
    requires { place < length tracks.old.items }
    ensures { HaltsBy tracks.old.items tracks.new.items place result answer }
{
    match answer {
        Ok(()) => {
            halt(tracks, place);
            Ok(done_or_more(tracks.as_slice()))
        }
        Err(no) => halt_no(no),
    }
}

/// What is answered if a halt was refused.
fn halt_no(no: PortNo) -> Result<Sent, MotionNo>
    ensures { result ≡ halt_refused no }
{
    match no {
        PortNo::Busy => Ok(Sent::Wait(no)),
        // A halt is never refused so.
        PortNo::Full | PortNo::Empty | PortNo::Stopped | PortNo::Ended | PortNo::TooLong(_) => {
            Err(MotionNo::Memory)
        }
        PortNo::Memory => Err(MotionNo::Memory),
    }
}

fn halt(tracks: &mut Vec<Track>, place: usize)
    requires { place < length tracks.old.items }
    ensures { tracks.new.items ≡ halt_at place tracks.old.items }
{
    tracks[place].halt();
}

fn done_or_more(tracks: &[Track]) -> Sent
    ensures { result ≡ done_or_more (all_heard tracks.now) }
{
    if all_heard(tracks) {
        Sent::Done
    } else {
        Sent::More
    }
}

/// Whether no more comes, or is wanted, of any sender.
pub(crate) fn all_heard(tracks: &[Track]) -> bool
    ensures { result ≡ all_heard tracks.now }
{
    for track in tracks {
        if !track.is_heard() {
            return false;
        }
    }
    true
}
