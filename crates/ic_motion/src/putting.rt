// A send: the next chunk of a row to the next of its receivers.
ghost use Rattle.std.specs.Prelude.{◌≡◌, ◌≤◌, ◌<◌, length, IfOk, OnErr, true, Err};
ghost use Rattle.ic_row.specs.Spelling.{HasLengths};
ghost use Rattle.ic_motion.specs.Answers.{StepsOnce, WaitsBusy, SendWaits};
ghost use Rattle.ic_motion.specs.Sending.{receivers_of, route_by, goes_to, SendsToEach};
ghost use Rattle.ic_motion.specs.Putting.{IsOpen, Begins, Rests, AfterStop, PutsBy, Puts, Sending, stop_at, GoesTo};

use crate::answers::{MotionKind, MotionNo, Sent};
use crate::target::{Target, all_stopped};
use crate::work::Work;
use ic_base::{Port, PortNo};
use ic_chunk::Splitter;
use ic_row::{Row, segment_of, spell};
use std::alloc::{AllocError, Global};

/// Puts the next chunk of a row. Begins with the row if none is in work.
pub(crate) fn send_row<P: Port>(
    alloc: Global,
    port: &mut P,
    motion: u32,
    kind: &MotionKind,
    packet: u32,
    targets: &mut Vec<Target>,
    work: &mut Work,
    row: &Row,
) -> Result<Sent, MotionNo>
    requires least { 128 ≤ packet }
    requires greatest { packet ≤ 65507 }
    requires sends { SendsToEach (P.keys port.old) motion (receivers_of targets.old.items) }
    requires lengths { HasLengths row.now }
    ensures keys { P.keys port.new ≡ P.keys port.old }
    ensures steps { StepsOnce P.steps port.old port.new }
    ensures busy { WaitsBusy (P.busy port.old) (P.busy port.new) (SendWaits result) }
    ensures sending { Sending (P.keys port.old) motion (route_by kind.now) packet targets.old.items targets.new.items row.now work.old work.new (P.log port.old) (P.log port.new) result }
{
    if all_stopped(targets.as_slice()) {
        work.reset();
        return Ok(Sent::AllStopped);
    }
    begin(alloc, kind, packet, targets.as_slice(), work, row)?;
    if !work.settle(targets.as_slice())? {
        work.reset();
        return Ok(Sent::Done);
    }
    put(alloc, port, motion, targets, work)
}

/// Takes a row into work, if none is.
fn begin(
    alloc: Global,
    kind: &MotionKind,
    packet: u32,
    targets: &[Target],
    work: &mut Work,
    row: &Row,
) -> Result<(), AllocError>
    requires least { 128 ≤ packet }
    requires greatest { packet ≤ 65507 }
    requires lengths { HasLengths row.now }
    ensures ok { IfOk result (λ _. Begins (route_by kind.now) packet targets.now row.now work.old work.new) }
    ensures err { OnErr result (work.new ≡ work.old) }
{
    if work.is_busy() {
        return Ok(());
    }
    let (first, end) = places(kind, targets, row)?;
    let splitter = Splitter::new(spell(alloc, row)?, packet);
    work.begin(splitter, first, end);
    Ok(())
}

/// The places of the receivers to which a row goes: from the first up to the second.
fn places(kind: &MotionKind, targets: &[Target], row: &Row) -> Result<(usize, usize), AllocError>
    ensures { IfOk result (λ places. GoesTo (route_by kind.now) (length targets.now) row.now places.0 places.1) }
{
    match kind {
        MotionKind::Gather | MotionKind::Broadcast => Ok((0, targets.len())),
        MotionKind::Redistribute(columns) => {
            let Ok(count) = u32::try_from(targets.len()) else {
                return Err(AllocError);
            };
            if count == 0 {
                return Ok((0, 0));
            }
            let place = segment_of(row, columns.as_slice(), count) as usize;
            Ok((place, place + 1))
        }
    }
}

/// Puts the chunk to the receiver at the place.
fn put<P: Port>(
    alloc: Global,
    port: &mut P,
    motion: u32,
    targets: &mut Vec<Target>,
    work: &mut Work,
) -> Result<Sent, MotionNo>
    requires sends { SendsToEach (P.keys port.old) motion (receivers_of targets.old.items) }
    requires open_ { IsOpen targets.old.items work.old.at }
    requires within { goes_to work.old.at work.old ≡ true }
    ensures keys { P.keys port.new ≡ P.keys port.old }
    ensures steps { P.steps port.old port.new }
    ensures busy { WaitsBusy (P.busy port.old) (P.busy port.new) (SendWaits result) }
    ensures puts { Puts (P.keys port.old) motion targets.old.items targets.new.items work.old work.new (P.log port.old) (P.log port.new) result }
{
    let place = work.at();
    let to = targets[place].to();
    let answer = port.put(alloc, motion, to, work.chunk());
    put_by(targets, work, answer)
}

/// Takes over what a put was answered.
fn put_by(
    targets: &mut Vec<Target>,
    work: &mut Work,
    answer: Result<(), PortNo>,
) -> Result<Sent, MotionNo>
    requires open_ { IsOpen targets.old.items work.old.at }
    requires within { goes_to work.old.at work.old ≡ true }
    ensures { PutsBy targets.old.items targets.new.items work.old work.new result answer }
{
    match answer {
        Ok(()) => {
            work.passed();
            rest(targets.as_slice(), work)
        }
        Err(no) => put_no(targets, work, no),
    }
}

/// Takes over that a put was refused.
fn put_no(targets: &mut Vec<Target>, work: &mut Work, no: PortNo) -> Result<Sent, MotionNo>
    requires { IsOpen targets.old.items work.old.at }
    ensures { PutsBy targets.old.items targets.new.items work.old work.new result (Err no) }
{
    match no {
        PortNo::Stopped => {
            stop(targets, work.at());
            stopped(targets.as_slice(), work)
        }
        PortNo::Full | PortNo::Busy => Ok(Sent::Wait(no)),
        PortNo::TooLong(key) => Err(MotionNo::TooLong(key)),
        // A put is never refused so.
        PortNo::Empty | PortNo::Ended => Err(MotionNo::Memory),
        PortNo::Memory => Err(MotionNo::Memory),
    }
}

/// The receiver at a place wants no more.
pub(crate) fn stop(targets: &mut Vec<Target>, place: usize)
    requires { place < length targets.old.items }
    ensures { targets.new.items ≡ stop_at place targets.old.items }
{
    targets[place].stop();
}

/// Goes on after a receiver stopped.
fn stopped(targets: &[Target], work: &mut Work) -> Result<Sent, MotionNo>
    ensures { AfterStop targets.now work.old work.new result }
{
    if all_stopped(targets) {
        work.reset();
        return Ok(Sent::AllStopped);
    }
    rest(targets, work)
}

/// Goes on after a chunk was put, or isn't wanted.
fn rest(targets: &[Target], work: &mut Work) -> Result<Sent, MotionNo>
    ensures { Rests targets.now work.old work.new result }
{
    if work.settle(targets)? {
        return Ok(Sent::More);
    }
    work.reset();
    Ok(Sent::Done)
}
