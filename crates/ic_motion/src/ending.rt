// An end: the streams are finished, one a call.
ghost use Rattle.std.specs.Prelude.{◌≡◌, ◌<◌, length, Err};
ghost use Rattle.ic_motion.specs.Answers.{StepsOnce, WaitsBusy, SendWaits, done_or_more};
ghost use Rattle.ic_motion.specs.Sending.{receivers_of, all_stopped, all_over, SendsToEach};
ghost use Rattle.ic_motion.specs.Putting.{finish_at, stopped_or, EndsBy, Ending};

use crate::answers::{MotionNo, Sent};
use crate::putting::stop;
use crate::target::{Target, all_over, all_stopped, next_unfinished};
use ic_base::{Port, PortNo};
use std::alloc::Global;

/// Finishes the first stream that isn't finished.
pub(crate) fn end_next<P: Port>(
    alloc: Global,
    port: &mut P,
    motion: u32,
    targets: &mut Vec<Target>,
) -> Result<Sent, MotionNo>
    requires sends { SendsToEach (P.keys port.old) motion (receivers_of targets.old.items) }
    ensures keys { P.keys port.new ≡ P.keys port.old }
    ensures steps { StepsOnce P.steps port.old port.new }
    ensures busy { WaitsBusy (P.busy port.old) (P.busy port.new) (SendWaits result) }
    ensures ending { Ending (P.keys port.old) motion targets.old.items targets.new.items (P.log port.old) (P.log port.new) result }
{
    if all_stopped(targets.as_slice()) {
        return Ok(Sent::AllStopped);
    }
    let place = next_unfinished(targets.as_slice());
    if place >= targets.len() {
        return Ok(Sent::Done);
    }
    let to = targets[place].to();
    let answer = port.finish(alloc, motion, to);
    end_by(targets, place, answer)
}

/// Takes over what a finish was answered.
fn end_by(
    targets: &mut Vec<Target>,
    place: usize,
    answer: Result<(), PortNo>,
) -> Result<Sent, MotionNo>
    requires { place < length targets.old.items }
    ensures { EndsBy targets.old.items targets.new.items place result answer }
{
    match answer {
        Ok(()) => {
            finish(targets, place);
            Ok(done_or_more(targets.as_slice()))
        }
        Err(no) => end_no(targets, place, no),
    }
}

/// Takes over that a finish was refused.
fn end_no(targets: &mut Vec<Target>, place: usize, no: PortNo) -> Result<Sent, MotionNo>
    requires { place < length targets.old.items }
    ensures { EndsBy targets.old.items targets.new.items place result (Err no) }
{
    match no {
        PortNo::Stopped => {
            stop(targets, place);
            Ok(stopped_or(targets.as_slice()))
        }
        PortNo::Full | PortNo::Busy => Ok(Sent::Wait(no)),
        PortNo::TooLong(key) => Err(MotionNo::TooLong(key)),
        // A finish is never refused so.
        PortNo::Empty | PortNo::Ended => Err(MotionNo::Memory),
        PortNo::Memory => Err(MotionNo::Memory),
    }
}

fn finish(targets: &mut Vec<Target>, place: usize)
    requires { place < length targets.old.items }
    ensures { targets.new.items ≡ finish_at place targets.old.items }
{
    targets[place].finish();
}

fn done_or_more(targets: &[Target]) -> Sent
    ensures { result ≡ done_or_more (all_over targets.now) }
{
    if all_over(targets) {
        Sent::Done
    } else {
        Sent::More
    }
}

fn stopped_or(targets: &[Target]) -> Sent
    ensures { result ≡ stopped_or (all_stopped targets.now) (done_or_more (all_over targets.now)) }
{
    if all_stopped(targets) {
        return Sent::AllStopped;
    }
    done_or_more(targets)
}
