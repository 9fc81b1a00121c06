// Where a slice stands, and what its turns answer.
ghost use Rattle.ex_slice.specs.Acting as spec;
ghost use Rattle.std.specs.Prelude.{◌≡◌};

use ex_tree::TreeNo;
use ic_base::{ConnKey, PortNo};
use ic_motion::{MotionNo, Sent};

/// What one turn did.
#[derive(Clone, Copy, Debug, PartialEq, Eq)]
pub enum Turned {
    /// The slice went on: its call was answered, or it let a row out, or a row was for receivers that want no more.
    Moved,
    /// The peer, the network or another worker: the call was answered `Full`, `Empty` or `Busy`. Give it another turn later.
    Waiting(PortNo),
    /// All is done: every stream that it sends is finished or stopped, and every stream that it hears was taken to its end or
    /// halted. No call was made, and none will be.
    Done,
}

/// Why a slice goes no further. Each further turn answers the same and makes no call.
#[derive(Clone, Copy, Debug, PartialEq, Eq)]
pub enum SliceNo {
    /// This worker: it put so much on this connection that the packet numbers are used up.
    TooLong(ConnKey),
    /// The sender: what was taken on this connection is no front of a stream of rows of the motion's kinds, or it is wrongly
    /// marked as the last.
    Malformed(ConnKey),
    /// The rows: in the aggregate of this number in preorder a count leaves 64 bits, or a sum 128 bits.
    Overflow { node: u32 },
    /// This side: out of memory, or a row can't be spelled, with 2^16 values or a text of 2^32 bytes.
    Memory,
}

/// Where a slice stands.
#[derive(Clone, Copy)]
pub(crate) enum Stage {
    /// Its operators give rows, which it lets out or sends.
    Giving,
    /// Its output has ended: it finishes the streams that it sends.
    Ending,
    /// It sends nothing more: it halts the senders from which more may come.
    Halting,
    Done,
    Refused(SliceNo),
}

/// What a slice came to as its operators were asked for a row.
#[derive(Drop)]
pub(crate) enum Gave {
    Moved,
    Waiting(PortNo),
    /// The output has ended. No call was made.
    Ended,
    /// No receiver wants more.
    Unwanted,
}

pub(crate) fn no_of_tree(no: TreeNo) -> SliceNo
    ensures { result ≡ spec.no_of_tree no }
{
    match no {
        TreeNo::Malformed(key) => SliceNo::Malformed(key),
        TreeNo::Overflow { node } => SliceNo::Overflow { node },
        TreeNo::Memory => SliceNo::Memory,
    }
}

pub(crate) fn no_of_motion(no: MotionNo) -> SliceNo
    ensures { result ≡ spec.no_of_motion no }
{
    match no {
        MotionNo::TooLong(key) => SliceNo::TooLong(key),
        // A sending end never answers Malformed.
        MotionNo::Malformed(_) | MotionNo::Memory => SliceNo::Memory,
    }
}

/// Where the slice stands after this answer.
pub(crate) fn stage_given(answer: &Result<Gave, SliceNo>) -> Stage
    ensures { result ≡ spec.stage_given answer.now }
{
    match answer {
        Ok(Gave::Moved) | Ok(Gave::Waiting(_)) => Stage::Giving,
        Ok(Gave::Ended) => Stage::Ending,
        Ok(Gave::Unwanted) => Stage::Halting,
        Err(no) => Stage::Refused(*no),
    }
}

/// What the turn answers then.
pub(crate) fn turned_given(answer: Result<Gave, SliceNo>) -> Result<Turned, SliceNo>
    ensures { result ≡ spec.turned_given answer }
{
    match answer {
        Ok(Gave::Moved) | Ok(Gave::Ended) | Ok(Gave::Unwanted) => Ok(Turned::Moved),
        Ok(Gave::Waiting(no)) => Ok(Turned::Waiting(no)),
        Err(no) => Err(no),
    }
}

/// Where the slice stands after this answer.
pub(crate) fn stage_ended(answer: &Result<Sent, SliceNo>) -> Stage
    ensures { result ≡ spec.stage_ended answer.now }
{
    match answer {
        Ok(Sent::Done) | Ok(Sent::AllStopped) => Stage::Halting,
        Ok(Sent::More) | Ok(Sent::Wait(_)) => Stage::Ending,
        Err(no) => Stage::Refused(*no),
    }
}

/// What the turn answers then.
pub(crate) fn turned_ended(answer: Result<Sent, SliceNo>) -> Result<Turned, SliceNo>
    ensures { result ≡ spec.turned_ended answer }
{
    match answer {
        Ok(Sent::Done) | Ok(Sent::AllStopped) | Ok(Sent::More) => Ok(Turned::Moved),
        Ok(Sent::Wait(no)) => Ok(Turned::Waiting(no)),
        Err(no) => Err(no),
    }
}

/// Where the slice stands after this answer.
pub(crate) fn stage_halted(answer: &Result<Sent, SliceNo>) -> Stage
    ensures { result ≡ spec.stage_halted answer.now }
{
    match answer {
        Ok(Sent::Done) => Stage::Done,
        Ok(Sent::AllStopped) | Ok(Sent::More) | Ok(Sent::Wait(_)) => Stage::Halting,
        Err(no) => Stage::Refused(*no),
    }
}

/// What the turn answers then.
pub(crate) fn turned_halted(answer: Result<Sent, SliceNo>) -> Result<Turned, SliceNo>
    ensures { result ≡ spec.turned_halted answer }
{
    match answer {
        Ok(Sent::Done) => Ok(Turned::Done),
        Ok(Sent::AllStopped) | Ok(Sent::More) => Ok(Turned::Moved),
        Ok(Sent::Wait(no)) => Ok(Turned::Waiting(no)),
        Err(no) => Err(no),
    }
}
