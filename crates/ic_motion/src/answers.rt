// What the calls of a motion answer.
ghost use Rattle.std.specs.Prelude.{◌≡◌};
ghost use Rattle.ic_motion.specs.declared.answers.MotionNo.TheVariants.{Memory};
ghost use Rattle.ic_motion.specs.Answers as spec;

use ic_base::{ConnKey, PortNo, SegId};
use ic_row::Row;
use pl_tree::Columns;
use std::alloc::AllocError;

/// The receiving end of a motion: which motion of which query, and the segment that receives.
#[derive(Clone, Copy, Debug, PartialEq, Eq)]
pub struct MotionEnd {
    pub session: u32,
    pub query: u32,
    pub motion: u32,
    pub at: SegId,
}

impl MotionEnd {
    /// The connection from a sender.
    pub(crate) fn key_from(&self, sender: SegId) -> ConnKey
        ensures { result ≡ spec.key_from self.now sender }
    {
        ConnKey {
            session: self.session,
            query: self.query,
            motion: self.motion,
            from: sender,
            to: self.at,
        }
    }
}

/// How a motion routes its rows.
#[derive(Drop)]
pub enum MotionKind {
    /// Each row goes to the one receiver. Greenplum's Gather Motion.
    Gather,
    /// Each row goes to the segment that the values in these columns name. Greenplum's Redistribute Motion.
    Redistribute(Columns),
    /// Each row goes to every receiver. Greenplum's Broadcast Motion.
    Broadcast,
}

/// What a pull gave.
#[derive(Drop, Debug)]
pub enum Got {
    /// The next row.
    Row(Row),
    /// A parcel was taken, and its rows come with further pulls. Pull again at once.
    More,
    /// The peer, the network or another worker: its call was answered `Empty` or `Busy`. Pull again later.
    Wait(PortNo),
    /// Nothing more comes from any sender, and every row was given.
    End,
}

/// What a send, an end or a halt did.
#[derive(Clone, Copy, Debug, PartialEq, Eq)]
pub enum Sent {
    /// All is done. Send: each of the row's receivers that wants more has all of it. End: each receiver's stream is finished, or
    /// it wants no more. Halt: nothing more comes, or is wanted, of any sender.
    Done,
    /// One call was answered, and more are to come. Call again.
    More,
    /// The peer, the network or another worker: the call was answered `Full` or `Busy`, and a halt's only `Busy`. Call again
    /// later.
    Wait(PortNo),
    /// The peers: no receiver wants more. A halt never answers so.
    AllStopped,
}

/// Why a motion goes no further. Each further call answers the same.
#[derive(Clone, Copy, Debug, PartialEq, Eq)]
pub enum MotionNo {
    /// This worker: it put so much on this connection that the packet numbers are used up. A receiving end never answers so.
    TooLong(ConnKey),
    /// The sender: what was taken on this connection is no front of a stream of rows of the motion's kinds, or it is
    /// wrongly marked as the last. A sending end never answers so.
    Malformed(ConnKey),
    /// Out of memory on this side.
    Memory,
}

impl From<AllocError> for MotionNo {
    ghost from_gives = { λ _ e. e ≡ Memory };

    fn from(_e: AllocError) -> MotionNo {
        MotionNo::Memory
    }
}

/// What each further call is refused with, after a pull.
pub(crate) fn refused_by_pull(answer: &Result<Got, MotionNo>) -> Option<MotionNo>
    ensures { result ≡ spec.refused_by answer.now }
{
    match answer {
        Ok(_) => None,
        Err(no) => Some(*no),
    }
}

/// What each further call is refused with, after another call.
pub(crate) fn refused_by(answer: &Result<Sent, MotionNo>) -> Option<MotionNo>
    ensures { result ≡ spec.refused_by answer.now }
{
    match answer {
        Ok(_) => None,
        Err(no) => Some(*no),
    }
}
