// What a turn answers, and how far a worker has come.
ghost use Rattle.std.specs.Prelude.{◌≡◌};
ghost use Rattle.gd_work.specs.declared.course.WorkNo.TheVariants.{Memory};
ghost use Rattle.gd_work.specs.Turns as spec;

use ic_base::{ConnKey, PortNo, SegId};
use std::alloc::AllocError;

/// What a turn did. A turn makes at most one call of the port.
#[derive(Clone, Copy, Debug, PartialEq, Eq)]
pub enum Turned {
    /// Its call was done.
    Moved,
    /// The peer, the network or another worker: its call was answered `Full`, `Empty` or `Busy`. The next turn makes it
    /// again.
    Waiting(PortNo),
    /// Nothing is left to do.
    Done,
}

/// Why a worker gives up.
#[derive(Clone, Copy, Debug, PartialEq, Eq)]
pub enum WorkNo {
    /// This worker: it put so much on this connection that the packet numbers are used up.
    TooLong(ConnKey),
    /// The sender: what was taken from this segment isn't the front of a stream of rows.
    Malformed(SegId),
    /// Out of memory on this side.
    Memory,
}

impl From<AllocError> for WorkNo {
    ghost from_gives = { λ _ e. e ≡ Memory };

    fn from(_e: AllocError) -> WorkNo {
        WorkNo::Memory
    }
}

/// How far a worker has come.
#[derive(Clone, Copy, Debug, PartialEq, Eq)]
pub enum Course {
    /// It has more to do.
    Going,
    /// It has done everything.
    Done,
    /// It gave up for this reason.
    Refused(WorkNo),
}

impl Course {
    /// How far a worker has come after a turn with this answer.
    pub(crate) fn behind(answer: &Result<Turned, WorkNo>) -> Course
        ensures { result ≡ spec.course_behind answer.now }
    {
        match answer {
            Ok(Turned::Done) => Course::Done,
            Ok(_) => Course::Going,
            Err(no) => Course::Refused(*no),
        }
    }

    /// What each further turn answers, if that is settled.
    pub(crate) fn settled(self) -> Option<Result<Turned, WorkNo>>
        ensures { result ≡ spec.settled self }
    {
        match self {
            Course::Going => None,
            Course::Done => Some(Ok(Turned::Done)),
            Course::Refused(no) => Some(Err(no)),
        }
    }
}
