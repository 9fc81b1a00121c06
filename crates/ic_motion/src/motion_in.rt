// The receiving end of a motion.
ghost use Rattle.std.specs.Prelude.{◌≡◌, ◌++◌, List, Result, [], map, IfOk, Some, None, Err};
ghost use Rattle.pl_ops.specs.Rows.{Line};
ghost use Rattle.pl_runs.specs.Steps.{Step, calls_of};
ghost use Rattle.ic_motion.specs.declared.answers.MotionNo.{MotionNo};
ghost use Rattle.ic_motion.specs.Answers.{refused_by, StepsOnce, Touches, RowsFall, WaitsBusy, PullWaits, SendWaits};
ghost use Rattle.ic_motion.specs.Hearing.{fresh, fresh_lane, Ascends, IsUnheard, Hears, senders_of, rows_held};
ghost use Rattle.ic_motion.specs.Pulling.{Listens, SameIn, Pulled};
ghost use Rattle.ic_motion.specs.Halting.{Halted, all_heard};

use crate::answers::{Got, MotionEnd, MotionNo, Sent, refused_by, refused_by_pull};
use crate::halting::{all_heard, halt_next};
use crate::taking::advance;
use crate::track::Track;
use ic_base::{Port, SegId, Segs};
use pl_tree::{Keys, Kinds};
use std::alloc::{AllocError, Global};
use std::marker::Model;

/// The receiving end of a motion. It gives the rows that the parcels of its senders complete, one a call: in the order of
/// the takes, or in the order of its keys.
///
/// For each sender it keeps the bytes of a row that has begun, and the rows that weren't given yet. A row is moved and never
/// copied.
#[derive(Drop)]
pub struct MotionIn {
    end: MotionEnd,
    order: Option<Keys>,
    kinds: Kinds,
    /// One for each sender.
    tracks: Vec<Track>,
    refused: Option<MotionNo>,
}

impl Model for MotionIn {
    ghost use Rattle.ic_motion.specs.Hearing.{Listener};

    ghost Value = { Listener };

    ghost view = { λ m. record { end = m.end; order = m.order; kinds = m.kinds; lanes = m.tracks.items; refused = m.refused } };
}

impl MotionIn {
    /// The receiving end of a motion with these senders, which ascend, before its first call. With an order the rows of each
    /// sender come in it. Takes memory for one entry a sender.
    pub fn new(
        alloc: Global,
        end: MotionEnd,
        senders: Segs,
        order: Option<Keys>,
        kinds: Kinds,
    ) -> Result<MotionIn, AllocError>
        requires { Ascends senders }
        ensures value { IfOk result (λ m. m ≡ fresh end senders order kinds) }
        ensures hears { IfOk result (λ m. (steps : List Step) → IsUnheard end.motion steps → Hears m steps []) }
    {
        Ok(MotionIn {
            end,
            order,
            kinds,
            tracks: tracks(alloc, senders.as_slice())?,
            refused: None,
        })
    }

    /// Gives the next row. If it isn't known, takes the next parcel: from any sender, or with an order from the first one
    /// whose next row isn't known. The rows of that parcel come with further pulls.
    ///
    /// With an order it looks at the next row of each sender. If it gives up for `Memory`, a parcel may have been taken and
    /// its rows lost. A take that is answered `Ended` is refused as `Memory` too: a hub that keeps its law answers no pull so,
    /// if no sender was halted.
    pub fn pull<P: Port>(&mut self, alloc: Global, port: &mut P) -> Result<Got, MotionNo>
        requires listens { Listens (P.keys port.old) self.old.end.motion (senders_of self.old.lanes) }
        ensures same { SameIn self.old self.new }
        ensures senders { IfOk result (λ _. senders_of self.new.lanes ≡ senders_of self.old.lanes) }
        ensures keys { P.keys port.new ≡ P.keys port.old }
        // A row and the end come without a call.
        ensures steps { Touches P.steps port.old port.new result }
        ensures falls { IfOk result (λ got. RowsFall got (rows_held self.old.lanes) (rows_held self.new.lanes)) }
        ensures busy { WaitsBusy (P.busy port.old) (P.busy port.new) (PullWaits result) }
        ensures refused { self.new.refused ≡ refused_by result }
        ensures again { (no_ : MotionNo) → self.old.refused ≡ Some no_
            → (result ≡ Err no_) × (self.new ≡ self.old) × (port.new ≡ port.old) }

        // Which call it made, and why; which row it gives; and that all was given if it gives none.
        ensures pulls { (steps : List Step) (given : List Line) → self.old.refused ≡ None → calls_of steps ≡ P.log port.old → Hears self.old steps given
            → Pulled self.old self.new steps given (P.log port.new) result }
    {
        if let Some(no) = self.refused {
            return Err(no);
        }
        let answer = advance(
            alloc,
            port,
            &self.end,
            &self.order,
            self.kinds.as_slice(),
            &mut self.tracks,
        );
        self.refused = refused_by_pull(&answer);
        answer
    }

    /// Whether nothing more comes, or is wanted, of any sender.
    pub fn is_heard(&self) -> bool
        ensures { result ≡ all_heard self.now.lanes }
    {
        all_heard(self.tracks.as_slice())
    }

    /// Halts the next sender from which more may come. If the answer is `More` or `Wait`, call it again. Pull no more
    /// afterwards.
    pub fn halt_all<P: Port>(&mut self, alloc: Global, port: &mut P) -> Result<Sent, MotionNo>
        requires listens { Listens (P.keys port.old) self.old.end.motion (senders_of self.old.lanes) }
        ensures same { SameIn self.old self.new }
        ensures senders { senders_of self.new.lanes ≡ senders_of self.old.lanes }
        ensures keys { P.keys port.new ≡ P.keys port.old }
        ensures steps { StepsOnce P.steps port.old port.new }
        ensures busy { WaitsBusy (P.busy port.old) (P.busy port.new) (SendWaits result) }
        ensures refused { self.new.refused ≡ refused_by result }
        ensures again { (no_ : MotionNo) → self.old.refused ≡ Some no_
            → (result ≡ Err no_) × (self.new ≡ self.old) × (port.new ≡ port.old) }

        // Which sender it halted; and when it is done.
        ensures halts { (steps : List Step) (given : List Line) → self.old.refused ≡ None → calls_of steps ≡ P.log port.old → Hears self.old steps given
            → Halted self.old self.new steps given (P.log port.new) result }
    {
        if let Some(no) = self.refused {
            return Err(no);
        }
        let answer = halt_next(alloc, port, self.end.motion, &mut self.tracks);
        self.refused = refused_by(&answer);
        answer
    }
}

/// One for each sender.
fn tracks(alloc: Global, senders: &[SegId]) -> Result<Vec<Track>, AllocError>
    ensures { IfOk result (λ tracks. tracks.items ≡ map fresh_lane senders.now) }
{
    let mut tracks = Vec::new(alloc);
    for sender in senders.iter().copied() {
        tracks.push(Track::new(alloc, sender))?;
    }
    Ok(tracks)
}
