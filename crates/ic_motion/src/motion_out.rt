// The sending end of a motion.
ghost use Rattle.std.specs.Prelude.{◌≡◌, ◌≤◌, List, Result, [], IfOk, Some, None, Err, false};
ghost use Rattle.ic_row.specs.Spelling.{HasLengths};
ghost use Rattle.pl_ops.specs.Rows.{Line};
ghost use Rattle.pl_runs.specs.Steps.{Step, calls_of};
ghost use Rattle.ic_motion.specs.declared.answers.MotionNo.{MotionNo};
ghost use Rattle.ic_motion.specs.Answers.{refused_by, StepsOnce, WaitsBusy, SendWaits};
ghost use Rattle.ic_motion.specs.Hearing.{Ascends};
ghost use Rattle.ic_motion.specs.Sending.{fresh_sender, receivers_of, IsIdle, Sends, SendsToEach};
ghost use Rattle.ic_motion.specs.Sent.{SameOut, IsUnsent, SendsBy, EndsAfter};

use crate::answers::{MotionKind, MotionNo, Sent, refused_by};
use crate::ending::end_next;
use crate::putting::send_row;
use crate::target::{Target, targets};
use crate::work::Work;
use ic_base::{Port, Segs};
use ic_row::Row;
use std::alloc::{AllocError, Global};
use std::marker::Model;

/// The sending end of a motion. It cuts each row into chunks and puts them to the row's receivers, one call a put; then it
/// finishes the streams, one call a stream.
///
/// A row is spelled once, and each chunk is copied once, into one buffer that serves all chunks and all receivers.
#[derive(Drop)]
pub struct MotionOut {
    motion: u32,
    kind: MotionKind,
    packet: u32,
    /// One for each receiver.
    targets: Vec<Target>,
    work: Work,
    ending: bool,
    refused: Option<MotionNo>,
}

impl Model for MotionOut {
    ghost use Rattle.std.specs.Prelude.{◌≤◌};
    ghost use Rattle.ic_motion.specs.Sending.{Sender};

    ghost Value = { Sender };

    ghost view = { λ m. record { motion = m.motion; kind = m.kind; packet = m.packet; targets = m.targets.items; work = m.work; ending = m.ending; refused = m.refused } };

    ghost invariant = { λ m. (128 ≤ m.packet) × (m.packet ≤ 65507) };
}

impl MotionOut {
    /// The sending end of a motion to these receivers, which ascend, in packets of at most `packet` bytes, 128..=65507. A
    /// gather has one receiver; of a redistribute the receiver at place i is segment i.
    pub fn new(
        alloc: Global,
        kind: MotionKind,
        motion: u32,
        receivers: Segs,
        packet: u32,
    ) -> Result<MotionOut, AllocError>
        requires ascend { Ascends receivers }
        requires least { 128 ≤ packet }
        requires greatest { packet ≤ 65507 }
        ensures value { IfOk result (λ m. m ≡ fresh_sender motion kind packet receivers) }
        ensures sends { IfOk result (λ m. (steps : List Step) → IsUnsent motion steps → Sends m steps []) }
    {
        let targets = targets(alloc, receivers.as_slice())?;
        let work = Work::new(alloc, packet)?;
        Ok(MotionOut {
            motion,
            kind,
            packet,
            targets,
            work,
            ending: false,
            refused: None,
        })
    }

    /// Puts the next chunk of a row to the next of its receivers.
    ///
    /// If the answer is `More` or `Wait`, send the same row again. It isn't read again: its chunks are kept. Takes memory
    /// when a row begins, for its spelling, and for a greater chunk than any before.
    pub fn send<P: Port>(
        &mut self,
        alloc: Global,
        port: &mut P,
        row: &Row,
    ) -> Result<Sent, MotionNo>
        requires sends { SendsToEach (P.keys port.old) self.old.motion (receivers_of self.old.targets) }
        // Only rows that can be spelled are sent: fewer than 2^16 values, and texts shorter than 2^32 bytes.
        requires lengths { HasLengths row.now }
        requires open_ { self.old.ending ≡ false }
        ensures same { SameOut self.old self.new }
        ensures open_ { self.new.ending ≡ false }
        ensures keys { P.keys port.new ≡ P.keys port.old }
        ensures steps { StepsOnce P.steps port.old port.new }
        ensures busy { WaitsBusy (P.busy port.old) (P.busy port.new) (SendWaits result) }
        ensures refused { self.new.refused ≡ refused_by result }
        ensures again { (no_ : MotionNo) → self.old.refused ≡ Some no_
            → (result ≡ Err no_) × (self.new ≡ self.old) × (port.new ≡ port.old) }

        // Which chunk it put, and to which receiver; what was put and what is still to be put; when it is done.
        ensures sends { (steps : List Step) (rows : List Line) → self.old.refused ≡ None → calls_of steps ≡ P.log port.old → Sends self.old steps rows
            → SendsBy self.old self.new steps rows row.now (P.log port.new) result }
    {
        if let Some(no) = self.refused {
            return Err(no);
        }
        let answer = send_row(
            alloc,
            port,
            self.motion,
            &self.kind,
            self.packet,
            &mut self.targets,
            &mut self.work,
            row,
        );
        self.refused = refused_by(&answer);
        answer
    }

    /// Finishes the stream of the next receiver. No row may be in work, and none is sent afterwards.
    ///
    /// If the answer is `More` or `Wait`, call it again.
    pub fn end<P: Port>(&mut self, alloc: Global, port: &mut P) -> Result<Sent, MotionNo>
        requires sends { SendsToEach (P.keys port.old) self.old.motion (receivers_of self.old.targets) }
        requires idle { IsIdle self.old.work }
        ensures same { SameOut self.old self.new }
        ensures idle { IsIdle self.new.work }
        ensures keys { P.keys port.new ≡ P.keys port.old }
        ensures steps { StepsOnce P.steps port.old port.new }
        ensures busy { WaitsBusy (P.busy port.old) (P.busy port.new) (SendWaits result) }
        ensures refused { self.new.refused ≡ refused_by result }
        ensures again { (no_ : MotionNo) → self.old.refused ≡ Some no_
            → (result ≡ Err no_) × (self.new ≡ self.old) × (port.new ≡ port.old) }

        // Which stream it finished, after all of it was put; and when it is done.
        ensures ends { (steps : List Step) (rows : List Line) → self.old.refused ≡ None → calls_of steps ≡ P.log port.old → Sends self.old steps rows
            → EndsAfter self.old self.new steps rows (P.log port.new) result }
    {
        if let Some(no) = self.refused {
            return Err(no);
        }
        let answer = end_next(alloc, port, self.motion, &mut self.targets);
        self.ending = true;
        self.refused = refused_by(&answer);
        answer
    }
}
