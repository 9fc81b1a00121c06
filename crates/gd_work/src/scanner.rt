// The worker that sends the rows of a segment.
ghost use Rattle.std.specs.Prelude.{◌≡◌, ℕ, ◌≤◌, List, Result, [], IfOk, Some};
ghost use Rattle.std.specs.List.{All};
ghost use Rattle.ic_base.specs.declared.port.PortEntry.{PortEntry};
ghost use Rattle.ic_base.specs.Ports.{SendsTo};
ghost use Rattle.ic_row.specs.Spelling.{HasLengths};
ghost use Rattle.ic_row.specs.Values.{Datum};
ghost use Rattle.gd_work.specs.declared.course.Course.TheVariants.{Going};
ghost use Rattle.gd_work.specs.declared.course.Turned.{Turned};
ghost use Rattle.gd_work.specs.declared.course.WorkNo.{WorkNo};
ghost use Rattle.gd_work.specs.Turns.{course_behind, settled, WaitsBusy, StepsOnce};
ghost use Rattle.gd_work.specs.Sending.{still, cut, fresh, Same, IsUntouched, Scans, Puts};

use crate::course::{Course, Turned, WorkNo};
use crate::cutter::Cutter;
use ic_base::{Port, SegId};
use ic_row::Row;
use std::alloc::{AllocError, Global};
use std::marker::Model;

/// Sends rows on one connection: the chunks of one row after another, one call for each chunk, and then the end of
/// stream.
///
/// It keeps no rows: the caller passes the same ones at each turn. It spells each row once, and copies each chunk once,
/// into one buffer that serves all chunks.
#[derive(Drop)]
pub struct Scanner {
    motion: u32,
    to: SegId,
    cutter: Cutter,
    course: Course,
}

impl Model for Scanner {
    ghost use Rattle.std.specs.Prelude.{◌≤◌};
    ghost use Rattle.gd_work.specs.Sending.{Scanning};

    ghost Value = { Scanning };

    ghost use Rattle.gd_work.specs.Cutting.{left_of};

    ghost view = { λ s. record { motion = s.motion; to = s.to; packet = s.cutter.packet; begun = s.cutter.begun; left = left_of s.cutter; course = s.course } };

    ghost invariant = { λ s. (128 ≤ s.cutter.packet) × (s.cutter.packet ≤ 65507) };
}

impl Scanner {
    /// A scanner for the connection of this motion to this segment, with packets of at most this many bytes,
    /// 128..=65507. Allocates only a count of owners. Fails only if out of memory.
    pub fn new(alloc: Global, motion: u32, to: SegId, packet: u32) -> Result<Scanner, AllocError>
        requires least { 128 ≤ packet }
        requires greatest { packet ≤ 65507 }
        ensures value { IfOk result (λ scanner. scanner ≡ fresh motion to packet) }
        ensures scans { IfOk result (λ scanner. (rows : List (List Datum)) (log : List PortEntry)
            → IsUntouched motion to log → Scans rows scanner log) }
    {
        Ok(Scanner {
            motion,
            to,
            cutter: Cutter::new(alloc, packet)?,
            course: Course::Going,
        })
    }

    /// Puts the next chunk of the rows, or finishes after the last one. `rows` must be the same at each turn.
    ///
    /// It is done once the finish is answered Ok, or a call is answered `Stopped`. If a call is answered `Full` or
    /// `Busy`, the next turn makes it again.
    pub fn turn<P: Port>(
        &mut self,
        alloc: Global,
        port: &mut P,
        rows: &[Row],
    ) -> Result<Turned, WorkNo>
        requires sends { SendsTo (P.keys port.old) self.old.motion self.old.to }
        // Only rows that can be spelled are sent: fewer than 2^16 values, and texts shorter than 2^32 bytes.
        requires lengths { All HasLengths rows.now }
        ensures same { Same self.old self.new }
        ensures keys { P.keys port.new ≡ P.keys port.old }
        ensures busy { WaitsBusy (P.busy port.old) (P.busy port.new) result }
        ensures steps { StepsOnce P.steps port.old port.new }
        ensures course { self.new.course ≡ course_behind result }

        // Which call it made, what the log has of it, and what it answers. Once its course is settled, it makes no
        // call.
        ensures puts { self.old.course ≡ Going
            → Puts (P.keys port.old) self.old.motion self.old.to (still self.old rows.now) (still self.new rows.now) (P.log port.old) (P.log port.new) result }
        ensures again { (answer : Result Turned WorkNo) → settled self.old.course ≡ Some answer
            → (result ≡ answer) × (self.new ≡ self.old) × (port.new ≡ port.old) }

        // So the chunks put are those of the rows, in order, and it is done exactly if the connection has an end.
        ensures scans { Scans rows.now self.old (P.log port.old) → Scans rows.now self.new (P.log port.new) }
    {
        if let Some(answer) = self.course.settled() {
            return answer;
        }
        let answer = self
            .cutter
            .put_next(alloc, port, self.motion, self.to, rows);
        self.course = Course::behind(&answer);
        answer
    }

    /// How far it has come.
    pub fn course(&self) -> Course
        ensures { result ≡ self.now.course }
    {
        self.course
    }
}
