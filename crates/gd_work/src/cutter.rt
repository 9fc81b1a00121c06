// The chunks of rows, one by one.
ghost use Rattle.std.specs.Prelude.{◌≡◌, ◌≤◌, take, IfOk, OnOk};
ghost use Rattle.std.specs.List.{All, AllByRecursion};
ghost use Rattle.ic_base.specs.Ports.{SendsTo};
ghost use Rattle.ic_row.specs.Spelling.{HasLengths, IsRow};
ghost use Rattle.gd_work.specs.Sending.{Puts, refused};
ghost use Rattle.gd_work.specs.Cutting.{unput, IsReady, IsFirst};
ghost use Rattle.gd_work.specs.Turns.{WaitsBusy, StepsOnce};

use crate::course::{Turned, WorkNo};
use ic_base::{Bytes, Port, PortNo, SegId};
use ic_chunk::Splitter;
use ic_row::{Row, spell};
use std::alloc::{AllocError, Global};

/// Rows while they are cut into chunks. It holds the spelling of one row, and one chunk in a buffer that serves all
/// chunks.
#[derive(Drop)]
pub(crate) struct Cutter {
    pub packet: u32,
    /// How many of the rows were begun.
    pub begun: usize,
    /// The chunks still to come of the row begun last.
    pub splitter: Splitter,
    /// The next chunk, or empty.
    pub chunk: Vec<u8>,
}

impl Cutter {
    /// A cutter that has begun no row.
    pub(crate) fn new(alloc: Global, packet: u32) -> Result<Cutter, AllocError>
        requires least { 128 ≤ packet }
        requires greatest { packet ≤ 65507 }
        ensures { IfOk result (λ cutter. IsFirst packet cutter) }
    {
        Ok(Cutter {
            packet,
            begun: 0,
            splitter: Splitter::new(Bytes::from_vec(alloc, Vec::new(alloc))?, packet),
            chunk: Vec::new(alloc),
        })
    }

    /// Makes the next chunk ready, if one is left. Spells a row when it begins.
    fn fill(&mut self, alloc: Global, rows: &[Row]) -> Result<(), AllocError>
        requires least { 128 ≤ self.old.packet }
        requires greatest { self.old.packet ≤ 65507 }
        requires lengths { All HasLengths rows.now }
        ensures packet { self.new.packet ≡ self.old.packet }
        ensures same { unput self.new rows.now ≡ unput self.old rows.now }
        ensures rows { AllByRecursion IsRow (take self.old.begun rows.now) → AllByRecursion IsRow (take self.new.begun rows.now) }
        ensures ready { OnOk result (IsReady self.new rows.now) }
    {
        if !self.chunk.is_empty() {
            return Ok(());
        }
        while !self.splitter.next(&mut self.chunk)? {
            let Some(row) = rows.get(self.begun) else {
                return Ok(());
            };
            self.splitter = Splitter::new(spell(alloc, row)?, self.packet);
            self.begun += 1;
        }
        Ok(())
    }

    /// Puts the next chunk, or finishes after the last one.
    pub(crate) fn put_next<P: Port>(
        &mut self,
        alloc: Global,
        port: &mut P,
        motion: u32,
        to: SegId,
        rows: &[Row],
    ) -> Result<Turned, WorkNo>
        requires least { 128 ≤ self.old.packet }
        requires greatest { self.old.packet ≤ 65507 }
        requires sends { SendsTo (P.keys port.old) motion to }
        requires lengths { All HasLengths rows.now }
        ensures packet { self.new.packet ≡ self.old.packet }
        ensures keys { P.keys port.new ≡ P.keys port.old }
        ensures rows { AllByRecursion IsRow (take self.old.begun rows.now) → AllByRecursion IsRow (take self.new.begun rows.now) }
        ensures busy { WaitsBusy (P.busy port.old) (P.busy port.new) result }
        ensures steps { StepsOnce P.steps port.old port.new }
        ensures puts { Puts (P.keys port.old) motion to (unput self.old rows.now) (unput self.new rows.now) (P.log port.old) (P.log port.new) result }
    {
        self.fill(alloc, rows)?;
        if self.chunk.is_empty() {
            return match port.finish(alloc, motion, to) {
                Ok(()) => Ok(Turned::Done),
                Err(no) => refused(no),
            };
        }
        match port.put(alloc, motion, to, self.chunk.as_slice()) {
            Ok(()) => {
                self.chunk.clear();
                Ok(Turned::Moved)
            }
            Err(no) => refused(no),
        }
    }
}

/// What a turn answers if a put or a finish was refused for this reason.
fn refused(no: PortNo) -> Result<Turned, WorkNo>
    ensures { result ≡ refused no }
{
    match no {
        PortNo::Full | PortNo::Busy => Ok(Turned::Waiting(no)),
        PortNo::Stopped => Ok(Turned::Done),
        PortNo::TooLong(key) => Err(WorkNo::TooLong(key)),
        // A put or a finish is never refused so.
        PortNo::Empty | PortNo::Ended => Err(WorkNo::Memory),
        PortNo::Memory => Err(WorkNo::Memory),
    }
}
