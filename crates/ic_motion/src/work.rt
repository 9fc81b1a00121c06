// The row in work of a sending end.
ghost use Rattle.std.specs.Prelude.{◌≡◌, ◌≤◌, ◌<◌, ◌^◌, [], map, IfOk, OnErr, nat_lt, suc};
ghost use Rattle.ic_chunk.specs.Chunks.{spelled};
ghost use Rattle.ic_motion.specs.Sending.{no_work};
ghost use Rattle.ic_motion.specs.Putting.{reset, Settles, LeavesSame, HasRest};

use crate::target::{Target, next_open};
use ic_base::Bytes;
use ic_chunk::Splitter;
use std::alloc::{AllocError, Global};
use std::marker::Model;

/// The row in work. It holds the spelling of one row, and one chunk in a buffer that serves all chunks.
#[derive(Drop)]
pub(crate) struct Work {
    /// The next chunk.
    chunk: Vec<u8>,
    /// The chunks after it.
    splitter: Splitter,
    /// The row goes to the receivers at the places from `first` up to `end`, and the chunk is still to be put to those from
    /// `at` on.
    first: usize,
    end: usize,
    at: usize,
}

impl Model for Work {
    ghost use Rattle.std.specs.Prelude.{map};
    ghost use Rattle.ic_chunk.specs.Chunks.{spelled};
    ghost use Rattle.ic_motion.specs.Sending as spec;

    ghost Value = { spec.Work };

    ghost view = { λ w. record { chunk = w.chunk.items; rest = map spelled w.splitter; first = w.first; end = w.end; at = w.at } };
}

impl Work {
    /// No row. Takes memory for a count of owners.
    pub(crate) fn new(alloc: Global, packet: u32) -> Result<Work, AllocError>
        requires least { 128 ≤ packet }
        requires greatest { packet ≤ 65507 }
        ensures { IfOk result (λ work. work ≡ no_work) }
    {
        Ok(Work {
            chunk: Vec::new(alloc),
            splitter: Splitter::new(Bytes::from_vec(alloc, Vec::new(alloc))?, packet),
            first: 0,
            end: 0,
            at: 0,
        })
    }

    /// Whether a row is in work.
    pub(crate) fn is_busy(&self) -> bool
        ensures { result ≡ nat_lt 0 self.now.end }
    {
        self.end > 0
    }

    pub(crate) fn at(&self) -> usize
        ensures { result ≡ self.now.at }
    {
        self.at
    }

    pub(crate) fn chunk(&self) -> &[u8]
        ensures { result.now ≡ self.now.chunk }
    {
        self.chunk.as_slice()
    }

    /// Takes a row into work, for the receivers at the places from `first` up to `end`.
    pub(crate) fn begin(&mut self, splitter: Splitter, first: usize, end: usize)
        ensures { self.new ≡ record { chunk = []; rest = map spelled splitter; first = first; end = end; at = end } }
    {
        self.chunk.clear();
        self.splitter = splitter;
        self.first = first;
        self.end = end;
        self.at = end;
    }

    /// No row is in work any more.
    pub(crate) fn reset(&mut self)
        ensures { self.new ≡ reset self.old }
    {
        self.first = 0;
        self.end = 0;
        self.at = 0;
    }

    /// The chunk was put to the receiver at the place.
    pub(crate) fn passed(&mut self)
        requires { self.old.at < 2 ^ 63 }
        ensures { self.new ≡ record self.old { at = suc self.old.at } }
    {
        self.at += 1;
    }

    /// Goes on to the next receiver that wants more; after the last one to the next chunk. Gives whether there is one.
    pub(crate) fn settle(&mut self, targets: &[Target]) -> Result<bool, AllocError>
        ensures ok { IfOk result (Settles targets.now self.old self.new) }
        ensures err { OnErr result (LeavesSame targets.now self.old self.new) }
    {
        let at = next_open(targets, self.at.max(self.first), self.end);
        if at < self.end && !self.chunk.is_empty() {
            self.at = at;
            return Ok(true);
        }
        self.next_chunk(targets)
    }

    /// Goes on to the next chunk, for the first receiver that wants more. Gives whether there is one.
    fn next_chunk(&mut self, targets: &[Target]) -> Result<bool, AllocError>
        requires { HasRest targets.now self.old }
        ensures ok { IfOk result (Settles targets.now self.old self.new) }
        ensures err { OnErr result (LeavesSame targets.now self.old self.new) }
    {
        let first = next_open(targets, self.first, self.end);
        if first >= self.end {
            return Ok(false);
        }
        self.chunk.clear();
        if !self.splitter.next(&mut self.chunk)? {
            return Ok(false);
        }
        self.at = first;
        Ok(true)
    }
}
