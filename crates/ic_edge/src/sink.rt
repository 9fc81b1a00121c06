// Output: where bytes go.
ghost use Rattle.std.specs.Prelude.{◌≡◌, ℕ, ◌+◌, ◌<◌, ◌≤◌, ◌⊎◌, List, [], Some, None, length, IfOk, OnErr, IsErr, IsOkAnd};
ghost use Rattle.std.specs.declared.option.Option.{Option};
ghost use Rattle.std.specs.Io.{WritesAtMost};
ghost use Rattle.std.specs.Io.KnownBytes.{WriteAppends};
ghost use Rattle.ic_edge.specs.Causes.{HasCause, Rose};
ghost use Rattle.ic_edge.specs.Calls.{no_calls, after_call, IsNextListed, HasNoRoom};

use crate::calls::CallCount;
use crate::fails::{Failed, Fails};
use std::alloc::{AllocError, Global};
use std::io::Write;
use std::marker::Model;

/// A writer that counts its faults.
pub trait Sink {
    /// The bytes that it has taken, if its contract exposes them.
    ghost wrote: { Self → Option (List ℕ) };

    /// A count that each failure raises. It never falls, and stays at the greatest number of its type.
    ghost count: { Self → ℕ };

    /// The count of its failures.
    fn faults(&self) -> u64
        ensures { result ≡ count self.now };

    /// Takes some bytes from the front of the piece and says how many. 0 means that the piece is empty: if nothing can
    /// be taken of another piece, it fails. If it fails, nothing was taken.
    fn write(&mut self, piece: &[u8]) -> Result<usize, Failed>
        ensures bound { WritesAtMost result piece.now }
        ensures some { IfOk result (λ n. n ≡ 0 → piece.now ≡ []) }
        ensures bytes { WriteAppends (wrote self.old) (wrote self.new) result piece.now }
        ensures cause { HasCause (count self.old) (count self.new) result };
}

/// A sink in memory that can be made to fail. A write takes the whole piece. Unless it is to fail, it fails only if out
/// of memory. It allocates only if the piece is longer than the room that is left.
#[derive(Drop)]
pub struct MemSink {
    bytes: Vec<u8>,
    calls: CallCount,
}

impl Model for MemSink {
    ghost use Rattle.std.specs.Prelude.{vec_capacity};
    ghost use Rattle.ic_edge.specs.Calls.{Writing};

    ghost Value = { Writing };

    ghost view = { λ s. record { wrote = s.bytes.items; room = vec_capacity s.bytes; calls = s.calls } };
}

impl MemSink {
    /// The room of a new sink in bytes: one page, enough for most texts of tests.
    pub const ROOM: usize = 4096;

    /// A sink that has taken nothing, with room for `ROOM` bytes. Fails only if out of memory.
    pub fn new(alloc: Global, fails: Fails) -> Result<MemSink, AllocError>
        ensures wrote { IfOk result (λ s. s.wrote ≡ []) }
        ensures room { IfOk result (λ s. s.room ≡ Self.ROOM) }
        ensures calls { IfOk result (λ s. s.calls ≡ no_calls fails) }
    {
        Ok(MemSink {
            bytes: Vec::with_capacity(alloc, Self::ROOM)?,
            calls: CallCount::new(fails),
        })
    }

    /// The bytes that it has taken.
    pub fn bytes(&self) -> &[u8]
        ensures { result.now ≡ self.now.wrote }
    {
        self.bytes.as_slice()
    }
}

impl Sink for MemSink {
    ghost wrote = { λ s. Some s.wrote };

    ghost count = { λ s. s.calls.failed };

    fn faults(&self) -> u64 {
        self.calls.failed()
    }

    fn write(&mut self, piece: &[u8]) -> Result<usize, Failed>
        ensures bound { WritesAtMost result piece.now }
        ensures some { IfOk result (λ n. n ≡ 0 → piece.now ≡ []) }
        ensures bytes { WriteAppends (Some self.old.wrote) (Some self.new.wrote) result piece.now }
        ensures cause { HasCause self.old.calls.failed self.new.calls.failed result }
        ensures listed { IsNextListed self.old.calls → IsErr result }
        ensures full { OnErr result (IsNextListed self.old.calls ⊎ HasNoRoom self.old piece.now) }
        ensures calls { self.new.calls ≡ after_call result self.old.calls }
        ensures whole { IfOk result (λ n. n ≡ length piece.now) }
        ensures room { self.old.room ≤ self.new.room }
    {
        self.calls.begin()?;
        if self.bytes.extend_from_slice(piece).is_err() {
            return Err(self.calls.fail());
        }
        Ok(piece.len())
    }
}

/// A sink that takes every byte and keeps none. It never fails.
#[derive(Clone, Copy, Debug)]
pub struct SureSink;

impl SureSink {
    pub fn new() -> SureSink {
        SureSink
    }
}

impl Sink for SureSink {
    ghost wrote = { λ _. None };

    ghost count = { λ _. 0 };

    fn faults(&self) -> u64 {
        0
    }

    fn write(&mut self, piece: &[u8]) -> Result<usize, Failed>
        ensures bound { WritesAtMost result piece.now }
        ensures some { IfOk result (λ n. n ≡ 0 → piece.now ≡ []) }
        ensures bytes { WriteAppends None None result piece.now }
        ensures cause { HasCause 0 0 result }
        ensures whole { IsOkAnd result (λ n. n ≡ length piece.now) }
    {
        Ok(piece.len())
    }
}

/// Any writer of std. Its contract exposes the bytes if the writer's does. It doesn't flush; `into_inner` gives the
/// writer back for that.
#[derive(Drop)]
pub struct StdSink<W: Write> {
    inner: W,
    count: u64,
}

impl<W: Write> StdSink<W> {
    pub fn new(inner: W) -> StdSink<W>
        ensures wrote { ⟦<StdSink<W> as Sink>⟧.wrote result ≡ W.contents inner }
        ensures count { ⟦<StdSink<W> as Sink>⟧.count result ≡ 0 }
    {
        StdSink { inner, count: 0 }
    }

    /// The writer.
    pub fn into_inner(self) -> W
        ensures { W.contents result ≡ ⟦<StdSink<W> as Sink>⟧.wrote self }
    {
        self.inner
    }

    fn fail(&mut self) -> Failed
        ensures inner { self.new.inner ≡ self.old.inner }
        ensures later { self.old.count ≤ self.new.count }
        ensures rose { Rose self.old.count self.new.count }
    {
        self.count = self.count.saturating_add(1);
        Failed
    }
}

impl<W: Write> Sink for StdSink<W> {
    ghost wrote = { λ s. W.contents s.inner };

    ghost count = { λ s. s.count };

    fn faults(&self) -> u64 {
        self.count
    }

    fn write(&mut self, piece: &[u8]) -> Result<usize, Failed> {
        match self.inner.write(piece) {
            Ok(n) => {
                if n == 0 && !piece.is_empty() {
                    return Err(self.fail());
                }
                Ok(n)
            }
            Err(_) => Err(self.fail()),
        }
    }
}
