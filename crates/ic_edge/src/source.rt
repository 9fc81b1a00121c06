// Input: where bytes come from.
ghost use Rattle.std.specs.Prelude.{◌≡◌, ℕ, ◌<◌, ◌≤◌, ◌↔◌, min, List, [], Some, None, length, take, drop, IfOk, IsErr};
ghost use Rattle.std.specs.declared.option.Option.{Option};
ghost use Rattle.std.specs.Io.{ReadsAtMost};
ghost use Rattle.std.specs.Io.KnownBytes.{ReadConsumes};
ghost use Rattle.ic_edge.specs.Causes.{HasCause};
ghost use Rattle.ic_edge.specs.Calls.{no_calls, after_call, IsNextListed};

use crate::calls::CallCount;
use crate::fails::{Failed, Fails};
use ic_base::Bytes;
use std::io::Read;
use std::marker::Model;

/// A reader that counts its faults.
pub trait Source {
    /// The bytes that are left, if its contract exposes them.
    ghost left: { Self → Option (List ℕ) };

    /// A count that each failure raises. It never falls, and stays at the greatest number of its type.
    ghost count: { Self → ℕ };

    /// The count of its failures.
    fn faults(&self) -> u64
        ensures { result ≡ count self.now };

    /// Reads the next bytes into the front of `buf` and says how many. For a buffer that isn't empty, 0 means the end.
    /// If it fails, no byte is lost.
    fn read(&mut self, buf: &mut [u8]) -> Result<usize, Failed>
        ensures bound { ReadsAtMost result buf.new }
        ensures bytes { ReadConsumes (left self.old) (left self.new) result buf.new }
        ensures cause { HasCause (count self.old) (count self.new) result };
}

/// Copies the front of what is left into the buffer, as much as fits.
fn copy_front(left: &[u8], buf: &mut [u8]) -> usize
    ensures most { result ≡ min (length left.now) (length buf.new) }
    ensures front { take result buf.new ≡ take result left.now }
{
    let n = if left.len() < buf.len() {
        left.len()
    } else {
        buf.len()
    };
    buf[..n].copy_from_slice(&left[..n]);
    n
}

/// Bytes, of which the first `at` were read.
#[derive(Drop)]
struct Cursor {
    bytes: Bytes,
    at: usize,
}

impl Model for Cursor {
    ghost use Rattle.std.specs.Prelude.{ℕ, ◌≤◌, List, drop, length};

    ghost Value = { List ℕ };

    ghost view = { λ c. drop c.at c.bytes };

    ghost invariant = { λ c. c.at ≤ length c.bytes };
}

impl Cursor {
    fn new(bytes: Bytes) -> Cursor
        ensures { result ≡ bytes }
    {
        Cursor { bytes, at: 0 }
    }

    fn read(&mut self, buf: &mut [u8]) -> usize
        ensures most { result ≡ min (length self.old) (length buf.new) }
        ensures front { take result buf.new ≡ take result self.old }
        ensures rest { self.new ≡ drop result self.old }
    {
        let (_, left) = self.bytes.as_slice().split_at(self.at);
        let n = copy_front(left, buf);
        self.at += n;
        n
    }
}

/// A source in memory that can be made to fail. A read gives as many bytes as the buffer takes.
#[derive(Drop)]
pub struct MemSource {
    left: Cursor,
    calls: CallCount,
}

impl Model for MemSource {
    ghost use Rattle.ic_edge.specs.Calls.{Reading};

    ghost Value = { Reading };

    ghost view = { λ s. record { left = s.left; calls = s.calls } };
}

impl MemSource {
    pub fn new(bytes: Bytes, fails: Fails) -> MemSource
        ensures left { result.left ≡ bytes }
        ensures calls { result.calls ≡ no_calls fails }
    {
        MemSource {
            left: Cursor::new(bytes),
            calls: CallCount::new(fails),
        }
    }
}

impl Source for MemSource {
    ghost left = { λ s. Some s.left };

    ghost count = { λ s. s.calls.failed };

    fn faults(&self) -> u64 {
        self.calls.failed()
    }

    fn read(&mut self, buf: &mut [u8]) -> Result<usize, Failed>
        ensures bound { ReadsAtMost result buf.new }
        ensures bytes { ReadConsumes (Some self.old.left) (Some self.new.left) result buf.new }
        ensures cause { HasCause self.old.calls.failed self.new.calls.failed result }
        ensures listed { IsErr result ↔ IsNextListed self.old.calls }
        ensures calls { self.new.calls ≡ after_call result self.old.calls }
        ensures most { IfOk result (λ n. n ≡ min (length self.old.left) (length buf.new)) }
    {
        self.calls.begin()?;
        Ok(self.left.read(buf))
    }
}

/// A source in memory that never fails. A read gives as many bytes as the buffer takes.
#[derive(Drop)]
pub struct SureSource {
    left: Cursor,
}

impl Model for SureSource {
    ghost use Rattle.std.specs.Prelude.{ℕ, List};

    ghost Value = { List ℕ };

    ghost view = { λ s. s.left };
}

impl SureSource {
    pub fn new(bytes: Bytes) -> SureSource
        ensures { result ≡ bytes }
    {
        SureSource {
            left: Cursor::new(bytes),
        }
    }
}

impl Source for SureSource {
    ghost left = { λ s. Some s };

    ghost count = { λ _. 0 };

    fn faults(&self) -> u64 {
        0
    }

    fn read(&mut self, buf: &mut [u8]) -> Result<usize, Failed>
        ensures bound { ReadsAtMost result buf.new }
        ensures bytes { ReadConsumes (Some self.old) (Some self.new) result buf.new }
        ensures cause { HasCause 0 0 result }
        ensures most { IfOk result (λ n. n ≡ min (length self.old) (length buf.new)) }
    {
        Ok(self.left.read(buf))
    }
}

/// Any reader of std. Its contract exposes the bytes if the reader's does.
#[derive(Drop)]
pub struct StdSource<R: Read> {
    inner: R,
    count: u64,
}

impl<R: Read> StdSource<R> {
    pub fn new(inner: R) -> StdSource<R>
        ensures left { ⟦<StdSource<R> as Source>⟧.left result ≡ R.remaining inner }
        ensures count { ⟦<StdSource<R> as Source>⟧.count result ≡ 0 }
    {
        StdSource { inner, count: 0 }
    }
}

impl<R: Read> Source for StdSource<R> {
    ghost left = { λ s. R.remaining s.inner };

    ghost count = { λ s. s.count };

    fn faults(&self) -> u64 {
        self.count
    }

    fn read(&mut self, buf: &mut [u8]) -> Result<usize, Failed> {
        match self.inner.read(buf) {
            Ok(count) => Ok(count),
            Err(_) => {
                self.count = self.count.saturating_add(1);
                Err(Failed)
            }
        }
    }
}
