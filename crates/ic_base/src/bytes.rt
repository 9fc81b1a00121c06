// Bytes that several owners share.
ghost use Rattle.std.specs.Prelude.{◌≡◌, ℕ, List, length, IfOk, IsTrue, ◌↔◌};

use std::alloc::{AllocError, Global};
use std::marker::Model;
use std::sync::Arc;

/// Bytes that never change, seen as a list. Another owner shares the buffer: no byte is copied, no memory is taken.
#[derive(Drop)]
pub struct Bytes {
    items: Arc<Vec<u8>>,
}

impl Model for Bytes {
    ghost use Rattle.std.specs.Prelude.{ℕ, List};
    ghost use Rattle.std.specs.Arc.{arc_value};

    ghost Value = { List ℕ };

    ghost view = { λ b. (arc_value b.items).items };
}

impl Bytes {
    /// Shares these bytes. Allocates a count of owners, and copies no byte. Fails only if out of memory.
    pub fn from_vec(alloc: Global, items: Vec<u8>) -> Result<Bytes, AllocError>
        ensures { IfOk result (λ b. b ≡ items.items) }
    {
        Ok(Bytes {
            items: Arc::new(alloc, items)?,
        })
    }

    /// Allocates a buffer and copies the bytes once. Fails only if out of memory.
    pub fn from_slice(alloc: Global, bytes: &[u8]) -> Result<Bytes, AllocError>
        ensures { IfOk result (λ b. b ≡ bytes.now) }
    {
        Bytes::from_vec(alloc, Vec::from_slice(alloc, bytes)?)
    }

    pub fn as_slice(&self) -> &[u8]
        ensures { result.now ≡ self.now }
    {
        self.items.as_slice()
    }

    pub fn len(&self) -> usize
        ensures { result ≡ length self.now }
    {
        self.as_slice().len()
    }

    pub fn is_empty(&self) -> bool
        ensures { IsTrue result ↔ (length self.now ≡ 0) }
    {
        self.as_slice().is_empty()
    }

    /// Another owner of the same buffer. Takes no memory. Fails only if the count of owners is full.
    pub fn share(&self) -> Result<Bytes, AllocError>
        ensures { IfOk result (λ b. b ≡ self.now) }
    {
        Ok(Bytes {
            items: self.items.clone()?,
        })
    }
}
