// Datagrams, and what a receiver takes of them.
ghost use Rattle.std.specs.Prelude.{◌≡◌, ℕ, List, [], ◌∷◌, ◌++◌, IfOk, OnOk, OnErr};

use crate::bytes::Bytes;
use crate::keys::SegId;
use std::alloc::{AllocError, Global};
use std::marker::Model;

/// A datagram: the two segments between which it travels, and its bytes, which are a packet header and a body.
#[derive(Drop)]
pub struct Datagram {
    /// The segment that emits it.
    pub from: SegId,
    pub to: SegId,
    pub bytes: Bytes,
}

impl Datagram {
    /// Another owner of the same bytes. Takes no memory. Fails only if the count of owners is full.
    pub fn share(&self) -> Result<Datagram, AllocError>
        ensures { IfOk result (λ d. d ≡ self.now) }
    {
        Ok(Datagram {
            from: self.from,
            to: self.to,
            bytes: self.bytes.share()?,
        })
    }
}

/// Datagrams, seen as a list.
#[derive(Drop)]
pub struct Datagrams {
    items: Vec<Datagram>,
}

impl Model for Datagrams {
    ghost use Rattle.std.specs.Prelude.{List};
    ghost use Rattle.ic_base.specs.declared.datagram.Datagram.{Datagram};

    ghost Value = { List Datagram };

    ghost view = { λ d. d.items.items };
}

impl Datagrams {
    /// No datagrams. Takes no memory.
    pub fn new(alloc: Global) -> Datagrams
        ensures { result ≡ [] }
    {
        Datagrams {
            items: Vec::new(alloc),
        }
    }

    /// One datagram, in a vector with room for exactly one. Fails only if out of memory.
    pub fn one(alloc: Global, datagram: Datagram) -> Result<Datagrams, AllocError>
        ensures { IfOk result (λ d. d ≡ datagram ∷ []) }
    {
        let mut items = Vec::with_capacity(alloc, 1)?;
        items.push(datagram)?;
        Ok(Datagrams { items })
    }

    /// Takes no memory, and moves no datagram.
    pub fn from_vec(items: Vec<Datagram>) -> Datagrams
        ensures { result ≡ items.items }
    {
        Datagrams { items }
    }

    /// Takes no memory, and moves no datagram.
    pub fn into_vec(self) -> Vec<Datagram>
        ensures { result.items ≡ self }
    {
        self.items
    }

    pub fn as_slice(&self) -> &[Datagram]
        ensures { result.now ≡ self.now }
    {
        self.items.as_slice()
    }

    /// Adds a datagram at the end. Fails only if out of memory; then the datagram is dropped.
    pub fn push(&mut self, datagram: Datagram) -> Result<(), AllocError>
        ensures ok { OnOk result (self.new ≡ self.old ++ datagram ∷ []) }
        ensures err { OnErr result (self.new ≡ self.old) }
    {
        self.items.push(datagram)?;
        Ok(())
    }
}

/// What a receiver takes from one sender: the body of one packet.
#[derive(Drop)]
pub struct Parcel {
    pub from: SegId,
    /// The body's bytes: tuple chunks.
    pub payload: Bytes,
    /// Whether this packet is the last one of its stream.
    pub last: bool,
}
