// Which sends a network loses.
ghost use Rattle.std.specs.Prelude.{◌≡◌, ℕ, List, [], ◌∷◌, ◌++◌, OnOk, OnErr};

use std::alloc::{AllocError, Global};
use std::marker::Model;

/// The sends that are lost, by their numbers, counted from 1. Seen as a list.
#[derive(Drop, Debug)]
pub struct Drops {
    items: Vec<u32>,
}

impl Model for Drops {
    ghost use Rattle.std.specs.Prelude.{ℕ, List};

    ghost Value = { List ℕ };

    ghost view = { λ d. d.items.items };
}

impl Drops {
    /// No send is lost. Takes no memory.
    pub fn new(alloc: Global) -> Drops
        ensures { result ≡ [] }
    {
        Drops {
            items: Vec::new(alloc),
        }
    }

    pub fn from_vec(items: Vec<u32>) -> Drops
        ensures { result ≡ items.items }
    {
        Drops { items }
    }

    pub fn as_slice(&self) -> &[u32]
        ensures { result.now ≡ self.now }
    {
        self.items.as_slice()
    }

    /// Adds a number at the end. Fails only if out of memory.
    pub fn push(&mut self, number: u32) -> Result<(), AllocError>
        ensures ok { OnOk result (self.new ≡ self.old ++ number ∷ []) }
        ensures err { OnErr result (self.new ≡ self.old) }
    {
        self.items.push(number)?;
        Ok(())
    }
}
