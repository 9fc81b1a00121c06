// Numbers of packets.
use std::marker::Model;

/// Numbers of packets, seen as a list.
#[derive(Drop, Debug)]
pub struct Seqs {
    items: Vec<u32>,
}

impl Model for Seqs {
    ghost use Rattle.std.specs.Prelude.{ℕ, List};

    ghost Value = { List ℕ };

    ghost view = { λ s. s.items.items };
}

impl Seqs {
    ghost use Rattle.std.specs.Prelude.{◌≡◌, ◌↔◌, length, IsTrue};

    /// Takes no memory.
    pub fn from_vec(items: Vec<u32>) -> Seqs
        ensures { result ≡ items.items }
    {
        Seqs { items }
    }

    /// Takes no memory.
    pub fn into_vec(self) -> Vec<u32>
        ensures { result.items ≡ self }
    {
        self.items
    }

    pub fn as_slice(&self) -> &[u32]
        ensures { result.now ≡ self.now }
    {
        self.items.as_slice()
    }

    /// How many numbers there are.
    pub fn len(&self) -> usize
        ensures { result ≡ length self.now }
    {
        self.items.len()
    }

    pub fn is_empty(&self) -> bool
        ensures { IsTrue result ↔ (length self.now ≡ 0) }
    {
        self.items.is_empty()
    }
}
