// What is due at a tick.
ghost use Rattle.std.specs.Prelude.{◌≡◌};

use ic_base::Datagrams;
use std::marker::Model;

/// Numbers of packets, seen as a list.
#[derive(Drop, Debug)]
pub struct Numbers {
    items: Vec<u32>,
}

impl Model for Numbers {
    ghost use Rattle.std.specs.Prelude.{List, ℕ};

    ghost Value = { List ℕ };

    ghost view = { λ n. n.items.items };
}

impl Numbers {
    /// Takes no memory.
    pub fn from_vec(items: Vec<u32>) -> Numbers
        ensures { result ≡ items.items }
    {
        Numbers { items }
    }

    pub fn as_slice(&self) -> &[u32]
        ensures { result.now ≡ self.now }
    {
        self.items.as_slice()
    }
}

/// What is due at a tick: the numbers of the packets, by increasing number, and their datagrams.
#[derive(Drop)]
pub struct Due {
    pub numbers: Numbers,
    pub datagrams: Datagrams,
}
