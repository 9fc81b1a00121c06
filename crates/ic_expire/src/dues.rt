// Packets whose time is over.
ghost use Rattle.std.specs.Prelude.{◌≡◌};

use std::marker::Model;

/// A packet whose time is over: its number, in its connection. TCP's retransmission timeout, of one packet.
#[derive(Clone, Copy, Debug, PartialEq, Eq)]
pub struct Due {
    /// The connection's number in its queue.
    pub conn: u32,
    pub seq: u32,
}

/// Packets whose time is over, seen as a list.
#[derive(Drop, Debug)]
pub struct Dues {
    items: Vec<Due>,
}

impl Model for Dues {
    ghost use Rattle.std.specs.Prelude.{List};
    ghost use Rattle.ic_expire.specs.declared.dues.Due.{Due};

    ghost Value = { List Due };

    ghost view = { λ d. d.items.items };
}

impl Dues {
    /// Takes no memory.
    pub fn from_vec(items: Vec<Due>) -> Dues
        ensures { result ≡ items.items }
    {
        Dues { items }
    }

    /// Takes no memory.
    pub fn into_vec(self) -> Vec<Due>
        ensures { result.items ≡ self }
    {
        self.items
    }

    pub fn as_slice(&self) -> &[Due]
        ensures { result.now ≡ self.now }
    {
        self.items.as_slice()
    }
}
