// The names of segments and connections.
ghost use Rattle.std.specs.Prelude.{◌≡◌, ℤ, List, pos, negsuc, ◌≤ℤ◌, ◌↔◌, IsSome, IfSome};

use std::marker::Model;

/// A segment, by its number from -1 to 63, and seen as that number. -1 is the dispatcher.
#[derive(Clone, Copy, Debug, PartialEq, Eq, PartialOrd, Ord, Hash)]
pub struct SegId {
    number: i8,
}

impl Model for SegId {
    ghost use Rattle.std.specs.Prelude.{ℤ, pos, negsuc, ◌≤ℤ◌};

    ghost Value = { ℤ };

    ghost view = { λ s. s.number };

    ghost invariant = { λ s. (negsuc 0 ≤ℤ s.number) × (s.number ≤ℤ pos 63) };

    ghost inverse = { λ n. record { number = n } };
}

impl SegId {
    /// The dispatcher.
    pub const DISPATCHER: SegId = SegId { number: -1 };

    /// The segment with this number, or `None` if the number is outside -1..=63.
    pub fn new(n: i32) -> Option<SegId>
        ensures valid { IsSome result ↔ ((negsuc 0 ≤ℤ n) × (n ≤ℤ pos 63)) }
        ensures value { IfSome result (λ s. s ≡ n) }
    {
        if n >= -1 && n <= 63 {
            Some(SegId { number: n as i8 })
        } else {
            None
        }
    }

    /// The number, -1..=63.
    pub fn number(&self) -> i32
        ensures value { result ≡ self.now }
        ensures least { negsuc 0 ≤ℤ result }
        ensures greatest { result ≤ℤ pos 63 }
    {
        i32::from(self.number)
    }
}

/// The name of a connection: one sender, one receiver and one motion of one query. TCP calls it a connection, QUIC a
/// stream, Greenplum a motion connection. `from` is the segment that sends the rows, whichever way a packet travels.
#[derive(Clone, Copy, Debug, PartialEq, Eq, PartialOrd, Ord, Hash)]
pub struct ConnKey {
    pub session: u32,
    pub query: u32,
    pub motion: u32,
    pub from: SegId,
    pub to: SegId,
}

/// One of a connection's two ends, with the numbers of the slices between which the rows go.
#[derive(Clone, Copy, Debug, PartialEq, Eq)]
pub struct ConnEnd {
    pub key: ConnKey,
    /// Whether this is the end that sends the rows.
    pub sending: bool,
    pub send_slice: u32,
    pub recv_slice: u32,
}

/// Connection ends, seen as a list.
#[derive(Drop, Debug)]
pub struct ConnEnds {
    items: Vec<ConnEnd>,
}

impl Model for ConnEnds {
    ghost use Rattle.std.specs.Prelude.{List};
    ghost use Rattle.ic_base.specs.declared.keys.ConnEnd.{ConnEnd};

    ghost Value = { List ConnEnd };

    ghost view = { λ e. e.items.items };
}

impl ConnEnds {
    /// Takes no memory.
    pub fn from_vec(items: Vec<ConnEnd>) -> ConnEnds
        ensures { result ≡ items.items }
    {
        ConnEnds { items }
    }

    pub fn as_slice(&self) -> &[ConnEnd]
        ensures { result.now ≡ self.now }
    {
        self.items.as_slice()
    }
}

/// Segments, seen as a list of their numbers.
#[derive(Drop, Debug)]
pub struct Segs {
    items: Vec<SegId>,
}

impl Model for Segs {
    ghost use Rattle.std.specs.Prelude.{List, ℤ};

    ghost Value = { List ℤ };

    ghost view = { λ s. s.items.items };
}

impl Segs {
    /// Takes no memory.
    pub fn from_vec(items: Vec<SegId>) -> Segs
        ensures { result ≡ items.items }
    {
        Segs { items }
    }

    pub fn as_slice(&self) -> &[SegId]
        ensures { result.now ≡ self.now }
    {
        self.items.as_slice()
    }
}

/// Why a query wasn't begun. The first two are the caller's doing.
#[derive(Clone, Copy, Debug, PartialEq, Eq)]
pub enum BeginNo {
    /// The query's number isn't above the greatest that has ended, which is this one.
    Old(u32),
    /// A query of this number is live already.
    Twice,
    Memory,
}
