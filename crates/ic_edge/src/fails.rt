// Which calls of an object are to fail, and the failure.
ghost use Rattle.std.specs.Prelude.{◌≡◌, IsTrue, ◌↔◌};
ghost use Rattle.ic_edge.specs.Calls.{IsListed};

use std::marker::Model;

/// A call to the outside failed: the outside's doing. The object has counted it.
#[derive(Clone, Copy, Debug, PartialEq, Eq)]
pub struct Failed;

/// The call with this number, from 1, is to fail. If a worker is named, it is the worker's call; otherwise the
/// object's.
#[derive(Clone, Copy, Debug, PartialEq, Eq)]
pub struct Fail {
    pub worker: Option<u32>,
    pub nth: u32,
}

/// The calls that are to fail, seen as a list, in any order.
#[derive(Drop, Debug)]
pub struct Fails {
    items: Vec<Fail>,
}

impl Model for Fails {
    ghost use Rattle.std.specs.Prelude.{List};
    ghost use Rattle.ic_edge.specs.declared.fails.Fail.{Fail};

    ghost Value = { List Fail };

    ghost view = { λ f. f.items.items };
}

impl Fails {
    pub fn from_vec(items: Vec<Fail>) -> Fails
        ensures { result ≡ items.items }
    {
        Fails { items }
    }

    /// Whether the object's call with this number, from 1, is to fail. Entries that name a worker don't matter here.
    pub fn has(&self, nth: u64) -> bool
        ensures { IsTrue result ↔ IsListed nth self.now }
    {
        self.items
            .iter()
            .any(|fail| fail.worker.is_none() && u64::from(fail.nth) == nth)
    }
}
