// A small machine.
ghost use Rattle.std.specs.Prelude.{◌≡◌, ◌+◌, [], ◌∷◌};
ghost use Rattle.ic_turn.specs.Entries.{StandsWith};
ghost use Rattle.ic_turn.specs.Counting.{opening, within, reply_to, added_by, MayCount, IsCount, StandsAt};

use crate::machine::Machine;
use std::alloc::Global;
use std::marker::Model;

/// What a [`Counter`] replies.
#[derive(Clone, Copy, Debug, PartialEq, Eq)]
pub enum Counted {
    /// The ask was added, and this is the sum with it.
    Sum(u64),
    /// The asker's doing: the sum would pass the limit. Nothing was added.
    Over,
}

/// A machine for tests: it adds up what it is asked, up to a limit that never changes. It takes no memory.
#[derive(Drop, Debug)]
pub struct Counter {
    limit: u64,
    sum: u64,
}

impl Model for Counter {
    ghost use Rattle.ic_turn.specs.Counting.{Count};

    ghost Value = { Count };

    ghost view = { λ c. record { limit = c.limit; sum = c.sum } };
}

impl Counter {
    /// A counter that has added nothing.
    pub fn new(limit: u64) -> Counter
        ensures value { result ≡ opening limit }
        ensures stands { StandsAt result.limit result.sum [] }
    {
        Counter { limit, sum: 0 }
    }

    /// The sum of what it has added.
    pub fn sum(&self) -> u64
        ensures { result ≡ self.now.sum }
    {
        self.sum
    }
}

impl Machine for Counter {
    type Ask = u64;

    type Reply = Counted;

    type Kept = u64;

    type State = u64;

    ghost use Rattle.ic_turn.specs.Counting.{MayCount, IsCount, StandsAt};

    ghost kept = { λ c. c.limit };

    ghost state = { λ c. c.sum };

    ghost answers = { λ limit ask reply. MayCount limit ask reply };

    ghost lawful = { λ limit entries. IsCount limit entries };

    ghost stands = { λ limit sum entries. StandsAt limit sum entries };

    ghost stands_lawful = { λ limit sum entries h. h.lawful };

    fn act(&mut self, _alloc: Global, ask: u64) -> Counted
        ensures kept { self.new.limit ≡ self.old.limit }
        ensures answers { MayCount self.old.limit ask result }
        ensures stands { StandsWith (StandsAt self.old.limit self.old.sum) (StandsAt self.new.limit self.new.sum) (record { ask = ask; reply = result } ∷ []) }
        ensures reply { result ≡ reply_to self.old.limit self.old.sum ask }
        ensures sum { self.new.sum ≡ self.old.sum + added_by ask result }
    {
        let reply = reply_to(self.limit, self.sum, ask);
        match reply {
            Counted::Sum(sum) => self.sum = sum,
            Counted::Over => {}
        }
        reply
    }
}

/// The reply to an ask after this sum.
fn reply_to(limit: u64, sum: u64, ask: u64) -> Counted
    ensures { result ≡ reply_to limit sum ask }
{
    match sum.checked_add(ask) {
        Some(more) => within(limit, more),
        None => Counted::Over,
    }
}

/// The sum, if it is within the limit.
fn within(limit: u64, sum: u64) -> Counted
    ensures { result ≡ within limit sum }
{
    if sum <= limit {
        Counted::Sum(sum)
    } else {
        Counted::Over
    }
}
