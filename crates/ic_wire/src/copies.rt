// The copies that are kept for a node.
ghost use Rattle.std.specs.Prelude.{◌≡◌, ◌+◌, ◌<◌, ◌≤◌, [], ◌∷◌, ◌++◌, not, filter, take, drop, length, IfSome, MatchOption};
ghost use Rattle.std.specs.VecDeque.{deque_len, deque_capacity};
ghost use Rattle.ic_wire.specs.Copies.{IsQueue, AreKept, comes_before, with_copy};

use ic_base::{Datagram, SegId};
use std::collections::VecDeque;

/// By what copies are kept in order: `time`, then `number`, then the first copy.
#[derive(Clone, Copy, Debug, PartialEq, Eq, PartialOrd, Ord)]
pub(crate) struct CopyKey {
    /// The number of the send with the copy's delay added.
    pub time: u128,
    /// The number of the send.
    pub number: u128,
    /// Whether it is the second copy.
    pub again: bool,
}

/// A copy of a datagram.
#[derive(Drop)]
pub(crate) struct Kept {
    pub key: CopyKey,
    pub datagram: Datagram,
}

/// What is left of a send.
#[derive(Drop)]
pub(crate) enum Copies {
    Lost,
    One(Kept),
    Two(Kept, Kept),
}

/// The place of a key among copies in order.
fn place_of(kept: &VecDeque<Kept>, key: &CopyKey) -> usize
    requires { IsQueue kept.now.items }
    ensures within { result ≤ deque_len kept.now }
    ensures before { filter (comes_before key.now) kept.now.items ≡ take result kept.now.items }
    ensures behind { filter (λ k. not (comes_before key.now k)) kept.now.items ≡ drop result kept.now.items }
{
    kept.partition_point(|copy| copy.key < *key)
}

/// Keeps a copy if there is room. Moves the copies on the shorter side of its place.
pub(crate) fn keep(kept: &mut VecDeque<Kept>, copy: Kept)
    requires kept { AreKept copy.datagram.to kept.old.items }
    requires room { deque_len kept.old < deque_capacity kept.old }
    ensures items { kept.new.items ≡ with_copy copy kept.old.items }
    ensures kept { AreKept copy.datagram.to kept.new.items }
    ensures len { deque_len kept.new ≡ deque_len kept.old + 1 }
    ensures capacity { deque_capacity kept.old ≤ deque_capacity kept.new }
{
    let place = place_of(kept, &copy.key);
    let _kept = kept.insert(place, copy);
}

/// Takes out the first copy.
pub(crate) fn take_first(kept: &mut VecDeque<Kept>, at: SegId) -> Option<Kept>
    requires { AreKept at kept.old.items }
    ensures items { MatchOption result ((kept.old.items ≡ []) × (kept.new.items ≡ [])) (λ copy. kept.old.items ≡ copy ∷ kept.new.items) }
    ensures kept { AreKept at kept.new.items }
    ensures to { IfSome result (λ copy. copy.datagram.to ≡ at) }
{
    kept.pop_front()
}
