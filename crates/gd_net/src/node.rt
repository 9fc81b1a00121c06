// What is kept for one node.
ghost use Rattle.std.specs.Prelude.{◌≡◌, ◌↔◌, IsTrue};
ghost use Rattle.gd_net.specs.Inside.{GivesNext, AreStill};

use ic_base::Datagram;
use std::collections::VecDeque;

/// A datagram with the number of its send.
#[derive(Drop)]
pub(crate) struct Numbered {
    pub number: u64,
    pub datagram: Datagram,
}

/// The datagrams for one node, in the order of their numbers.
#[derive(Drop)]
pub(crate) struct Node {
    pub queue: VecDeque<Numbered>,
    /// Whether its last receive gave a datagram.
    pub has_one: bool,
}

impl Node {
    /// Gives the first of the queue. The node then has it in hand.
    pub(crate) fn next(&mut self) -> Option<Datagram>
        ensures { GivesNext self.old result self.new }
    {
        match self.queue.pop_front() {
            Some(first) => {
                self.has_one = true;
                Some(first.datagram)
            }
            None => {
                self.has_one = false;
                None
            }
        }
    }
}

/// Whether nothing is queued, and no node except the one at this position has a datagram in hand.
pub(crate) fn are_still(nodes: &[Node], place: usize) -> bool
    ensures { IsTrue result ↔ AreStill place nodes.now }
{
    for (k, node) in nodes.iter().enumerate() {
        if !node.queue.is_empty() || (k != place && node.has_one) {
            return false;
        }
    }
    true
}
