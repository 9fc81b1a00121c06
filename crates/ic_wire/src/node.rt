// What is kept for one node.
ghost use Rattle.std.specs.Prelude.{◌≡◌, IfSome, OnOk, OnErr};
ghost use Rattle.ic_wire.specs.Copies.{AreTo, AreKept};
ghost use Rattle.ic_wire.specs.Wires.{idle_node, keeping, receiving, is_still};
ghost use Rattle.ic_wire.specs.Inside.{listed, first_of};

use crate::copies::{Copies, Kept, keep, take_first};
use ic_base::{Datagram, SegId};
use std::alloc::{AllocError, Global};
use std::collections::VecDeque;
use std::marker::Model;

/// The copies for one node, in order.
#[derive(Drop)]
pub(crate) struct Node {
    at: SegId,
    kept: VecDeque<Kept>,
    /// Whether its last receive gave a datagram.
    in_hand: bool,
}

impl Model for Node {
    ghost use Rattle.ic_wire.specs.Wires.{Node as Seen};
    ghost use Rattle.ic_wire.specs.Copies.{AreKept};

    ghost Value = { Seen };

    ghost view = { λ n. record { at = n.at; kept = n.kept.items; in_hand = n.in_hand } };

    ghost invariant = { λ n. AreKept n.at n.kept.items };
}

impl Node {
    /// A node for which nothing is kept. Takes no memory.
    pub(crate) fn idle(alloc: Global, at: SegId) -> Node
        ensures { result ≡ idle_node at }
    {
        Node {
            at,
            kept: VecDeque::new(alloc),
            in_hand: false,
        }
    }

    pub(crate) fn at(&self) -> SegId
        ensures { result ≡ self.now.at }
    {
        self.at
    }

    /// Keeps these copies. Fails only if out of memory, and then keeps none.
    pub(crate) fn keep(&mut self, copies: Copies) -> Result<(), AllocError>
        requires { AreTo self.old.at (listed copies) }
        ensures ok { OnOk result (self.new ≡ keeping (listed copies) self.old) }
        ensures err { OnErr result (self.new ≡ self.old) }
    {
        self.kept.reserve(2)?;
        match copies {
            Copies::Lost => {}
            Copies::One(copy) => keep(&mut self.kept, copy),
            Copies::Two(copy, again) => {
                keep(&mut self.kept, copy);
                keep(&mut self.kept, again);
            }
        }
        Ok(())
    }

    /// Gives the first copy, which the node then has in hand.
    pub(crate) fn receive(&mut self) -> Option<Datagram>
        ensures new { self.new ≡ receiving self.old }
        ensures first { result ≡ first_of self.old.kept }
        ensures to { IfSome result (λ d. d.to ≡ self.old.at) }
    {
        match take_first(&mut self.kept, self.at) {
            Some(first) => {
                self.in_hand = true;
                Some(first.datagram)
            }
            None => {
                self.in_hand = false;
                None
            }
        }
    }

    /// Whether nothing is kept, and nothing is in hand unless it is this node that asks.
    pub(crate) fn is_still(&self, asking: SegId) -> bool
        ensures { result ≡ is_still asking self.now }
    {
        self.kept.is_empty() && (self.at == asking || !self.in_hand)
    }
}
