// The network.
ghost use Rattle.std.specs.Prelude.{◌≡◌, ◌+◌, IfOk, OnOk, OnErr, negsuc, ◌≤ℤ◌, replicate, false};
ghost use Rattle.gd_net.specs.Network.{fresh, is_dropped, after_send, place_of, Receives};
ghost use Rattle.gd_net.specs.Inside.{node_at, GivesNone, AreStill, AreEmpty};

use crate::node::{Node, Numbered, are_still};
use ic_base::{Datagram, Drops, SegId};
use std::alloc::{AllocError, Global};
use std::collections::VecDeque;
use std::marker::Model;

/// What a receive gives a node.
#[derive(Drop)]
pub enum Received {
    /// The oldest datagram kept for this node. The node has it in hand until its next receive.
    Came(Datagram),
    /// Nothing is kept for this node. But something is kept for another node, or another node has a datagram in hand.
    Idle,
    /// Nothing is kept for any node, and no other node has a datagram in hand.
    Quiet,
}

/// The network between the dispatcher and some segments. Sends are numbered from 1.
///
/// A send takes one comparison for each number to be lost. A receive that gives a datagram takes a fixed number of
/// steps; one that gives none looks at each node once.
#[derive(Drop)]
pub struct Network {
    /// The dispatcher's queue first, then segment 0's and so on.
    nodes: Vec<Node>,
    drops: Drops,
    /// How many sends there were, the lost ones too.
    sent: u64,
}

impl Model for Network {
    ghost use Rattle.std.specs.Prelude.{map};
    ghost use Rattle.gd_net.specs.Network.{Net};

    ghost Value = { Net };

    ghost use Rattle.gd_net.specs.Inside.{kept_in, has_one, AreQueues};

    ghost view = { λ n. record { drops = n.drops; sent = n.sent; kept = kept_in n.nodes.items; in_hand = map has_one n.nodes.items } };

    ghost invariant = { λ n. AreQueues 0 n.sent n.nodes.items };
}

impl Network {
    /// A network of the dispatcher and this many segments, numbered from 0. The sends with the numbers in `drops`, in
    /// any order, are lost. Fails only if out of memory.
    pub fn new(alloc: Global, segments: u32, drops: Drops) -> Result<Network, AllocError>
        ensures { IfOk result (λ network. network ≡ fresh segments drops) }
    {
        let nodes = empty_nodes(alloc, segments as usize + 1)?;
        Ok(Network {
            nodes,
            drops,
            sent: 0,
        })
    }

    /// Keeps a datagram for the node to which it goes. It is lost if its number is to be lost, or if there is no such
    /// node; a lost send counts too. Fails only if out of memory, or after 18446744073709551615 sends; a failed send
    /// isn't counted, and the datagram is dropped.
    pub fn send(&mut self, datagram: Datagram) -> Result<(), AllocError>
        ensures ok { OnOk result (self.new ≡ after_send datagram self.old) }
        ensures err { OnErr result (self.new ≡ self.old) }
    {
        let Some(number) = self.sent.checked_add(1) else {
            return Err(AllocError);
        };
        let place = place_of(datagram.to);
        if place >= self.nodes.len() || is_dropped(&self.drops, number) {
            self.sent = number;
            return Ok(());
        }
        let node = &mut self.nodes[place];
        node.queue.push_back(Numbered { number, datagram })?;
        self.sent = number;
        Ok(())
    }

    /// Gives the oldest datagram kept for this node, and keeps it no longer. Takes no memory.
    pub fn receive(&mut self, at: SegId) -> Received
        ensures { Receives at self.old result self.new }
    {
        let place = place_of(at);
        if place >= self.nodes.len() {
            return none_for(&self.nodes, place);
        }
        let node = &mut self.nodes[place];
        match node.next() {
            Some(datagram) => Received::Came(datagram),
            None => none_for(&self.nodes, place),
        }
    }

    /// How many sends there were, the lost ones too.
    pub fn sent(&self) -> u64
        ensures { result ≡ self.now.sent }
    {
        self.sent
    }
}

/// This many nodes, for which nothing is kept.
fn empty_nodes(alloc: Global, count: usize) -> Result<Vec<Node>, AllocError>
    ensures { IfOk result (λ nodes. AreEmpty count nodes.items) }
{
    let mut nodes = Vec::with_capacity(alloc, count)?;
    for _ in 0..count {
        nodes.push(Node {
            queue: VecDeque::new(alloc),
            has_one: false,
        })?;
    }
    Ok(nodes)
}

/// The answer if nothing is kept for the node.
fn none_for(nodes: &[Node], place: usize) -> Received
    ensures { GivesNone result (AreStill place nodes.now) }
{
    if are_still(nodes, place) {
        Received::Quiet
    } else {
        Received::Idle
    }
}

/// The position of a node among the nodes: the dispatcher is 0.
fn place_of(id: SegId) -> usize
    ensures value { result ≡ place_of id }
    ensures node { id ≡ node_at result }
{
    (id.number() + 1) as usize
}

/// Whether the send of this number is to be lost.
fn is_dropped(drops: &Drops, number: u64) -> bool
    ensures { result ≡ is_dropped drops.now number }
{
    drops
        .as_slice()
        .iter()
        .any(|drop| u64::from(*drop) == number)
}
