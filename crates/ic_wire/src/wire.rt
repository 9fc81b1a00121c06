// The network.
ghost use Rattle.std.specs.Prelude.{◌≡◌, ◌≤◌, [], map, IfSome, IfOk, OnOk, OnErr};
ghost use Rattle.ic_wire.specs.Fates.{last_number, key_for, copies_of};
ghost use Rattle.ic_wire.specs.Wires.{fresh, idle_node, next_number, after_draws, after_send, after_receive, received, changed, keeping, receiving, queue_of, is_quiet, answer_of};
ghost use Rattle.ic_wire.specs.Inside.{listed, place_in, IsFor};
ghost use Rattle.ic_wire.specs.Copies.{AreTo};

use crate::copies::{Copies, CopyKey, Kept};
use crate::fate::{Draws, Fate, draw};
use crate::node::Node;
use crate::received::Received;
use ic_base::{Datagram, SegId};
use rand_core::SeedableRng;
use rand_xoshiro::SplitMix64;
use std::alloc::{AllocError, Global};
use std::marker::Model;

/// The number after which every send is lost: 2 to the power of 127, which no run reaches.
const LAST: u128 = 170_141_183_460_469_231_731_687_303_715_884_105_728;

/// The network between some segments. Sends are numbered from 1.
///
/// A send compares its number with each one that is to be lost, and looks at the nodes up to its own. A copy moves those
/// that come after it, or else those before it, whichever are fewer: without delays there are none. A receive looks at
/// the nodes up to its own, and at all of them if it gives nothing.
#[derive(Drop)]
pub struct Wire {
    fate: Fate,
    words: SplitMix64,
    /// How many sends there were, the lost ones too.
    sent: u128,
    nodes: Vec<Node>,
}

impl Model for Wire {
    ghost use Rattle.std.specs.Prelude.{◌≤◌};
    ghost use Rattle.ic_wire.specs.Wires.{Wire as Seen};
    ghost use Rattle.ic_wire.specs.Fates.{last_number};

    ghost Value = { Seen };

    ghost view = { λ w. record { fate = w.fate; words = w.words; sent = w.sent; nodes = w.nodes.items } };

    ghost invariant = { λ w. w.sent ≤ last_number };
}

/// The number of the next send, unless the last one was given.
#[tactic(auto, unfolding(crate::specs::Fates::last_number))]
fn next_number(sent: u128) -> Option<u128>
    ensures value { result ≡ next_number sent }
    ensures bound { IfSome result (λ number. number ≤ last_number) }
{
    if sent >= LAST {
        return None;
    }
    Some(sent + 1)
}

fn idle_nodes(alloc: Global, nodes: &[SegId]) -> Result<Vec<Node>, AllocError>
    ensures { IfOk result (λ v. v.items ≡ map idle_node nodes.now) }
{
    let mut idle = Vec::with_capacity(alloc, nodes.len())?;
    for at in nodes {
        idle.push(Node::idle(alloc, *at))?;
    }
    Ok(idle)
}

/// The key of a copy that this word delays.
#[tactic(auto, unfolding(crate::specs::Fates::last_number))]
fn key_of(fate: &Fate, number: u128, word: u64, again: bool) -> CopyKey
    requires { number ≤ last_number }
    ensures { result ≡ key_for fate.now number again word }
{
    let delay = word % (u64::from(fate.delay) + 1);
    CopyKey {
        time: number + u128::from(delay),
        number,
        again,
    }
}

/// The copies of a send that isn't lost from the beginning. They share the datagram's bytes.
fn copies_of(
    fate: &Fate,
    number: u128,
    datagram: Datagram,
    draws: &Draws,
) -> Result<Copies, AllocError>
    requires { number ≤ last_number }
    ensures value { IfOk result (λ copies. listed copies ≡ copies_of fate.now number datagram draws.now) }
    ensures to { IfOk result (λ copies. AreTo datagram.to (listed copies)) }
{
    if draws.loss % 1000 < u64::from(fate.loss) {
        return Ok(Copies::Lost);
    }
    let key = key_of(fate, number, draws.delay, false);
    if draws.repeat % 1000 >= u64::from(fate.repeat) {
        return Ok(Copies::One(Kept { key, datagram }));
    }
    let shared = datagram.share()?;
    let key_again = key_of(fate, number, draws.delay_again, true);
    Ok(Copies::Two(
        Kept { key, datagram },
        Kept {
            key: key_again,
            datagram: shared,
        },
    ))
}

/// The place of the first node that has this segment.
fn place_of(nodes: &[Node], at: SegId) -> Option<usize>
    ensures { result ≡ place_in at nodes.now }
{
    nodes.iter().position(|node| node.at() == at)
}

/// Keeps copies for a node, if there is one of this segment.
fn keep_for(nodes: &mut Vec<Node>, to: SegId, copies: Copies) -> Result<(), AllocError>
    requires { AreTo to (listed copies) }
    ensures ok { OnOk result (nodes.new.items ≡ changed to (keeping (listed copies)) nodes.old.items) }
    ensures err { OnErr result (nodes.new.items ≡ nodes.old.items) }
{
    let Some(place) = place_of(nodes.as_slice(), to) else {
        return Ok(());
    };
    let node = &mut nodes[place];
    node.keep(copies)
}

fn is_quiet(nodes: &[Node], at: SegId) -> bool
    ensures { result ≡ is_quiet at nodes.now }
{
    nodes.iter().all(|node| node.is_still(at))
}

/// The answer if nothing is kept for the node.
fn nothing(nodes: &[Node], at: SegId) -> Received
    ensures { result ≡ answer_of at nodes.now [] }
{
    if is_quiet(nodes, at) {
        Received::Quiet
    } else {
        Received::Idle
    }
}

/// Gives the first copy that is kept for a node, if there is one of this segment.
fn receive_for(nodes: &mut Vec<Node>, at: SegId) -> Received
    ensures new { nodes.new.items ≡ changed at receiving nodes.old.items }
    ensures answer { result ≡ answer_of at nodes.old.items (queue_of at nodes.old.items) }
    ensures to { IsFor at result }
{
    let Some(place) = place_of(nodes.as_slice(), at) else {
        return nothing(nodes.as_slice(), at);
    };
    let node = &mut nodes[place];
    match node.receive() {
        Some(datagram) => Received::Came(datagram),
        None => nothing(nodes.as_slice(), at),
    }
}

impl Wire {
    /// A network between these segments, each once. Fails only if out of memory.
    pub fn new(alloc: Global, fate: Fate, nodes: &[SegId]) -> Result<Wire, AllocError>
        ensures { IfOk result (λ w. w ≡ fresh fate nodes.now) }
    {
        let nodes = idle_nodes(alloc, nodes)?;
        let words = SplitMix64::seed_from_u64(fate.seed);
        Ok(Wire {
            fate,
            words,
            sent: 0,
            nodes,
        })
    }

    /// Keeps the copies that the fate leaves of a datagram, for the node to which it goes; none if there is no such node.
    /// Fails only if out of memory; then the send has no number, draws nothing, and the datagram is dropped. A second
    /// copy shares the bytes of the first.
    pub fn send(&mut self, datagram: Datagram) -> Result<(), AllocError>
        ensures ok { OnOk result (self.new ≡ after_send datagram self.old) }
        ensures err { OnErr result (self.new ≡ self.old) }
    {
        let Some(number) = next_number(self.sent) else {
            return Ok(());
        };
        if self.fate.loses(number, &datagram) {
            self.sent = number;
            return Ok(());
        }
        self.carry(number, datagram)
    }

    /// Draws what becomes of the send of this number, and keeps its copies.
    fn carry(&mut self, number: u128, datagram: Datagram) -> Result<(), AllocError>
        requires { number ≤ last_number }
        ensures ok { OnOk result (self.new ≡ after_draws number datagram self.old) }
        ensures err { OnErr result (self.new ≡ self.old) }
    {
        let mut words = self.words.clone()?;
        let draws = draw(&mut words);
        let to = datagram.to;
        let copies = copies_of(&self.fate, number, datagram, &draws)?;
        keep_for(&mut self.nodes, to, copies)?;
        self.words = words;
        self.sent = number;
        Ok(())
    }

    /// Gives the copy with the least key of those kept for this node, and keeps it no longer. Takes no memory.
    pub fn receive(&mut self, at: SegId) -> Received
        ensures new { self.new ≡ after_receive at self.old }
        ensures answer { result ≡ received at self.old }
        ensures to { IsFor at result }
    {
        receive_for(&mut self.nodes, at)
    }

    /// How many sends there were, the lost ones too.
    pub fn sent(&self) -> u128
        ensures { result ≡ self.now.sent }
    {
        self.sent
    }
}
