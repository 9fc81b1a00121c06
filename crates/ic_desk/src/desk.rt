// The port of one slice's worker.
ghost use Rattle.std.specs.Prelude.{◌≡◌};
ghost use Rattle.pl_runs.specs.Logs.{log_of};
ghost use Rattle.ic_desk.specs.Own.{own_ends};
ghost use Rattle.ic_desk.specs.Sitting.{Sits};

use ic_base::{Parcel, Port, PortNo, SegId};
use ic_port::Node;
use std::alloc::Global;

/// A node, borrowed for the worker of one slice. It is a port of that worker: its connections are those of the node's
/// ends that are the slice's, and its log is what of the node's history goes by them.
#[derive(Drop)]
pub struct Desk<'n> {
    node: &'n mut Node,
    slice: u32,
}

impl<'n> Desk<'n> {
    /// The desk of a slice's worker at this node. Takes no memory.
    pub fn new(node: &'n mut Node, slice: u32) -> Desk<'n>
        ensures same_reference { result.node.ghost_name ≡ node.entry.ghost_name }
        ensures node { result.node.now ≡ node.old }
        ensures slice { result.slice ≡ slice }
    {
        Desk { node, slice }
    }
}

/// Each call is the node's, with its answers. It never answers `Busy`.
impl Port for Desk<'_> {
    ghost keys = { λ d. own_ends d.node.now.ends d.slice };

    ghost log = { λ d. log_of (own_ends d.node.now.ends d.slice) d.node.now.entries };

    ghost busy = { λ d. 0 };

    ghost steps = { λ a b. (a.node.ghost_name ≡ b.node.ghost_name) × (b.slice ≡ a.slice) × Sits (own_ends a.node.now.ends a.slice) a.node.now b.node.now };

    fn put(&mut self, alloc: Global, motion: u32, to: SegId, chunk: &[u8]) -> Result<(), PortNo> {
        let node = &mut *self.node;
        node.lawful();
        let answer = node.put(alloc, motion, to, chunk);
        node.lawful();
        answer
    }

    fn finish(&mut self, alloc: Global, motion: u32, to: SegId) -> Result<(), PortNo> {
        let node = &mut *self.node;
        node.lawful();
        let answer = node.finish(alloc, motion, to);
        node.lawful();
        answer
    }

    fn take(&mut self, alloc: Global, motion: u32) -> Result<Parcel, PortNo> {
        let node = &mut *self.node;
        node.lawful();
        let answer = node.take(alloc, motion);
        node.lawful();
        answer
    }

    fn take_from(&mut self, alloc: Global, motion: u32, sender: SegId) -> Result<Parcel, PortNo> {
        let node = &mut *self.node;
        node.lawful();
        let answer = node.take_from(alloc, motion, sender);
        node.lawful();
        answer
    }

    fn halt(&mut self, alloc: Global, motion: u32, sender: SegId) -> Result<(), PortNo> {
        let node = &mut *self.node;
        node.lawful();
        let answer = node.halt(alloc, motion, sender);
        node.lawful();
        answer
    }
}
