// The steps of a world.
ghost use Rattle.std.specs.Prelude.{◌≡◌, ℤ, pos, negsuc};
ghost use Rattle.gd_world.specs.Doings.{at_of};

use ic_base::SegId;

/// One step of a world. One that doesn't apply does nothing.
#[derive(Clone, Copy, Debug, PartialEq, Eq)]
pub enum Step {
    /// The hub of this node begins the query. Applies if it has begun neither this query nor a later one.
    Begin(SegId),
    /// The worker of a slice at this segment takes a turn. Applies if its hub is in the query, or was and the worker is done.
    Turn { slice: u32, at: SegId },
    /// The datagram with this number, from 0 in the order in which the session emitted them, is handed to the node that it
    /// is addressed to. Applies if there is one. It may be delivered again, and in any order.
    Deliver { number: u64, to: SegId },
    /// The clock of this node goes on by one. Applies at every node.
    Tick(SegId),
    /// This node asks its hub to leave the query. Applies if it is in the query.
    Leave(SegId),
}

impl Step {
    /// The segment at which it is done.
    pub fn at(&self) -> SegId
        ensures { result ≡ at_of self.now }
    {
        match self {
            Step::Begin(at) => *at,
            Step::Turn { slice: _, at } => *at,
            Step::Deliver { number: _, to } => *to,
            Step::Tick(at) => *at,
            Step::Leave(at) => *at,
        }
    }
}
