// The answer to a receive.
use ic_base::Datagram;

/// What a receive gives a node.
#[derive(Drop)]
pub enum Received {
    /// The copy with the least key of those kept for this node. The node has it in hand until its next receive.
    Came(Datagram),
    /// Nothing is kept for this node. But something is kept for another node, or another node has a datagram in hand.
    Idle,
    /// Nothing is kept for any node, and no other node has a datagram in hand.
    Quiet,
}
