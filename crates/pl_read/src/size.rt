// How many nodes a plan has.
ghost use Rattle.std.specs.Prelude.{◌≡◌};
ghost use Rattle.pl_tree.specs.Trees.{tree_of, nodes_in};
ghost use Rattle.pl_read.specs.Rooms.{left_of};

use pl_tree::Node;

/// What is left of this room for nodes after a plan, or `None` if it has more than fit. Looks at no more nodes than
/// there is room for, and one.
pub(crate) fn room_after_node(node: &Node, room: u32) -> Option<u32>
    ensures { result ≡ left_of room (nodes_in (tree_of node.now)) }
{
    let left = room.checked_sub(1)?;
    match node {
        Node::Scan { table: _ } => Some(left),
        Node::Join {
            left: first,
            right,
            pairs: _,
        } => {
            let left = room_after_node(first.get(), left)?;
            room_after_node(right.get(), left)
        },
        Node::Filter { test: _, child } => room_after_node(child.get(), left),
        Node::Project { columns: _, child } => room_after_node(child.get(), left),
        Node::Limit { count: _, child } => room_after_node(child.get(), left),
        Node::Sort { keys: _, child } => room_after_node(child.get(), left),
        Node::Agg { stage: _, child } => room_after_node(child.get(), left),
        Node::Gather { order: _, child } => room_after_node(child.get(), left),
        Node::Redistribute { keys: _, child } => room_after_node(child.get(), left),
        Node::Broadcast { child } => room_after_node(child.get(), left),
    }
}
