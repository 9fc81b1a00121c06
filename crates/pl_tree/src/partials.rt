// The partial whose groups a final makes whole.
ghost use Rattle.std.specs.Prelude.{◌≡◌};
ghost use Rattle.std.specs.Option.{option_map};
ghost use Rattle.pl_tree.specs.Trees.{tree_of};
ghost use Rattle.pl_tree.specs.Partials as spec;

use crate::node::{Call, Node, Stage};

/// What a final takes from its partial.
#[derive(Clone, Copy)]
pub struct Groups<'a> {
    pub group: &'a [u32],
    pub calls: &'a [Call],
}

/// The group and the calls of a partial, and `None` of any other node.
pub fn partial_at(node: &Node) -> Option<Groups<'_>>
    ensures { option_map spec.seen result ≡ spec.partial_at (tree_of node.now) }
{
    match node {
        Node::Agg {
            stage: Stage::Partial { group, calls },
            child: _,
        } => Some(Groups {
            group: group.as_slice(),
            calls: calls.as_slice(),
        }),
        _ => None,
    }
}

/// The group and the calls that a final over this child makes whole: the child is a partial, or a motion over one.
pub fn partial_under(child: &Node) -> Option<Groups<'_>>
    ensures { option_map spec.seen result ≡ spec.partial_under (tree_of child.now) }
{
    match child {
        Node::Gather { order: _, child } => partial_at(child.get()),
        Node::Redistribute { keys: _, child } => partial_at(child.get()),
        Node::Broadcast { child } => partial_at(child.get()),
        node => partial_at(node),
    }
}
