// The motions of a plan, found by number.
ghost use Rattle.std.specs.Prelude.{◌≡◌, ◌<◌, ◌+◌, ◌^◌, true, Some, slice_get};
ghost use Rattle.std.specs.Option.{option_map};
ghost use Rattle.pl_tree.specs.Trees.{tree_of, nodes_in, motions_in};
ghost use Rattle.pl_runs.specs.Slices.{is_motion, below_motion};
ghost use Rattle.ex_plan.specs.Spots.{spots};
ghost use Rattle.ex_plan.specs.Fitting.{spot_of};

use pl_tree::{Node, Stage};

/// The node of a motion.
#[derive(Clone, Copy)]
pub struct Found<'a> {
    pub node: &'a Node,
    /// In preorder, from 0.
    pub number: u32,
    /// The slice that hears the motion.
    pub above: u32,
}

/// How many nodes there are.
pub fn nodes(node: &Node) -> u32
    requires { nodes_in (tree_of node.now) < 2 ^ 32 }
    ensures { result ≡ nodes_in (tree_of node.now) }
{
    match node {
        Node::Scan { table: _ } => 1,
        Node::Filter { test: _, child } => nodes(child.get()) + 1,
        Node::Project { columns: _, child } => nodes(child.get()) + 1,
        Node::Limit { count: _, child } => nodes(child.get()) + 1,
        Node::Sort { keys: _, child } => nodes(child.get()) + 1,
        Node::Join {
            left,
            right,
            pairs: _,
        } => nodes(left.get()) + nodes(right.get()) + 1,
        Node::Agg {
            stage: Stage::Single { group: _, calls: _ },
            child,
        } => nodes(child.get()) + 1,
        Node::Agg {
            stage: Stage::Partial { group: _, calls: _ },
            child,
        } => nodes(child.get()) + 1,
        Node::Agg {
            stage: Stage::Final,
            child,
        } => nodes(child.get()) + 1,
        Node::Gather { order: _, child } => nodes(child.get()) + 1,
        Node::Redistribute { keys: _, child } => nodes(child.get()) + 1,
        Node::Broadcast { child } => nodes(child.get()) + 1,
    }
}

/// How many motions there are.
pub fn motions(node: &Node) -> u32
    requires { motions_in (tree_of node.now) < 2 ^ 32 }
    ensures { result ≡ motions_in (tree_of node.now) }
{
    match node {
        Node::Scan { table: _ } => 0,
        Node::Filter { test: _, child } => motions(child.get()),
        Node::Project { columns: _, child } => motions(child.get()),
        Node::Limit { count: _, child } => motions(child.get()),
        Node::Sort { keys: _, child } => motions(child.get()),
        Node::Join {
            left,
            right,
            pairs: _,
        } => motions(left.get()) + motions(right.get()),
        Node::Agg {
            stage: Stage::Single { group: _, calls: _ },
            child,
        } => motions(child.get()),
        Node::Agg {
            stage: Stage::Partial { group: _, calls: _ },
            child,
        } => motions(child.get()),
        Node::Agg {
            stage: Stage::Final,
            child,
        } => motions(child.get()),
        Node::Gather { order: _, child } => motions(child.get()) + 1,
        Node::Redistribute { keys: _, child } => motions(child.get()) + 1,
        Node::Broadcast { child } => motions(child.get()) + 1,
    }
}

/// The motion after this many others of a node and those below it, in preorder. The node stands in this slice and has this
/// number in preorder, and its first motion is motion `next`.
pub fn find(node: &Node, skip: u32, slice: u32, number: u32, next: u32) -> Option<Found<'_>>
    requires numbers { number + nodes_in (tree_of node.now) < 2 ^ 32 }
    requires motions { next + motions_in (tree_of node.now) < 2 ^ 32 }
    ensures { option_map spot_of result ≡ slice_get (spots slice number next (tree_of node.now)) skip }
{
    let here = Found {
        node,
        number,
        above: slice,
    };
    match node {
        Node::Scan { table: _ } => None,
        Node::Filter { test: _, child } => find(child.get(), skip, slice, number + 1, next),
        Node::Project { columns: _, child } => find(child.get(), skip, slice, number + 1, next),
        Node::Limit { count: _, child } => find(child.get(), skip, slice, number + 1, next),
        Node::Sort { keys: _, child } => find(child.get(), skip, slice, number + 1, next),
        Node::Join {
            left,
            right,
            pairs: _,
        } => {
            let passed = motions(left.get());
            if skip < passed {
                find(left.get(), skip, slice, number + 1, next)
            } else {
                let behind = number + 1 + nodes(left.get());
                find(right.get(), skip - passed, slice, behind, next + passed)
            }
        }
        Node::Agg {
            stage: Stage::Single { group: _, calls: _ },
            child,
        } => find(child.get(), skip, slice, number + 1, next),
        Node::Agg {
            stage: Stage::Partial { group: _, calls: _ },
            child,
        } => find(child.get(), skip, slice, number + 1, next),
        Node::Agg {
            stage: Stage::Final,
            child,
        } => find(child.get(), skip, slice, number + 1, next),
        Node::Gather { order: _, child } => {
            if skip == 0 {
                return Some(here);
            }
            find(child.get(), skip - 1, next, number + 1, next + 1)
        }
        Node::Redistribute { keys: _, child } => {
            if skip == 0 {
                return Some(here);
            }
            find(child.get(), skip - 1, next, number + 1, next + 1)
        }
        Node::Broadcast { child } => {
            if skip == 0 {
                return Some(here);
            }
            find(child.get(), skip - 1, next, number + 1, next + 1)
        }
    }
}

/// What stands below a motion.
pub fn below(motion: &Node) -> &Node
    requires { is_motion (tree_of motion.now) ≡ true }
    ensures { tree_of result.now ≡ below_motion (Some (tree_of motion.now)) }
{
    match motion {
        Node::Gather { order: _, child } => child.get(),
        Node::Redistribute { keys: _, child } => child.get(),
        Node::Broadcast { child } => child.get(),
        _ => unreachable!(),
    }
}
