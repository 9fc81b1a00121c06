// One walk over a plan, which judges each node once.
ghost use Rattle.std.specs.Prelude.{◌≡◌, ◌+◌, ◌≤◌};
ghost use Rattle.pl_tree.specs.Trees.{Join, tree_of, nodes_in};
ghost use Rattle.pl_tree.specs.Sizes.{HasSizes, AreTables};
ghost use Rattle.pl_tree.specs.Orders.{keys_in};
ghost use Rattle.pl_plan.specs.Walking.{Gives, walked};
ghost use Rattle.pl_plan.specs.Tests.{group_width};

use crate::above::Above;
use crate::facts::{Facts, filter, join, limit, project, scan, sort};
use crate::grouping::{finish, partial, single};
use crate::moving::{broadcast, gather, redistribute};
use crate::rule::PlanNo;
use ic_row::Key;
use pl_tree::{Keys, Node, Pair, Schema, Stage, partial_under, schema_named};
use std::alloc::Global;

/// How many columns the group has that a final over this child makes whole.
fn group_width_of(child: &Node) -> Option<usize>
    ensures { result ≡ group_width (tree_of child.now) }
{
    match partial_under(child) {
        Some(groups) => Some(groups.group.len()),
        None => None,
    }
}

fn keys_of(order: &Option<Keys>) -> &[Key]
    ensures { result.now ≡ keys_in order.now }
{
    match order {
        Some(keys) => keys.as_slice(),
        None => &[],
    }
}

/// What a join of these gives, which has this number.
#[cycle(walk)]
fn walk_join(
    alloc: Global,
    left: &Node,
    right: &Node,
    pairs: &[Pair],
    schemas: &[Schema],
    up: Above,
    number: u32,
) -> Result<Facts, PlanNo>
    requires tables { AreTables schemas.now }
    requires left_sizes { HasSizes (tree_of left.now) }
    requires right_sizes { HasSizes (tree_of right.now) }
    requires nodes { number + 1 + nodes_in (tree_of left.now) + nodes_in (tree_of right.now) ≤ 64 }
    ensures { Gives result (walked schemas.now up number (Join pairs.now (tree_of left.now) (tree_of right.now))) }
{
    let left = walk(alloc, left, schemas, Above::other(), number + 1)?;
    let right = walk(alloc, right, schemas, Above::other(), left.next)?;
    join(alloc, pairs, left, right, up, number)
}

/// What the node of this number gives, or the first fault in postorder.
#[cycle(walk)]
pub fn walk(
    alloc: Global,
    node: &Node,
    schemas: &[Schema],
    up: Above,
    number: u32,
) -> Result<Facts, PlanNo>
    requires tables { AreTables schemas.now }
    requires sizes { HasSizes (tree_of node.now) }
    requires nodes { number + nodes_in (tree_of node.now) ≤ 64 }
    ensures { Gives result (walked schemas.now up number (tree_of node.now)) }
{
    match node {
        Node::Scan { table } => scan(alloc, schema_named(table, schemas), up, number),
        Node::Filter { test, child } => {
            let child = walk(alloc, child.get(), schemas, Above::other(), number + 1)?;
            filter(alloc, test, child, up, number)
        }
        Node::Project { columns, child } => {
            let child = walk(alloc, child.get(), schemas, up.under_project(), number + 1)?;
            project(alloc, columns.as_slice(), child, up, number)
        }
        Node::Limit { count, child } => {
            let below = up.under_limit(*count);
            let child = walk(alloc, child.get(), schemas, below, number + 1)?;
            limit(alloc, *count, child, up, number)
        }
        Node::Sort { keys, child } => {
            let child = walk(alloc, child.get(), schemas, Above::other(), number + 1)?;
            sort(alloc, keys.as_slice(), child, up, number)
        }
        Node::Join { left, right, pairs } => {
            let pairs = pairs.as_slice();
            walk_join(alloc, left.get(), right.get(), pairs, schemas, up, number)
        }
        Node::Agg {
            stage: Stage::Single { group, calls },
            child,
        } => {
            let child = walk(alloc, child.get(), schemas, Above::other(), number + 1)?;
            single(alloc, group.as_slice(), calls.as_slice(), child, up, number)
        }
        Node::Agg {
            stage: Stage::Partial { group, calls },
            child,
        } => {
            let child = walk(alloc, child.get(), schemas, Above::other(), number + 1)?;
            partial(alloc, group.as_slice(), calls.as_slice(), child, up, number)
        }
        Node::Agg {
            stage: Stage::Final,
            child,
        } => {
            let below = Above::under_final();
            let facts = walk(alloc, child.get(), schemas, below, number + 1)?;
            finish(alloc, group_width_of(child.get()), facts, up, number)
        }
        Node::Gather { order, child } => {
            let child = walk(alloc, child.get(), schemas, up.under_gather(), number + 1)?;
            gather(alloc, keys_of(order), child, up, number)
        }
        Node::Redistribute { keys, child } => {
            let child = walk(alloc, child.get(), schemas, up.under_motion(), number + 1)?;
            redistribute(alloc, keys.as_slice(), child, up, number)
        }
        Node::Broadcast { child } => {
            let child = walk(alloc, child.get(), schemas, up.under_motion(), number + 1)?;
            broadcast(alloc, child, up, number)
        }
    }
}
