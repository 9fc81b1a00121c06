// The tree of a slice.
ghost use Rattle.std.specs.Prelude.{◌≡◌, ◌<◌, ◌≤◌, ◌+◌, min, List, [], length, Contains, IsSome, IfOk};
ghost use Rattle.pl_tree.specs.declared.node.Pair.{Pair as OnePair};
ghost use Rattle.pl_tree.specs.Trees.{staged, tree_of, tree_in, nodes_in, motions_in};
ghost use Rattle.pl_tree.specs.Sizes.{HasSizes};
ghost use Rattle.pl_tree.specs.Partials.{partial_under};
ghost use Rattle.pl_plan.specs.Motions.{slices_in};
ghost use Rattle.pl_ops.specs.Streams.{silent};
ghost use Rattle.pl_mean.specs.Parts.{scanned};
ghost use Rattle.pl_runs.specs.Logs.{ends_of};
ghost use Rattle.ex_join.specs.Joins as joins;
ghost use Rattle.ex_tree.specs.Parts.{Part, Single, Rows, Over, Joins, AreApart};
ghost use Rattle.ex_tree.specs.Operators.{Gives};
ghost use Rattle.ex_tree.specs.Running.{state_of, AreHeard};
ghost use Rattle.ex_tree.specs.Plans.{part_of, final_at};
ghost use Rattle.ex_plan.specs.Workers.{site_of, place_of, worker_of, gang_in, part_for, Starts, Serves};
ghost use Rattle.ex_plan.specs.Fitting.{HavePartials, AreKnown};

use crate::finding::{below, find, motions, nodes};
use crate::giving::kinds_given;
use crate::listening::{hear, hear_in_order};
use crate::ops::{agg_op, filter_op, join_op, limit_op, project_op, sort_op};
use crate::scanning::rows_named;
use crate::worker::WorkerId;
use ex_agg::AggPart;
use ex_join::HashJoin;
use ex_tree::{Op, Tree};
use ic_base::Text;
use pl_ops::Loaded;
use pl_plan::SoundPlan;
use pl_tree::{Kinds, Node, Pair, Stage, partial_under};
use std::alloc::{AllocError, Global};

/// An operator that was given nothing, over its input.
fn over<'a>(alloc: Global, op: Op, child: Tree<'a>) -> Result<Tree<'a>, AllocError>
    ensures { IfOk result (λ t. (p : Single) (c : Part) → Gives p op silent [] → Starts c (state_of child.entry) → Starts (Over p c) (state_of t)) }
{
    Tree::one(alloc, op, child)
}

/// A join that was given nothing, over its inputs.
fn joined<'a>(
    alloc: Global,
    join: HashJoin,
    left: Tree<'a>,
    right: Tree<'a>,
) -> Result<Tree<'a>, AllocError>
    ensures { IfOk result (λ t. (on : List OnePair) (l r : Part) → AreApart l r → joins.Gives on join silent silent []
        → Starts l (state_of left.entry) → Starts r (state_of right.entry) → Starts (Joins on l r) (state_of t)) }
{
    Tree::two(alloc, join, left, right)
}

/// The final of the node that has this number, over this child.
fn final_op(alloc: Global, child: &Node, number: u32) -> Result<Op, AllocError>
    requires sizes { HasSizes (tree_of child.now) }
    requires partial { IsSome (partial_under (tree_of child.now)) }
    ensures { IfOk result (λ op. Gives (final_at number (partial_under (tree_of child.now))) op silent []) }
{
    match partial_under(child) {
        Some(groups) => agg_op(alloc, AggPart::Final, groups.group, groups.calls, number),
        None => unreachable!(),
    }
}

/// How many columns there are, 65535 at most.
fn width_of(kinds: &Kinds) -> u32
    ensures { result ≡ min (length kinds.now) 65535 }
{
    kinds.len().min(65535) as u32
}

/// The join of these pairs, over this right side.
fn join_over(
    alloc: Global,
    plan: &SoundPlan,
    pairs: &[Pair],
    right: &Node,
) -> Result<HashJoin, AllocError>
    ensures { IfOk result (λ join. joins.Gives pairs.now join silent silent []) }
{
    let kinds = kinds_given(alloc, right, plan.schemas().as_slice())?;
    join_op(alloc, pairs, width_of(&kinds))
}

/// The rows of this table.
fn scan<'a>(
    plan: &SoundPlan,
    rows: &'a Loaded,
    id: &WorkerId,
    table: &Text,
) -> Result<Tree<'a>, AllocError>
    ensures { IfOk result (λ t. Starts (Rows (scanned (site_of plan.now rows.now) table.now id.now.at)) (state_of t)) }
{
    let found = rows_named(rows, table, plan.schemas().as_slice(), id.at)?;
    Ok(Tree::rows(found))
}

/// An operator over a child, which has this number in preorder and what stands below it.
#[cycle(grow)]
fn grow_over<'a>(
    alloc: Global,
    plan: &SoundPlan,
    rows: &'a Loaded,
    id: &WorkerId,
    op: Result<Op, AllocError>,
    child: &Node,
    number: u32,
    motion: u32,
) -> Result<Tree<'a>, AllocError>
    requires sizes { HasSizes (tree_of child.now) }
    requires partials { HavePartials (tree_of child.now) }
    requires numbers { number + nodes_in (tree_of child.now) ≤ 64 }
    requires motions { motion + motions_in (tree_of child.now) ≤ 65 }
    requires known { AreKnown plan.now id.now.slice motion (tree_of child.now) }
    ensures { IfOk result (λ t. (p : Single) → IfOk op (λ o. Gives p o silent [])
        → Starts (Over p (part_of (site_of plan.now rows.now) (place_of id.now) number motion (tree_of child.now))) (state_of t)) }
{
    let op = op?;
    let below = grow(alloc, plan, rows, id, child, number, motion)?;
    over(alloc, op, below)
}

/// A join of these pairs. Its left side has this number in preorder, and its first motion is motion `motion`.
#[cycle(grow)]
fn grow_join<'a>(
    alloc: Global,
    plan: &SoundPlan,
    rows: &'a Loaded,
    id: &WorkerId,
    pairs: &[Pair],
    left: &Node,
    right: &Node,
    number: u32,
    motion: u32,
) -> Result<Tree<'a>, AllocError>
    requires left_sizes { HasSizes (tree_of left.now) }
    requires right_sizes { HasSizes (tree_of right.now) }
    requires left_partials { HavePartials (tree_of left.now) }
    requires right_partials { HavePartials (tree_of right.now) }
    requires numbers { number + nodes_in (tree_of left.now) + nodes_in (tree_of right.now) ≤ 64 }
    requires motions { motion + motions_in (tree_of left.now) + motions_in (tree_of right.now) ≤ 65 }
    requires left_known { AreKnown plan.now id.now.slice motion (tree_of left.now) }
    requires right_known { AreKnown plan.now id.now.slice (motion + motions_in (tree_of left.now)) (tree_of right.now) }
    ensures { IfOk result (λ t. Starts (Joins pairs.now (part_of (site_of plan.now rows.now) (place_of id.now) number motion (tree_of left.now))
        (part_of (site_of plan.now rows.now) (place_of id.now) (number + nodes_in (tree_of left.now)) (motion + motions_in (tree_of left.now))
        (tree_of right.now))) (state_of t)) }
{
    let join = join_over(alloc, plan, pairs, right)?;
    let behind = number + nodes(left);
    let next = motion + motions(left);
    let first = grow(alloc, plan, rows, id, left, number, motion)?;
    let second = grow(alloc, plan, rows, id, right, behind, next)?;
    joined(alloc, join, first, second)
}

/// An aggregate of this stage over a child. The aggregate has this number in preorder.
#[cycle(grow)]
fn grow_stage<'a>(
    alloc: Global,
    plan: &SoundPlan,
    rows: &'a Loaded,
    id: &WorkerId,
    stage: &Stage,
    child: &Node,
    number: u32,
    motion: u32,
) -> Result<Tree<'a>, AllocError>
    requires sizes { HasSizes (staged stage.now (tree_of child.now)) }
    requires partials { HavePartials (staged stage.now (tree_of child.now)) }
    requires numbers { number + 1 + nodes_in (tree_of child.now) ≤ 64 }
    requires motions { motion + motions_in (tree_of child.now) ≤ 65 }
    requires known { AreKnown plan.now id.now.slice motion (tree_of child.now) }
    ensures { IfOk result (λ t. Starts (part_of (site_of plan.now rows.now) (place_of id.now) number motion
        (staged stage.now (tree_of child.now))) (state_of t)) }
{
    match stage {
        Stage::Single { group, calls } => {
            let (group, calls) = (group.as_slice(), calls.as_slice());
            let op = agg_op(alloc, AggPart::Single, group, calls, number);
            grow_over(alloc, plan, rows, id, op, child, number + 1, motion)
        }
        Stage::Partial { group, calls } => {
            let (group, calls) = (group.as_slice(), calls.as_slice());
            let op = agg_op(alloc, AggPart::Partial, group, calls, number);
            grow_over(alloc, plan, rows, id, op, child, number + 1, motion)
        }
        Stage::Final => {
            let op = final_op(alloc, child, number);
            grow_over(alloc, plan, rows, id, op, child, number + 1, motion)
        }
    }
}

/// A node and what stands below it, down to the motions that it hears. It has this number in preorder, and its first motion is
/// motion `motion`.
#[cycle(grow)]
fn grow<'a>(
    alloc: Global,
    plan: &SoundPlan,
    rows: &'a Loaded,
    id: &WorkerId,
    node: &Node,
    number: u32,
    motion: u32,
) -> Result<Tree<'a>, AllocError>
    requires sizes { HasSizes (tree_of node.now) }
    requires partials { HavePartials (tree_of node.now) }
    requires numbers { number + nodes_in (tree_of node.now) ≤ 64 }
    requires motions { motion + motions_in (tree_of node.now) ≤ 65 }
    requires known { AreKnown plan.now id.now.slice motion (tree_of node.now) }
    ensures { IfOk result (λ t. Starts (part_of (site_of plan.now rows.now) (place_of id.now) number motion (tree_of node.now)) (state_of t)) }
{
    let next = number + 1;
    match node {
        Node::Scan { table } => scan(plan, rows, id, table),
        Node::Filter { test, child } => {
            let op = filter_op(alloc, test);
            grow_over(alloc, plan, rows, id, op, child.get(), next, motion)
        }
        Node::Project { columns, child } => {
            let op = project_op(alloc, columns.as_slice());
            grow_over(alloc, plan, rows, id, op, child.get(), next, motion)
        }
        Node::Limit { count, child } => {
            let op = Ok(limit_op(*count));
            grow_over(alloc, plan, rows, id, op, child.get(), next, motion)
        }
        Node::Sort { keys, child } => {
            let op = sort_op(alloc, keys.as_slice());
            grow_over(alloc, plan, rows, id, op, child.get(), next, motion)
        }
        Node::Join { left, right, pairs } => {
            let (left, right, pairs) = (left.get(), right.get(), pairs.as_slice());
            grow_join(alloc, plan, rows, id, pairs, left, right, next, motion)
        }
        Node::Agg { stage, child } => {
            grow_stage(alloc, plan, rows, id, stage, child.get(), number, motion)
        }
        Node::Gather { order, child } => {
            hear_in_order(alloc, plan, id, order, child.get(), motion)
        }
        Node::Redistribute { keys: _, child } => {
            hear(alloc, plan, id, None, child.get(), motion)
        }
        Node::Broadcast { child } => hear(alloc, plan, id, None, child.get(), motion),
    }
}

/// The tree of a slice below the motion that was found.
fn grow_below<'a>(
    alloc: Global,
    plan: &SoundPlan,
    rows: &'a Loaded,
    id: &WorkerId,
) -> Result<Tree<'a>, AllocError>
    requires least { 1 ≤ id.now.slice }
    requires slice { id.now.slice < slices_in (tree_in plan.now.plan) }
    ensures { IfOk result (λ t. Starts (part_for plan.now rows.now id.now) (state_of t)) }
{
    plan.is_judged();
    match find(&plan.plan().root, id.slice - 1, 0, 0, 1) {
        Some(found) => {
            let (top, number) = (below(found.node), found.number + 1);
            grow(alloc, plan, rows, id, top, number, id.slice + 1)
        }
        None => unreachable!(),
    }
}

/// The operators of the worker's slice at its segment, over the rows of its tables there and the motions that the slice hears,
/// before the first pull.
///
/// Walks down to the slice once, and over each part below a motion or a join's right side once more for its columns. Copies
/// what the plan says of each node; the rows are shared.
pub fn tree_of<'a>(
    alloc: Global,
    plan: &SoundPlan,
    rows: &'a Loaded,
    id: &WorkerId,
) -> Result<Tree<'a>, AllocError>
    requires { id.now.slice < slices_in (tree_in plan.now.plan) }
    // It gave nothing of the part that the plan has for the worker; its worker may have made calls for other motions.
    ensures starts { IfOk result (λ t. Starts (part_for plan.now rows.now id.now) (state_of t)) }
    // The part is that of the slice: it gives, wants and hears what the slice does.
    ensures serves { Serves (worker_of plan.now rows.now id.now.slice id.now.at) (part_for plan.now rows.now id.now) }
    // A worker of the slice hears each motion from just the senders that the tree knows.
    ensures heard { IfOk result (λ t. Contains (gang_in plan.now id.now.slice) id.now.at
        → AreHeard (ends_of (worker_of plan.now rows.now id.now.slice id.now.at) id.now.session id.now.query) (state_of t)) }
{
    plan.is_judged();
    if id.slice == 0 {
        return grow(alloc, plan, rows, id, &plan.plan().root, 0, 1);
    }
    grow_below(alloc, plan, rows, id)
}
