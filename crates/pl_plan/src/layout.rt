// Slices, gangs and motions of a plan.
ghost use Rattle.std.specs.Prelude.{◌≡◌, pos, [], ◌∷◌, ◌++◌, slice_get, ◌+◌, ◌<◌, ◌≤◌, ◌^◌, length, IfOk, OnOk};
ghost use Rattle.pl_tree.specs.Trees.{tree_of, motions_in};
ghost use Rattle.pl_plan.specs.Motions.{segments_from};
ghost use Rattle.pl_plan.specs.Layout as spec;

use ic_base::SegId;
use pl_tree::{Locus, Node, Stage};
use sqlite_items::{Items, at};
use std::alloc::{AllocError, Global};

/// The segments that work on a slice.
#[derive(Clone, Copy, Debug, PartialEq, Eq)]
pub enum Gang {
    /// The dispatcher, on slice 0 alone.
    Dispatcher,
    /// Segment 0, whose rows stand at every other segment too.
    First,
    /// Every segment.
    All,
}

/// A motion of a plan.
#[derive(Clone, Copy, Debug, PartialEq, Eq)]
pub struct MotionRow {
    /// From 1 in preorder; the slice that sends has it too.
    pub number: u32,
    /// The slice that receives.
    pub above: u32,
    pub senders: Gang,
    pub receivers: Gang,
}

/// What was noted down of a plan's nodes, in preorder.
#[derive(Drop)]
pub struct Layout {
    /// The slice of each node.
    pub slices: Items<u32>,
    pub motions: Items<MotionRow>,
}

impl Gang {
    /// How many segments it has.
    #[tactic(auto, using(crate::proofs::SumLemmas::segments_long))]
    pub fn size(self, segments: u32) -> u32
        ensures { result ≡ length (spec.members segments self) }
    {
        match self {
            Gang::Dispatcher | Gang::First => 1,
            Gang::All => segments,
        }
    }

    /// Its segments, in their order.
    pub fn members(self, alloc: Global, segments: u32) -> Result<Vec<SegId>, AllocError>
        requires { segments ≤ 64 }
        ensures { IfOk result (λ x. x.items ≡ spec.members segments self) }
    {
        match self {
            Gang::Dispatcher => {
                let mut alone = Vec::new(alloc);
                alone.push(SegId::DISPATCHER)?;
                Ok(alone)
            }
            Gang::First => first_segments(alloc, 1),
            Gang::All => first_segments(alloc, segments),
        }
    }
}

fn push_segment(number: u32, segments: &mut Vec<SegId>) -> Result<(), AllocError>
    requires { number < 64 }
    ensures { OnOk result (segments.new.items ≡ segments.old.items ++ pos number ∷ []) }
{
    match SegId::new(number as i32) {
        Some(segment) => {
            segments.push(segment)?;
            Ok(())
        }
        None => Ok(()),
    }
}

#[tactic(auto, using(crate::proofs::SumLemmas::segments_snoc))]
fn first_segments(alloc: Global, count: u32) -> Result<Vec<SegId>, AllocError>
    requires { count ≤ 64 }
    ensures { IfOk result (λ x. x.items ≡ segments_from 0 count) }
{
    let mut segments = Vec::new(alloc);
    for i in 0..count {
        push_segment(i, &mut segments)?;
    }
    Ok(segments)
}

/// The gang of a slice whose top has this locus.
fn gang_over(locus: &Locus) -> Gang
    ensures { result ≡ spec.gang_over locus.now }
{
    match locus {
        Locus::Replicated => Gang::First,
        Locus::Entry | Locus::Hashed(_) | Locus::Strewn => Gang::All,
    }
}

fn gang_at(loci: &[Locus], number: usize) -> Gang
    ensures { result ≡ spec.gang_for (slice_get loci.now number) }
{
    match at(loci, number) {
        Some(locus) => gang_over(locus),
        None => Gang::All,
    }
}

fn with_node(layout: Layout, slice: u32) -> Result<Layout, AllocError>
    ensures { IfOk result (λ x. x ≡ spec.with_node slice layout) }
{
    let Layout {
        mut slices,
        motions,
    } = layout;
    slices.push(slice)?;
    Ok(Layout { slices, motions })
}

fn with_motion(
    layout: Layout,
    slice: u32,
    receivers: Gang,
    senders: Gang,
) -> Result<Layout, AllocError>
    requires { length layout.motions + 1 < 2 ^ 32 }
    ensures { IfOk result (λ x. x ≡ spec.with_motion slice receivers senders layout) }
{
    let Layout {
        slices,
        mut motions,
    } = layout;
    let number = motions.len() as u32 + 1;
    motions.push(MotionRow {
        number,
        above: slice,
        senders,
        receivers,
    })?;
    Ok(Layout { slices, motions })
}

/// Notes down both sides of a join.
#[cycle(lay)]
fn lay_both(
    left: &Node,
    right: &Node,
    loci: &[Locus],
    slice: u32,
    gang: Gang,
    layout: Layout,
) -> Result<Layout, AllocError>
    requires { length layout.motions + motions_in (tree_of left.now) + motions_in (tree_of right.now) < 2 ^ 32 }
    ensures { IfOk result (λ x. x ≡ spec.laid loci.now slice gang (tree_of right.now) (spec.laid loci.now slice gang (tree_of left.now) layout)) }
{
    let layout = lay(left, loci, slice, gang, layout)?;
    lay(right, loci, slice, gang, layout)
}

/// Notes down a node and those below it, after what was noted down. It stands in this slice, on which this gang works;
/// the loci are those of all nodes in preorder.
#[cycle(lay)]
pub fn lay(
    node: &Node,
    loci: &[Locus],
    slice: u32,
    gang: Gang,
    layout: Layout,
) -> Result<Layout, AllocError>
    requires { length layout.motions + motions_in (tree_of node.now) < 2 ^ 32 }
    ensures { IfOk result (λ x. x ≡ spec.laid loci.now slice gang (tree_of node.now) layout) }
{
    let layout = with_node(layout, slice)?;
    match node {
        Node::Scan { table: _ } => Ok(layout),
        Node::Filter { test: _, child } => lay(child.get(), loci, slice, gang, layout),
        Node::Project { columns: _, child } => lay(child.get(), loci, slice, gang, layout),
        Node::Limit { count: _, child } => lay(child.get(), loci, slice, gang, layout),
        Node::Sort { keys: _, child } => lay(child.get(), loci, slice, gang, layout),
        Node::Join {
            left,
            right,
            pairs: _,
        } => { lay_both(left.get(), right.get(), loci, slice, gang, layout) }
        Node::Agg {
            stage: Stage::Single { group: _, calls: _ },
            child,
        } => lay(child.get(), loci, slice, gang, layout),
        Node::Agg {
            stage: Stage::Partial { group: _, calls: _ },
            child,
        } => lay(child.get(), loci, slice, gang, layout),
        Node::Agg {
            stage: Stage::Final,
            child,
        } => lay(child.get(), loci, slice, gang, layout),
        Node::Gather { order: _, child } => {
            let senders = gang_at(loci, layout.slices.len());
            let number = layout.motions.len() as u32 + 1;
            let layout = with_motion(layout, slice, gang, senders)?;
            lay(child.get(), loci, number, senders, layout)
        }
        Node::Redistribute { keys: _, child } => {
            let senders = gang_at(loci, layout.slices.len());
            let number = layout.motions.len() as u32 + 1;
            let layout = with_motion(layout, slice, gang, senders)?;
            lay(child.get(), loci, number, senders, layout)
        }
        Node::Broadcast { child } => {
            let senders = gang_at(loci, layout.slices.len());
            let number = layout.motions.len() as u32 + 1;
            let layout = with_motion(layout, slice, gang, senders)?;
            lay(child.get(), loci, number, senders, layout)
        }
    }
}
