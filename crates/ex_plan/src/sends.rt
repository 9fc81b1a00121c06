// Where a slice sends.
ghost use Rattle.std.specs.Prelude.{◌≡◌, ◌<◌, ◌≤◌, IfOk};
ghost use Rattle.pl_tree.specs.Trees.{tree_of, tree_in};
ghost use Rattle.pl_plan.specs.Motions.{slices_in};
ghost use Rattle.pl_runs.specs.Slices.{motion_node, route_in};
ghost use Rattle.ic_motion.specs.Hearing.{Ascends};
ghost use Rattle.ic_motion.specs.Sending.{route_by};
ghost use Rattle.ex_plan.specs.Spots.{slice_above};
ghost use Rattle.ex_plan.specs.Workers.{gang_in};
ghost use Rattle.ex_plan.specs.Sending.{kind_of, kind_at, AreReceivers};

use crate::finding::find;
use ic_base::Segs;
use ic_motion::MotionKind;
use pl_plan::SoundPlan;
use pl_tree::Node;
use sqlite_items::Items;
use std::alloc::{AllocError, Global};

/// What the sending end of a slice is told.
#[derive(Drop)]
pub struct Sends {
    /// From 1. The slice has this number too.
    pub motion: u32,
    pub kind: MotionKind,
    /// The gang of the slice above, in its order.
    pub receivers: Segs,
}

/// How this motion routes its rows. Copies the columns.
fn kind_of(alloc: Global, motion: &Node) -> Result<MotionKind, AllocError>
    ensures { IfOk result (λ kind. kind ≡ kind_of (tree_of motion.now)) }
{
    match motion {
        Node::Gather { order: _, child: _ } => Ok(MotionKind::Gather),
        Node::Redistribute { keys, child: _ } => {
            let columns = Items::from_slice(alloc, keys.as_slice())?;
            Ok(MotionKind::Redistribute(columns))
        }
        _ => Ok(MotionKind::Broadcast),
    }
}

/// Where the workers of a slice send, and how they route. Each slice but slice 0 sends.
///
/// Walks the plan once, up to the slice's motion.
pub fn sends_of(alloc: Global, plan: &SoundPlan, slice: u32) -> Result<Sends, AllocError>
    requires least { 1 ≤ slice }
    requires slice { slice < slices_in (tree_in plan.now.plan) }
    ensures motion { IfOk result (λ sends. sends.motion ≡ slice) }
    ensures kind { IfOk result (λ sends. sends.kind ≡ kind_at (motion_node (tree_in plan.now.plan) slice)) }
    ensures route { IfOk result (λ sends. route_by sends.kind ≡ route_in (tree_in plan.now.plan) slice) }
    ensures gang { IfOk result (λ sends. sends.receivers ≡ gang_in plan.now (slice_above (tree_in plan.now.plan) slice)) }
    ensures ascend { IfOk result (λ sends. Ascends sends.receivers) }
    ensures receivers { IfOk result (λ sends. AreReceivers plan.now slice sends.kind sends.receivers) }
{
    plan.is_judged();
    match find(&plan.plan().root, slice - 1, 0, 0, 1) {
        Some(found) => Ok(Sends {
            motion: slice,
            kind: kind_of(alloc, found.node)?,
            receivers: plan.gang(alloc, found.above)?,
        }),
        None => unreachable!(),
    }
}
