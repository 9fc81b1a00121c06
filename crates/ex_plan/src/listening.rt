// The receiving ends of a slice's motions.
ghost use Rattle.std.specs.Prelude.{◌≡◌, ◌<◌, List, IfOk};
ghost use Rattle.pl_tree.specs.Trees.{tree_of, tree_in};
ghost use Rattle.pl_tree.specs.Loci.{locus_of};
ghost use Rattle.pl_plan.specs.Motions.{slices_in, gang_at};
ghost use Rattle.pl_ops.specs.declared.loaded.Spread.{Spread as OneSpread};
ghost use Rattle.ex_tree.specs.Parts.{Hears};
ghost use Rattle.ex_tree.specs.Running.{state_of};
ghost use Rattle.ex_tree.specs.Plans.{source_at};
ghost use Rattle.ex_plan.specs.Workers.{site_of, place_of, gang_in, Starts};

use crate::giving::kinds_given;
use crate::worker::WorkerId;
use ex_tree::Tree;
use ic_motion::{MotionEnd, MotionIn};
use pl_plan::SoundPlan;
use pl_tree::{Keys, Node};
use sqlite_items::Items;
use std::alloc::{AllocError, Global};

fn order_copied(alloc: Global, order: &Option<Keys>) -> Result<Option<Keys>, AllocError>
    ensures { IfOk result (λ copy. copy ≡ order.now) }
{
    match order {
        Some(keys) => Ok(Some(Items::from_slice(alloc, keys.as_slice())?)),
        None => Ok(None),
    }
}

/// The receiving end of a motion over this child.
pub fn hear<'a>(
    alloc: Global,
    plan: &SoundPlan,
    id: &WorkerId,
    order: Option<Keys>,
    child: &Node,
    motion: u32,
) -> Result<Tree<'a>, AllocError>
    requires slice { motion < slices_in (tree_in plan.now.plan) }
    requires senders { gang_in plan.now motion ≡ gang_at plan.now.segments (locus_of plan.now.schemas (tree_of child.now)) }
    ensures { IfOk result (λ t. (tables : List OneSpread)
        → Starts (Hears (source_at (site_of plan.now tables) (place_of id.now) motion order (tree_of child.now))) (state_of t)) }
{
    let senders = plan.gang(alloc, motion)?;
    let kinds = kinds_given(alloc, child, plan.schemas().as_slice())?;
    let end = MotionEnd {
        session: id.session,
        query: id.query,
        motion,
        at: id.at,
    };
    Ok(Tree::hears(MotionIn::new(alloc, end, senders, order, kinds)?))
}

/// The receiving end of a gather over this child. Copies its order.
pub fn hear_in_order<'a>(
    alloc: Global,
    plan: &SoundPlan,
    id: &WorkerId,
    order: &Option<Keys>,
    child: &Node,
    motion: u32,
) -> Result<Tree<'a>, AllocError>
    requires slice { motion < slices_in (tree_in plan.now.plan) }
    requires senders { gang_in plan.now motion ≡ gang_at plan.now.segments (locus_of plan.now.schemas (tree_of child.now)) }
    ensures { IfOk result (λ t. (tables : List OneSpread)
        → Starts (Hears (source_at (site_of plan.now tables) (place_of id.now) motion order.now (tree_of child.now))) (state_of t)) }
{
    let order = order_copied(alloc, order)?;
    hear(alloc, plan, id, order, child, motion)
}
