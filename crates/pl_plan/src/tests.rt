ghost use Rattle.std.specs.Prelude.{◌≤◌};

use super::*;
use crate::asks::is_entry;
use ic_base::{SegId, Settings, Text};
use ic_row::Kind;
use pl_tree::all_fit;
use sqlite_items::{Boxed, Items};
use std::alloc::{AllocError, Global};
use std::test::*;

fn text(alloc: Global, words: &str) -> Result<Text, AllocError> {
    Ok(Text::from_string(String::from_str(alloc, words)?))
}

/// `t` has one column of whole numbers, and is dealt.
fn tables(alloc: Global) -> Result<Schemas, AllocError> {
    let mut tables = Items::new(alloc);
    tables.push(Schema {
        name: text(alloc, "t")?,
        kinds: Items::from_slice(alloc, &[Kind::Int])?,
        place: Placing::Dealt,
    })?;
    Ok(tables)
}

fn scan(alloc: Global) -> Result<Node, AllocError> {
    let table = text(alloc, "t")?;
    Ok(Node::Scan { table })
}

/// What two segments say of a plan.
fn judged(alloc: Global, root: Node) -> Result<SoundPlan, PlanNo> {
    let plan = Plan { root };
    let tables = tables(alloc)?;
    if !plan.fits() || !all_fit(tables.as_slice()) {
        return Err(PlanNo::Memory);
    }
    checked(alloc, plan, &tables, 2, &Settings::DEFAULT)
}

/// A gather over a scan.
fn example(alloc: Global) -> Result<SoundPlan, PlanNo> {
    let child = Boxed::new(alloc, scan(alloc)?)?;
    judged(alloc, Node::Gather { order: None, child })
}

/// Whether a scan that nothing gathers is refused by the rule of the root.
fn is_refused(alloc: Global) -> Result<bool, AllocError> {
    let root = scan(alloc)?;
    let rule = Rule::NotAtEntry;
    Ok(match judged(alloc, root) {
        Ok(_) => false,
        Err(no) => no == PlanNo::Fault(PlanFault { node: 0, rule }),
    })
}

#[test]
fn a_scan_that_nothing_gathers_is_refused(rt: HostRuntime) {
    assert!(rt; is_refused(rt.alloc()) == Ok(true));
}

fn is_at_entry(alloc: Global, plan: &SoundPlan) -> Result<bool, AllocError> {
    if plan.nodes() == 0 {
        return Ok(false);
    }
    Ok(is_entry(&plan.locus(alloc, 0)?))
}

/// How many members the first slice has, and how many ends the dispatcher.
fn counts(alloc: Global, plan: &SoundPlan) -> Result<(usize, usize), AllocError> {
    let gang = plan.gang(alloc, 0)?;
    let ends = plan.ends(alloc, 7, 3, SegId::DISPATCHER)?;
    Ok((gang.as_slice().len(), ends.as_slice().len()))
}

#[test]
fn a_sound_plan_answers_for_slices_segments_and_nodes(rt: HostRuntime) {
    let Ok(plan) = example(rt.alloc()) else {
        assert!(rt; false, "a sound plan");
        return;
    };
    assert!(rt; counts(rt.alloc(), &plan) == Ok((1, 2)));
    assert!(rt; is_at_entry(rt.alloc(), &plan) == Ok(true));
}
