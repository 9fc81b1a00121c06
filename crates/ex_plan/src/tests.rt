// What no clause says: that memory serves, for a gather over a filter.
ghost use Rattle.std.specs.Prelude.{◌≡◌};

use super::*;
use ex_tree::Tree;
use ic_base::{SegId, Settings, Text};
use ic_row::Kind;
use pl_expr::{Expr, Operand};
use pl_ops::Loaded;
use pl_plan::{Node, Placing, Plan, PlanNo, Schema, Schemas, SoundPlan, checked};
use pl_tree::all_fit;
use sqlite_items::{Boxed, Items};
use std::alloc::{AllocError, Global};
use std::test::*;

fn text(alloc: Global, words: &str) -> Result<Text, AllocError> {
    Ok(Text::from_string(String::from_str(alloc, words)?))
}

/// `t` has one column of whole numbers, and is dealt.
fn tables(alloc: Global) -> Result<Schemas, AllocError> {
    let mut tables = Items::new(alloc);
    tables.push(Schema {
        name: text(alloc, "t")?,
        kinds: Items::from_slice(alloc, &[Kind::Int])?,
        place: Placing::Dealt,
    })?;
    Ok(tables)
}

fn scan(alloc: Global) -> Result<Node, AllocError> {
    let table = text(alloc, "t")?;
    Ok(Node::Scan { table })
}

/// The rows in which the column is null.
fn filtered(alloc: Global) -> Result<Node, AllocError> {
    let child = Boxed::new(alloc, scan(alloc)?)?;
    let test = Expr::IsNull(Operand::Col(0));
    Ok(Node::Filter { test, child })
}

/// What two segments say of a plan.
fn judged(alloc: Global, root: Node) -> Result<SoundPlan, PlanNo> {
    let plan = Plan { root };
    let tables = tables(alloc)?;
    if !plan.fits() || !all_fit(tables.as_slice()) {
        return Err(PlanNo::Memory);
    }
    checked(alloc, plan, &tables, 2, &Settings::DEFAULT)
}

/// A gather over a filter.
fn example(alloc: Global) -> Result<SoundPlan, PlanNo> {
    let child = Boxed::new(alloc, filtered(alloc)?)?;
    judged(alloc, Node::Gather { order: None, child })
}

/// The worker of a slice at the dispatcher.
fn worker(slice: u32) -> WorkerId
    ensures { result.slice ≡ slice }
{
    WorkerId {
        session: 7,
        query: 1,
        slice,
        at: SegId::DISPATCHER,
    }
}

/// Whether slice 0 hears a motion.
fn hears(alloc: Global, plan: &SoundPlan, rows: &Loaded) -> bool {
    if plan.slices() == 0 {
        return false;
    }
    matches!(tree_of(alloc, plan, rows, &worker(0)), Ok(Tree::Hears(_)))
}

/// Whether slice 1 has an operator over something.
fn operates(alloc: Global, plan: &SoundPlan, rows: &Loaded) -> bool {
    if plan.slices() < 2 {
        return false;
    }
    matches!(tree_of(alloc, plan, rows, &worker(1)), Ok(Tree::One(_, _)))
}

/// Whether slice 1 sends on motion 1.
fn sends(alloc: Global, plan: &SoundPlan) -> bool {
    if plan.slices() < 2 {
        return false;
    }
    match sends_of(alloc, plan, 1) {
        Ok(sends) => sends.motion == 1,
        Err(_) => false,
    }
}

#[test]
fn a_gather_is_heard_and_sent_to_by_a_filter(rt: HostRuntime) {
    let Ok(plan) = example(rt.alloc()) else {
        assert!(rt; false, "a sound plan");
        return;
    };
    let rows = Loaded::from_tables(Items::new(rt.alloc()));
    assert!(rt; hears(rt.alloc(), &plan, &rows));
    assert!(rt; operates(rt.alloc(), &plan, &rows));
    assert!(rt; sends(rt.alloc(), &plan));
}
