// What no clause says: that memory serves, and that steps which apply lead a small query to its end.
ghost use Rattle.std.specs.Prelude.{◌≡◌, IfOk, OnOk};
ghost use Rattle.gd_world.specs.Worlds.{IsWorld};

use crate::session::place_of;
use crate::{Session, Step, World};
use ic_base::{SegId, Settings, Text};
use ic_row::{Kind, Row, Rows, Value};
use pl_ops::{Loaded, Spread};
use pl_plan::{Node, Placing, Plan, PlanNo, Schema, Schemas, SoundPlan, checked};
use pl_tree::all_fit;
use sqlite_items::{Boxed, Items};
use std::alloc::{AllocError, Global};
use std::test::*;

fn text(alloc: Global, words: &str) -> Result<Text, AllocError> {
    Ok(Text::from_string(String::from_str(alloc, words)?))
}

/// `t` has one column of whole numbers, and is dealt.
fn tables(alloc: Global) -> Result<Schemas, AllocError> {
    let mut tables = Items::new(alloc);
    tables.push(Schema {
        name: text(alloc, "t")?,
        kinds: Items::from_slice(alloc, &[Kind::Int])?,
        place: Placing::Dealt,
    })?;
    Ok(tables)
}

/// A gather over a scan, judged with two segments.
fn gather(alloc: Global) -> Result<SoundPlan, PlanNo> {
    let table = text(alloc, "t")?;
    let child = Boxed::new(alloc, Node::Scan { table })?;
    let root = Node::Gather { order: None, child };
    let plan = Plan { root };
    let tables = tables(alloc)?;
    if !plan.fits() || !all_fit(tables.as_slice()) {
        return Err(PlanNo::Memory);
    }
    checked(alloc, plan, &tables, 2, &Settings::DEFAULT)
}

/// One row of this number.
fn one(alloc: Global, number: i64) -> Result<Rows, AllocError> {
    let row = Row::from_vec(vec![in alloc; Value::Int(number)]?);
    Ok(Rows::from_vec(vec![in alloc; row]?))
}

/// `[10]` at segment 0, and `[11]` at segment 1.
fn rows(alloc: Global) -> Result<Loaded, AllocError> {
    let mut parts = Items::new(alloc);
    parts.push(one(alloc, 10)?)?;
    parts.push(one(alloc, 11)?)?;
    let mut tables = Items::new(alloc);
    tables.push(Spread::Apart(parts))?;
    Ok(Loaded::from_tables(tables))
}

/// The dispatcher and two segments.
fn nodes(alloc: Global) -> Result<Vec<SegId>, AllocError> {
    let mut nodes = Vec::new(alloc);
    for number in -1..2 {
        if let Some(at) = SegId::new(number) {
            nodes.push(at)?;
        }
    }
    Ok(nodes)
}

/// What one round does: turns, deliveries and ticks.
fn add_round(steps: &mut Vec<Step>, nodes: &[SegId]) -> Result<(), AllocError> {
    for at in nodes {
        steps.push(Step::Turn { slice: 1, at: *at })?;
        steps.push(Step::Turn { slice: 0, at: *at })?;
    }
    for number in 0..8 {
        for at in nodes {
            steps.push(Step::Deliver { number, to: *at })?;
        }
    }
    for at in nodes {
        steps.push(Step::Tick(*at))?;
    }
    Ok(())
}

/// The query begins everywhere, goes on for some rounds, and is left everywhere.
fn steps(alloc: Global, nodes: &[SegId]) -> Result<Vec<Step>, AllocError> {
    let mut steps = Vec::new(alloc);
    for at in nodes {
        steps.push(Step::Begin(*at))?;
    }
    for _ in 0..12 {
        add_round(&mut steps, nodes)?;
    }
    for at in nodes {
        steps.push(Step::Leave(*at))?;
    }
    Ok(steps)
}

/// A world of query 1 over a new session of the plan.
fn opened<'a>(
    alloc: Global,
    plan: &'a SoundPlan,
    loaded: &'a Loaded,
) -> Result<World<'a>, AllocError>
    ensures { IfOk result IsWorld }
{
    plan.is_judged();
    let session = Session::new(alloc, 7, plan.segments(), plan.settings())?;
    World::new(alloc, plan, loaded, 1, session)
}

/// Delivers the datagram of this number as one in hand, if there is one for a node of the world.
fn hand_over(alloc: Global, world: &mut World<'_>, number: u64) -> Result<bool, AllocError>
    requires { IsWorld world.old }
    ensures world { OnOk result (IsWorld world.new) }
{
    let Some(datagram) = world.session().sent(number)? else {
        return Ok(false);
    };
    let place = place_of(datagram.to);
    let count = world.session().nodes().len();
    if place >= count {
        return Ok(false);
    }
    world.deliver_sent(alloc, number, datagram)?;
    Ok(true)
}

/// Goes through all steps.
fn play_all(alloc: Global, world: &mut World<'_>) -> Result<(), AllocError>
    requires { IsWorld world.old }
    ensures world { OnOk result (IsWorld world.new) }
{
    let nodes = nodes(alloc)?;
    let steps = steps(alloc, nodes.as_slice())?;
    world.play(alloc, steps.as_slice())
}

/// Whether both rows are let out, each worker is done, and the dispatcher has left.
fn is_over(world: &World<'_>) -> bool {
    if world.workers() != 3 || world.rows().len() != 2 {
        return false;
    }
    for k in 0..3 {
        if !world.is_done_at(k) {
            return false;
        }
    }
    world.has_left(SegId::DISPATCHER)
}

/// Whether a turn of the first worker is taken.
fn takes_a_turn(alloc: Global, world: &mut World<'_>) -> Result<bool, AllocError>
    requires { IsWorld world.old }
    ensures world { OnOk result (IsWorld world.new) }
{
    match world.turn_at(alloc, 0) {
        Ok(Some(_)) => Ok(true),
        Ok(None) => Ok(false),
        Err(no) => Err(no),
    }
}

/// Whether the query runs to its end, and its first worker and its first datagram can be asked for once more.
fn runs(alloc: Global, plan: &SoundPlan, loaded: &Loaded) -> Result<bool, AllocError> {
    let mut world = opened(alloc, plan, loaded)?;
    play_all(alloc, &mut world)?;
    let over = is_over(&world);
    let turned = takes_a_turn(alloc, &mut world)?;
    let handed = hand_over(alloc, &mut world, 0)?;
    Ok(over && turned && handed)
}

#[test]
fn a_gather_runs_to_its_end(rt: HostRuntime) {
    let Ok(plan) = gather(rt.alloc()) else {
        assert!(rt; false, "a sound plan");
        return;
    };
    let Ok(loaded) = rows(rt.alloc()) else {
        assert!(rt; false, "its rows");
        return;
    };
    assert!(rt; matches!(runs(rt.alloc(), &plan, &loaded), Ok(true)));
}
