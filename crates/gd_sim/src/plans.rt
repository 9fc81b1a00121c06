// Plans as what they gather.
ghost use Rattle.std.specs.Prelude.{◌≡◌, ◌≤◌, length, IfOk, option_map, Some};
ghost use Rattle.std.specs.List.{AllByRecursion};
ghost use Rattle.ic_base.specs.Settings.{AreChecked};
ghost use Rattle.pl_tree.specs.Trees.{tree_of, tree_in};
ghost use Rattle.pl_tree.specs.Columns.{same_text};
ghost use Rattle.gd_sim.specs.Feeding.{IsFeed};
ghost use Rattle.gd_sim.specs.Plans as spec;

use crate::feed::Feed;
use crate::run::{FirstRun, run_feeds};
use ic_base::{Drops, Settings, Text};
use pl_ops::Loaded;
use pl_plan::{Node, Placing, Schema, SoundPlan};
use std::alloc::{AllocError, Global};
use std::marker::Model;

/// The sound plans of a session's queries, in order, each seen as what it was judged with.
#[derive(Drop)]
pub struct SoundPlans {
    plans: Vec<SoundPlan>,
}

impl Model for SoundPlans {
    ghost use Rattle.std.specs.Prelude.{List};
    ghost use Rattle.pl_plan.specs.declared.sound.Judged.{Judged};
    ghost use Rattle.pl_plan.specs.contracts.sound.Judged as e;
    ghost use Rattle.std.specs.Coded.{codes};

    ghost Value = { List Judged };

    ghost view = { λ s. s.plans.items };

    ghost coded = { Prim.hlevel (codes, e.the_row.coded) };
}

impl SoundPlans {
    ghost use Rattle.std.specs.Prelude.{◌≡◌, [], ◌∷◌, ◌++◌, OnOk, OnErr};

    /// No plans. Takes no memory.
    pub fn new(alloc: Global) -> SoundPlans
        ensures { result ≡ [] }
    {
        SoundPlans {
            plans: Vec::new(alloc),
        }
    }

    pub fn as_slice(&self) -> &[SoundPlan]
        ensures { result.now ≡ self.now }
    {
        self.plans.as_slice()
    }

    /// Adds a plan at the end. A refused plan is dropped.
    pub fn push(&mut self, plan: SoundPlan) -> Result<(), AllocError>
        ensures ok { OnOk result (self.new ≡ self.old ++ plan ∷ []) }
        ensures err { OnErr result (self.new ≡ self.old) }
    {
        self.plans.push(plan)?;
        Ok(())
    }
}

fn scanned(node: &Node) -> Option<&Text>
    ensures { option_map (λ name. name.now) result ≡ spec.scanned (tree_of node.now) }
{
    match node {
        Node::Scan { table } => Some(table),
        _ => None,
    }
}

/// The name of the table whose rows a plan gathers, if the plan is a gather without an order over a scan.
pub fn gathered(root: &Node) -> Option<&Text>
    ensures { option_map (λ name. name.now) result ≡ spec.gathered (tree_of root.now) }
{
    match root {
        Node::Gather { order: None, child } => scanned(child.get()),
        _ => None,
    }
}

fn is_same(a: &Text, b: &Text) -> bool
    ensures { result ≡ same_text a.now b.now }
{
    a.as_str() == b.as_str()
}

fn senders_of(segments: u32, place: &Placing) -> u32
    ensures { result ≡ spec.senders_of segments place.now }
{
    match place {
        Placing::Everywhere => 1,
        _ => segments,
    }
}

fn feed_named(segments: u32, name: &Text, schemas: &[Schema]) -> Option<Feed>
    requires { length schemas.now ≤ 64 }
    ensures { result ≡ spec.feed_from segments 0 name.now schemas.now }
{
    let mut number = 0;
    for schema in schemas {
        if is_same(&schema.name, name) {
            return Some(Feed {
                table: number,
                senders: senders_of(segments, &schema.place),
            });
        }
        number += 1;
    }
    None
}

/// What a plan gathers, if it is a gather without an order over the scan of one of its tables.
pub fn feed_of(plan: &SoundPlan) -> Option<Feed>
    requires { length plan.now.schemas ≤ 64 }
    ensures { result ≡ spec.feed_of plan.now }
{
    match gathered(&plan.plan().root) {
        Some(name) => feed_named(plan.segments(), name, plan.schemas().as_slice()),
        None => None,
    }
}

/// What each plan gathers.
pub fn feeds_of(alloc: Global, plans: &SoundPlans) -> Result<Option<Vec<Feed>>, AllocError>
    requires { AllByRecursion (λ j. length j.schemas ≤ 64) plans.now }
    ensures { IfOk result (λ feeds. option_map (λ v. v.items) feeds ≡ spec.feeds_of plans.now) }
{
    let mut feeds = Vec::new(alloc);
    for plan in plans.as_slice() {
        match feed_of(plan) {
            Some(feed) => feeds.push(feed)?,
            None => return Ok(None),
        }
    }
    Ok(Some(feeds))
}

// What a plan that runs so far gathers.
fn sure_feed(plan: &SoundPlan, loaded: &Loaded, settings: Settings, segments: u32) -> Feed
    requires least { 1 ≤ segments }
    requires runs { spec.Runs segments settings loaded.now plan.now }
    ensures gathers { spec.feed_of plan.now ≡ Some result }
    ensures feed { IsFeed segments loaded.now result }
{
    plan.is_judged();
    match feed_of(plan) {
        Some(feed) => feed,
        None => Feed {
            table: 0,
            senders: segments,
        },
    }
}

fn sure_feeds(
    alloc: Global,
    plans: &[SoundPlan],
    loaded: &Loaded,
    settings: Settings,
    segments: u32,
) -> Result<Vec<Feed>, AllocError>
    requires least { 1 ≤ segments }
    requires plans { AllByRecursion (spec.Runs segments settings loaded.now) plans.now }
    ensures gather { IfOk result (λ feeds. spec.feeds_of plans.now ≡ Some feeds.items) }
    ensures count { IfOk result (λ feeds. length feeds.items ≡ length plans.now) }
    ensures feeds { IfOk result (λ feeds. AllByRecursion (IsFeed segments loaded.now) feeds.items) }
{
    let mut feeds = Vec::with_capacity(alloc, plans.len())?;
    for plan in plans {
        feeds.push(sure_feed(plan, loaded, settings, segments))?;
    }
    Ok(feeds)
}

/// Runs the queries of a session one after another, each for at most so many rounds. All plans are gathers without an
/// order over scans, judged for these segments and settings, and the rows fit their tables.
pub fn first_run(
    alloc: Global,
    session: u32,
    queries: &SoundPlans,
    loaded: &Loaded,
    settings: Settings,
    segments: u32,
    drops: &Drops,
    rounds: u64,
) -> Result<FirstRun, AllocError>
    requires checked { AreChecked settings }
    requires least { 1 ≤ segments }
    requires most { segments ≤ 64 }
    requires few { length queries.now ≤ 64 }
    requires plans { AllByRecursion (spec.Runs segments settings loaded.now) queries.now }
    ensures { IfOk result (spec.IsRunOf session segments rounds settings loaded.now queries.now) }
{
    let feeds = sure_feeds(alloc, queries.as_slice(), loaded, settings, segments)?;
    run_feeds(
        alloc,
        session,
        feeds.as_slice(),
        loaded,
        settings,
        segments,
        drops,
        rounds,
    )
}
