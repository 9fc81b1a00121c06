// Sound plans.
ghost use Rattle.std.specs.Prelude.{◌≡◌, ◌<◌, ◌≤◌, ◌^◌, length, reverse, IfOk, IfErr, OnOk};
ghost use Rattle.ic_base.specs.Settings.{AreChecked};
ghost use Rattle.pl_tree.specs.Trees.{tree_of, tree_in, motions_in};
ghost use Rattle.pl_tree.specs.Sizes.{IsPlan, AreTables};
ghost use Rattle.pl_plan.specs.Soundness.{IsSound};
ghost use Rattle.pl_plan.specs.Layout.{nothing_laid};
ghost use Rattle.pl_plan.specs.Limits.{room_of, workers_of, limit_rule};
ghost use Rattle.pl_plan.specs.Kept.{given_with, judged_with, IsKept, Refuses};
ghost use Rattle.pl_plan.specs.Noting.{all_loci, noted, Judges, Limits};

use crate::above::Above;
use crate::ends::{Asked, all_ends};
use crate::facts::{Facts, under};
use crate::layout::{Gang, Layout, MotionRow, lay};
use crate::limits::broken_limit;
use crate::rule::{PlanFault, PlanNo};
use crate::walking::walk;
use ic_base::{ConnEnds, SegId, Segs, Settings};
use pl_tree::{Loci, Locus, Node, Plan, Schema, Schemas, copy_schemas};
use sqlite_items::Items;
use std::alloc::{AllocError, Global};
use std::marker::Model;

/// What a plan was judged with.
#[derive(Drop, Debug)]
pub struct Judged {
    pub plan: Plan,
    pub schemas: Schemas,
    /// 1..=64.
    pub segments: u32,
    pub settings: Settings,
}

/// A plan that breaks no rule, with the slice, the locus and the motion of each of its nodes.
///
/// `checked` is the only way to one. It is asked for its slices and for each slice's gang, for the connections that a
/// segment has an end of, and for what each node gives; each answer was noted down when the plan was judged.
#[derive(Drop)]
pub struct SoundPlan {
    judged: Judged,
    /// Of all nodes, in preorder.
    loci: Loci,
    /// The slice of each node, in preorder.
    slices: Items<u32>,
    /// In preorder, which is by number.
    motions: Items<MotionRow>,
}

impl Model for SoundPlan {
    ghost use Rattle.pl_plan.specs.declared.sound.Judged.{Judged};
    ghost use Rattle.pl_plan.specs.contracts.sound.Judged as e;
    ghost use Rattle.std.specs.Coded.{codes};
    ghost use Rattle.pl_plan.specs.Kept.{IsKept};

    ghost Value = { Judged };

    ghost view = { λ p. p.judged };

    ghost invariant = { λ p. IsKept p.judged p.loci p.slices p.motions };

    ghost coded = { Prim.hlevel (codes, e.the_row.coded) };
}

/// The loci from the first node to the last, of those from the last to the first.
fn from_the_first(alloc: Global, from_the_last: Loci) -> Result<Loci, AllocError>
    ensures { IfOk result (λ x. x ≡ reverse from_the_last) }
{
    let mut left = from_the_last;
    let mut loci = Items::new(alloc);
    while let Some(locus) = left.pop() {
        loci.push(locus)?;
    }
    Ok(loci)
}

/// Nothing noted down.
fn no_layout(alloc: Global) -> Layout
    ensures { result ≡ nothing_laid }
{
    Layout {
        slices: Items::new(alloc),
        motions: Items::new(alloc),
    }
}

/// What is noted down of a plan's nodes.
#[derive(Drop)]
struct Notes {
    loci: Loci,
    slices: Items<u32>,
    motions: Items<MotionRow>,
}

/// Of a plan whose root gives this.
fn note(alloc: Global, root: &Node, facts: Facts) -> Result<Notes, AllocError>
    requires { motions_in (tree_of root.now) < 2 ^ 32 }
    ensures { IfOk result (λ x. x ≡ noted (all_loci facts) (tree_of root.now)) }
{
    let from_the_last = under(facts.below, facts.locus)?;
    let loci = from_the_first(alloc, from_the_last)?;
    let layout = lay(root, loci.as_slice(), 0, Gang::Dispatcher, no_layout(alloc))?;
    Ok(Notes {
        loci,
        slices: layout.slices,
        motions: layout.motions,
    })
}

/// The notes of a plan that breaks none of the first ten rules, or the first fault.
fn judge(alloc: Global, plan: &Plan, schemas: &[Schema]) -> Result<Notes, PlanNo>
    requires plan { IsPlan (tree_in plan.now) }
    requires tables { AreTables schemas.now }
    ensures { Judges schemas.now (tree_in plan.now) result }
{
    let facts = walk(alloc, &plan.root, schemas, Above::root(), 0)?;
    Ok(note(alloc, &plan.root, facts)?)
}

/// Whether the rings and the workers of a plan with these notes are few enough.
fn within_limits(notes: &Notes, segments: u32, settings: &Settings) -> Result<(), PlanNo>
    requires segments { segments ≤ 64 }
    requires motions { length notes.now.motions ≤ 64 }
    requires settings { AreChecked settings.now }
    ensures { Limits (limit_rule (room_of segments settings.now notes.now.motions) (workers_of segments notes.now.motions)) result }
{
    match broken_limit(notes.motions.as_slice(), segments, settings) {
        Some(rule) => Err(PlanNo::Fault(PlanFault { node: 0, rule })),
        None => Ok(()),
    }
}

/// A sound plan with its notes.
fn keep(
    alloc: Global,
    plan: Plan,
    schemas: &Schemas,
    segments: u32,
    settings: &Settings,
    notes: Notes,
) -> Result<SoundPlan, AllocError>
    requires { IsKept (judged_with plan schemas.now segments settings.now) notes.loci notes.slices notes.motions }
    ensures { IfOk result (λ p. p ≡ judged_with plan schemas.now segments settings.now) }
{
    let schemas = copy_schemas(alloc, schemas.as_slice())?;
    let Notes {
        loci,
        slices,
        motions,
    } = notes;
    let judged = Judged {
        plan,
        schemas,
        segments,
        settings: *settings,
    };
    Ok(SoundPlan {
        judged,
        loci,
        slices,
        motions,
    })
}

/// The plan as a sound one, if it breaks no rule; else the first node in postorder that breaks one, and the least
/// rule that it breaks. A refused plan is dropped.
///
/// Walks the plan twice: once from the leaves for what each node gives, and once from the root for slices and motions.
/// Copies the schemas.
pub fn checked(
    alloc: Global,
    plan: Plan,
    schemas: &Schemas,
    segments: u32,
    settings: &Settings,
) -> Result<SoundPlan, PlanNo>
    requires plan { IsPlan (tree_in plan) }
    requires tables { AreTables schemas.now }
    requires least_segments { 1 ≤ segments }
    requires most_segments { segments ≤ 64 }
    requires settings { AreChecked settings.now }
    ensures ok { IfOk result (λ p. p ≡ judged_with plan schemas.now segments settings.now) }
    ensures sound { OnOk result (IsSound (given_with schemas.now segments settings.now) (tree_in plan)) }
    ensures fault { IfErr result (Refuses (given_with schemas.now segments settings.now) (tree_in plan)) }
{
    let notes = judge(alloc, &plan, schemas.as_slice())?;
    within_limits(&notes, segments, settings)?;
    Ok(keep(alloc, plan, schemas, segments, settings, notes)?)
}

impl SoundPlan {
    ghost use Rattle.std.specs.Prelude.{◌≡◌, ◌<◌, Some, slice_get, IfOk};
    ghost use Rattle.std.specs.Option.{option_map};
    ghost use Rattle.pl_tree.specs.Trees.{tree_in, nodes_in, preorder};
    ghost use Rattle.pl_tree.specs.Loci.{locus_of};
    ghost use Rattle.pl_plan.specs.Motions.{slices_in, slices_of, gang_of};
    ghost use Rattle.pl_plan.specs.Layout.{members};
    ghost use Rattle.pl_plan.specs.Ends.{ends_in};
    ghost use Rattle.pl_plan.specs.Kept.{IsJudged};

    /// The plan that was judged.
    pub fn plan(&self) -> &Plan
        ensures { result.now ≡ self.now.plan }
    {
        &self.judged.plan
    }

    /// The tables that it was judged with.
    pub fn schemas(&self) -> &Schemas
        ensures { result.now ≡ self.now.schemas }
    {
        &self.judged.schemas
    }

    /// How many segments there are, 1..=64.
    pub fn segments(&self) -> u32
        ensures { result ≡ self.now.segments }
    {
        self.judged.segments
    }

    pub fn settings(&self) -> Settings
        ensures { result ≡ self.now.settings }
    {
        self.judged.settings
    }

    /// It breaks no rule, and what it was judged with is what a document can have. Has nothing to run.
    pub fn is_judged(&self)
        ensures { IsJudged self.now }
    {
        let _segments = self.judged.segments;
    }

    /// How many slices there are: one more than motions.
    pub fn slices(&self) -> u32
        ensures { result ≡ slices_in (tree_in self.now.plan) }
    {
        self.motions.len() as u32 + 1
    }

    /// How many nodes there are.
    pub fn nodes(&self) -> u32
        ensures { result ≡ nodes_in (tree_in self.now.plan) }
    {
        self.slices.len() as u32
    }

    fn gang_at(&self, slice: u32) -> Gang
        requires { slice < slices_in (tree_in self.now.plan) }
        ensures { members self.now.segments result ≡ gang_of self.now.schemas self.now.segments (tree_in self.now.plan) slice }
    {
        if slice == 0 {
            return Gang::Dispatcher;
        }
        match self.motions.get(slice as usize - 1) {
            Some(motion) => motion.senders,
            None => Gang::All,
        }
    }

    /// The segments that work on a slice, in their order: the dispatcher on slice 0, segment 0 alone if the slice
    /// sends what stands everywhere, and else every segment.
    pub fn gang(&self, alloc: Global, slice: u32) -> Result<Segs, AllocError>
        requires { slice < slices_in (tree_in self.now.plan) }
        ensures { IfOk result (λ gang. gang ≡ gang_of self.now.schemas self.now.segments (tree_in self.now.plan) slice) }
    {
        let members = self.gang_at(slice).members(alloc, self.judged.segments)?;
        Ok(Segs::from_vec(members))
    }

    /// The ends that a segment has of the plan's connections, by motion, sending end and receiving end, and of one
    /// connection the sending side first. Looks at each connection of the plan once.
    pub fn ends(
        &self,
        alloc: Global,
        session: u32,
        query: u32,
        at: SegId,
    ) -> Result<ConnEnds, AllocError>
        ensures { IfOk result (λ ends. ends ≡ ends_in self.now.schemas self.now.segments (tree_in self.now.plan) session query at) }
    {
        let asked = Asked { session, query, at };
        let ends = all_ends(alloc, self.motions.as_slice(), self.judged.segments, &asked)?;
        Ok(ConnEnds::from_vec(ends))
    }

    /// The locus of a node, which is named by its number in preorder from 0. Copies the locus.
    pub fn locus(&self, alloc: Global, node: u32) -> Result<Locus, AllocError>
        requires { node < nodes_in (tree_in self.now.plan) }
        ensures { IfOk result (λ locus. option_map (locus_of self.now.schemas) (slice_get (preorder (tree_in self.now.plan)) node) ≡ Some locus) }
    {
        match self.loci.get(node as usize) {
            Some(locus) => locus.copy(alloc),
            None => Ok(Locus::Strewn),
        }
    }

    /// The slice of a node, which is named by its number in preorder from 0. A motion belongs to the slice above it.
    pub fn slice_of(&self, node: u32) -> u32
        requires { node < nodes_in (tree_in self.now.plan) }
        ensures { slice_get (slices_of (tree_in self.now.plan)) node ≡ Some result }
    {
        match self.slices.get(node as usize) {
            Some(slice) => *slice,
            None => 0,
        }
    }
}
