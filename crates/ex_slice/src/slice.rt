// A slice at one segment, and its turns.
ghost use Rattle.std.specs.Prelude.{◌≡◌, ◌<◌, List, [], Contains, IfOk, Ok, Err, None, true};
ghost use Rattle.pl_tree.specs.Trees.{tree_in};
ghost use Rattle.pl_plan.specs.Motions.{slices_in};
ghost use Rattle.pl_runs.specs.Steps.{Step};
ghost use Rattle.pl_runs.specs.Logs.{ends_of};
ghost use Rattle.pl_runs.specs.Slices.{Worker};
ghost use Rattle.ic_motion.specs.Answers.{StepsOnce, WaitsBusy};
ghost use Rattle.ic_motion.specs.Hearing.{Ascends};
ghost use Rattle.ic_motion.specs.Sending.{Sends as SendsBy, fresh_sender};
ghost use Rattle.ic_motion.specs.Sent.{IsUnsent};
ghost use Rattle.ex_tree.specs.Parts.{Part};
ghost use Rattle.ex_tree.specs.Running.{state_of, Runs, AreHeard};
ghost use Rattle.ex_plan.specs.Workers.{Serves, gang_in, worker_of, part_for};
ghost use Rattle.ex_slice.specs.declared.stage.Stage.TheVariants as stages;
ghost use Rattle.ex_slice.specs.declared.stage.SliceNo.{SliceNo as No};
ghost use Rattle.ex_slice.specs.declared.stage.Turned.TheVariants as turned;
ghost use Rattle.ex_slice.specs.declared.way.Way.TheVariants as ways;
ghost use Rattle.ex_slice.specs.Serving.{LetsAllOut, FacesOut};
ghost use Rattle.ex_slice.specs.Working.{let_out_by, Works, CanTurn, SameWay, IsFresh, Listening, Reaching, fresh_course};
ghost use Rattle.ex_slice.specs.Turning.{is_going, is_at_end, StandsAt, TurnWaits, TurnsAny};
ghost use Rattle.ex_slice.specs.Acting.{at_stage, CanGive, CanEnd};
ghost use Rattle.ex_slice.specs.Slicing.{working};

use crate::acting::{end_next, give, halt_next};
use crate::stage::{
    SliceNo, Stage, Turned, stage_ended, stage_given, stage_halted, turned_ended, turned_given,
    turned_halted,
};
use crate::way::Way;
use ex_plan::{Sends, WorkerId, sends_of, slice_0_sends_nothing, tree_of};
use ex_tree::Tree;
use ic_base::Port;
use ic_motion::MotionOut;
use ic_row::{Row, Rows};
use pl_ops::Loaded;
use pl_plan::SoundPlan;
use std::alloc::{AllocError, Global};

/// The sending end of a slice's motion, before its first call.
fn sending_end(alloc: Global, plan: &SoundPlan, sends: Sends) -> Result<MotionOut, AllocError>
    requires { Ascends sends.receivers }
    ensures value { IfOk result (λ m. m ≡ fresh_sender sends.motion sends.kind plan.now.settings.packet sends.receivers) }
    ensures sends { IfOk result (λ m. (steps : List Step) → IsUnsent sends.motion steps → SendsBy m steps []) }
{
    plan.is_judged();
    let packet = plan.settings().packet;
    MotionOut::new(alloc, sends.kind, sends.motion, sends.receivers, packet)
}

/// One slice of a plan at one segment: its operators, and where their rows go.
#[derive(Drop)]
pub struct Slice<'a> {
    stage: Stage,
    tree: Tree<'a>,
    way: Way,
}

impl<'a> Slice<'a> {
    /// The slice of a plan's worker, before its first turn, over the rows of its tables at the worker's segment. The worker is
    /// of a gang of the plan, and the port of each turn is that of its connections.
    ///
    /// Copies what the plan says of the slice's nodes, and shares the rows.
    pub fn new(
        alloc: Global,
        plan: &SoundPlan,
        rows: &'a Loaded,
        id: &WorkerId,
    ) -> Result<Slice<'a>, AllocError>
        requires slice { id.now.slice < slices_in (tree_in plan.now.plan) }
        requires at { Contains (gang_in plan.now id.now.slice) id.now.at }
        // It is that worker's, and has done nothing.
        ensures begins { IfOk result (λ s. Works (worker_of plan.now rows.now id.now.slice id.now.at) (part_for plan.now rows.now id.now) (working s) fresh_course) }
        // The worker's connections are those on which it hears and sends.
        ensures listens { IfOk result (λ s. Listening (ends_of (worker_of plan.now rows.now id.now.slice id.now.at) id.now.session id.now.query) (part_for plan.now rows.now id.now)) }
        ensures reaches { IfOk result (λ s. Reaching (ends_of (worker_of plan.now rows.now id.now.slice id.now.at) id.now.session id.now.query) s.way) }
        ensures stage { IfOk result (λ s. s.stage ≡ stages.Giving) }
    {
        let tree = tree_of(alloc, plan, rows, id)?;
        if id.slice == 0 {
            slice_0_sends_nothing();
            return Ok(Slice::root(alloc, tree));
        }
        let sends = sends_of(alloc, plan, id.slice)?;
        Ok(Slice::sending(tree, sending_end(alloc, plan, sends)?))
    }

    /// Slice 0. Takes no memory.
    fn root(alloc: Global, tree: Tree<'a>) -> Slice<'a>
        ensures begins { (w : Worker) (part : Part) → Serves w part → LetsAllOut w → Runs part (state_of tree.entry) [] [] → Works w part (working result) fresh_course }
        ensures way { result.way ≡ ways.Lets [] }
        ensures stage { result.stage ≡ stages.Giving }
    {
        Slice {
            stage: Stage::Giving,
            tree,
            way: Way::Lets(Rows::new(alloc)),
        }
    }

    /// Another slice, with the sending end of its motion. Takes no memory.
    fn sending(tree: Tree<'a>, out: MotionOut) -> Slice<'a>
        ensures begins { (w : Worker) (part : Part) → Serves w part → FacesOut w out → IsFresh out → Runs part (state_of tree.entry) [] [] → Works w part (working result) fresh_course }
        ensures way { result.way ≡ ways.Passes out None }
        ensures stage { result.stage ≡ stages.Giving }
    {
        Slice {
            stage: Stage::Giving,
            tree,
            way: Way::Passes(out, None),
        }
    }

    /// The rows that slice 0 has let out, in order; none of another slice.
    pub fn rows(&self) -> &[Row]
        ensures { result.now ≡ let_out_by self.now.way }
    {
        match &self.way {
            Way::Lets(rows) => rows.as_slice(),
            Way::Passes(_, _) => &[],
        }
    }

    /// Whether the last turn, or one before it, was answered `Done`.
    pub fn is_done(&self) -> bool
        ensures { result ≡ is_at_end self.now.stage }
    {
        matches!(self.stage, Stage::Done)
    }

    /// One turn: at most one call of the port, and at slice 0 at most one row that is let out. It never waits.
    ///
    /// If the answer is `Moved`, give it another turn at once, and on `Waiting` later. After `Done` and after an error each
    /// further turn answers the same and makes no call.
    pub fn turn<P: Port>(&mut self, alloc: Global, port: &mut P) -> Result<Turned, SliceNo>
        requires { is_going self.old.stage ≡ true → CanTurn (P.keys port.old) (P.log port.old) (working self.old) }
        ensures keys { P.keys port.new ≡ P.keys port.old }
        ensures steps { StepsOnce P.steps port.old port.new }
        ensures busy { WaitsBusy (P.busy port.old) (P.busy port.new) (TurnWaits result) }
        ensures stands { StandsAt self.new.stage result }
        ensures same { SameWay self.old.way self.new.way }
        ensures over { self.old.stage ≡ stages.Done → (result ≡ Ok turned.Done) × (self.new ≡ self.old) × (port.new ≡ port.old) }
        ensures again { (no_ : No) → self.old.stage ≡ stages.Refused no_ → (result ≡ Err no_) × (self.new ≡ self.old) × (port.new ≡ port.old) }

        // Which call it made; which row it let out; and what the run of the slice is after it.
        ensures turns { TurnsAny (working self.old) (working self.new) (P.log port.old) (P.log port.new) result }
    {
        match self.stage {
            Stage::Giving => self.go_on(alloc, port),
            Stage::Ending => self.finish(alloc, port),
            Stage::Halting => self.halt(alloc, port),
            Stage::Done => Ok(Turned::Done),
            Stage::Refused(no) => Err(no),
        }
    }

    fn go_on<P: Port>(&mut self, alloc: Global, port: &mut P) -> Result<Turned, SliceNo>
        requires hears { AreHeard (P.keys port.old) (state_of self.old.tree) }
        requires sends { CanGive (P.keys port.old) self.old.way }
        ensures keys { P.keys port.new ≡ P.keys port.old }
        ensures steps { StepsOnce P.steps port.old port.new }
        ensures busy { WaitsBusy (P.busy port.old) (P.busy port.new) (TurnWaits result) }
        ensures stands { StandsAt self.new.stage result }
        ensures same { SameWay self.old.way self.new.way }
        ensures turns { TurnsAny (at_stage stages.Giving (state_of self.old.tree) self.old.way) (working self.new) (P.log port.old) (P.log port.new) result }
    {
        let answer = give(alloc, &mut self.tree, &mut self.way, port);
        self.stage = stage_given(&answer);
        turned_given(answer)
    }

    fn finish<P: Port>(&mut self, alloc: Global, port: &mut P) -> Result<Turned, SliceNo>
        requires { CanEnd (P.keys port.old) self.old.way }
        ensures keys { P.keys port.new ≡ P.keys port.old }
        ensures steps { StepsOnce P.steps port.old port.new }
        ensures busy { WaitsBusy (P.busy port.old) (P.busy port.new) (TurnWaits result) }
        ensures stands { StandsAt self.new.stage result }
        ensures same { SameWay self.old.way self.new.way }
        ensures turns { TurnsAny (at_stage stages.Ending (state_of self.old.tree) self.old.way) (working self.new) (P.log port.old) (P.log port.new) result }
    {
        let answer = end_next(alloc, &mut self.way, port);
        self.stage = stage_ended(&answer);
        turned_ended(answer)
    }

    fn halt<P: Port>(&mut self, alloc: Global, port: &mut P) -> Result<Turned, SliceNo>
        requires { AreHeard (P.keys port.old) (state_of self.old.tree) }
        ensures keys { P.keys port.new ≡ P.keys port.old }
        ensures steps { StepsOnce P.steps port.old port.new }
        ensures busy { WaitsBusy (P.busy port.old) (P.busy port.new) (TurnWaits result) }
        ensures stands { StandsAt self.new.stage result }
        ensures same { SameWay self.old.way self.new.way }
        ensures turns { TurnsAny (at_stage stages.Halting (state_of self.old.tree) self.old.way) (working self.new) (P.log port.old) (P.log port.new) result }
    {
        let answer = halt_next(alloc, &mut self.tree, port);
        self.stage = stage_halted(&answer);
        turned_halted(answer)
    }
}
