// The actions of a slice, one a turn: to give a row on, to finish a stream, to halt a sender.
ghost use Rattle.std.specs.Prelude.{◌≡◌, List, Result, [], ◌∷◌, Ok, OnOk, IfOk, Some, None, false};
ghost use Rattle.std.specs.List.{AllByRecursion};
ghost use Rattle.ic_base.specs.declared.keys.ConnEnd.{ConnEnd};
ghost use Rattle.ic_row.specs.Spelling.{HasLengths, IsRow};
ghost use Rattle.pl_ops.specs.Rows.{Line};
ghost use Rattle.pl_runs.specs.Steps.{Step, calls_of};
ghost use Rattle.ic_motion.specs.Answers.{StepsOnce, WaitsBusy, SendWaits, refused_by};
ghost use Rattle.ic_motion.specs.Sending.{Sends, SendsToEach, receivers_of, IsIdle};
ghost use Rattle.ic_motion.specs.Sent.{SameOut, SendsBy};
ghost use Rattle.ex_tree.specs.declared.answers.Pulled.TheVariants as pulls;
ghost use Rattle.ex_tree.specs.Running.{State, state_of, AreHeard};
ghost use Rattle.ex_tree.specs.Working.{work, Falls};
ghost use Rattle.ex_tree.specs.Pulling.{PullsAny, Touches, PullWaits};
ghost use Rattle.ex_slice.specs.declared.way.Way.TheVariants as ways;
ghost use Rattle.ex_slice.specs.Working.{held, SameWay};
ghost use Rattle.ex_slice.specs.Acting.{Gives, GiveWaits, CanGive, Ends, SentWaits, CanEnd, Halts};

use crate::spellable::is_spellable;
use crate::stage::{Gave, SliceNo, no_of_motion, no_of_tree};
use crate::way::Way;
use ex_tree::{Pulled, Tree, TreeNo};
use ic_base::Port;
use ic_motion::{MotionNo, MotionOut, Sent};
use ic_row::{Row, Rows};
use std::alloc::Global;

/// Pulls until the port was called, a row comes or the output has ended.
fn fetch<P: Port>(alloc: Global, tree: &mut Tree<'_>, port: &mut P) -> Result<Pulled, TreeNo>
    requires { AreHeard (P.keys port.old) (state_of tree.old) }
    ensures keys { P.keys port.new ≡ P.keys port.old }
    ensures heard { OnOk result ((keys : List ConnEnd) → AreHeard keys (state_of tree.old) → AreHeard keys (state_of tree.new)) }
    ensures touches { Touches P.steps port.old port.new result }
    ensures busy { WaitsBusy (P.busy port.old) (P.busy port.new) (PullWaits result) }
    ensures pulls { PullsAny (state_of tree.old) (state_of tree.new) (P.log port.old) (P.log port.new) result }
    ensures falls { IfOk result (λ got. Falls got (work (state_of tree.old)) (work (state_of tree.new))) }
    ensures stops { result ≡ Ok pulls.Step → ⊥ }
{
    loop {
        let got = tree.pull(alloc, port)?;
        match got {
            Pulled::Step => {}
            _ => return Ok(got),
        }
    }
}

/// Slice 0: lets the next row out.
fn let_next_out<P: Port>(
    alloc: Global,
    tree: &mut Tree<'_>,
    rows: &mut Rows,
    port: &mut P,
) -> Result<Gave, SliceNo>
    requires { AreHeard (P.keys port.old) (state_of tree.old) }
    ensures keys { P.keys port.new ≡ P.keys port.old }
    ensures heard { OnOk result ((keys : List ConnEnd) → AreHeard keys (state_of tree.old) → AreHeard keys (state_of tree.new)) }
    ensures steps { StepsOnce P.steps port.old port.new }
    ensures busy { WaitsBusy (P.busy port.old) (P.busy port.new) (GiveWaits result) }
    ensures gives { Gives (state_of tree.old) (state_of tree.new) (ways.Lets rows.old) (ways.Lets rows.new) (P.log port.old) (P.log port.new) result }
{
    match fetch(alloc, tree, port) {
        Ok(Pulled::Row(row)) => match rows.push(row) {
            Ok(()) => Ok(Gave::Moved),
            Err(_) => Err(SliceNo::Memory),
        },
        Ok(Pulled::More) => Ok(Gave::Moved),
        Ok(Pulled::Wait(no)) => Ok(Gave::Waiting(no)),
        Ok(Pulled::End) => Ok(Gave::Ended),
        // It is never answered.
        Ok(Pulled::Step) => Err(SliceNo::Memory),
        Err(no) => Err(no_of_tree(no)),
    }
}

/// Sends the row in hand. There must be one.
fn try_send<P: Port>(
    alloc: Global,
    out: &mut MotionOut,
    hand: &Option<Row>,
    port: &mut P,
) -> Result<Sent, MotionNo>
    requires sends { SendsToEach (P.keys port.old) out.old.motion (receivers_of out.old.targets) }
    requires lengths { AllByRecursion HasLengths (held hand.now) }
    requires open_ { out.old.ending ≡ false }
    requires some_ { hand.now ≡ None → ⊥ }
    ensures same { SameOut out.old out.new }
    ensures open_ { out.new.ending ≡ false }
    ensures keys { P.keys port.new ≡ P.keys port.old }
    ensures steps { StepsOnce P.steps port.old port.new }
    ensures busy { WaitsBusy (P.busy port.old) (P.busy port.new) (SendWaits result) }
    ensures refused { out.new.refused ≡ refused_by result }
    ensures sends { (row : Line) → hand.now ≡ Some row → (steps : List Step) (rows : List Line) → out.old.refused ≡ None → calls_of steps ≡ P.log port.old
        → Sends out.old steps rows → SendsBy out.old out.new steps rows row (P.log port.new) result }
{
    match hand {
        Some(row) => out.send(alloc, port, row),
        None => Ok(Sent::Done),
    }
}

/// Sends the row in hand, of which there must be one, and lets go of it once all of it is sent.
fn put_row<P: Port>(
    alloc: Global,
    out: &mut MotionOut,
    hand: &mut Option<Row>,
    port: &mut P,
) -> Result<Gave, SliceNo>
    requires sends { SendsToEach (P.keys port.old) out.old.motion (receivers_of out.old.targets) }
    requires lengths { AllByRecursion HasLengths (held hand.old) }
    requires open_ { out.old.ending ≡ false }
    requires some_ { hand.old ≡ None → ⊥ }
    ensures keys { P.keys port.new ≡ P.keys port.old }
    ensures steps { StepsOnce P.steps port.old port.new }
    ensures busy { WaitsBusy (P.busy port.old) (P.busy port.new) (GiveWaits result) }
    ensures same { SameOut out.old out.new }
    ensures gives { (tree : State) → Gives tree tree (ways.Passes out.old hand.old) (ways.Passes out.new hand.new) (P.log port.old) (P.log port.new) result }
{
    match try_send(alloc, out, hand, port) {
        Ok(Sent::Done) => {
            *hand = None;
            Ok(Gave::Moved)
        }
        Ok(Sent::AllStopped) => {
            *hand = None;
            Ok(Gave::Unwanted)
        }
        Ok(Sent::More) => Ok(Gave::Moved),
        Ok(Sent::Wait(no)) => Ok(Gave::Waiting(no)),
        Err(no) => Err(no_of_motion(no)),
    }
}

/// Another slice: sends the next row on, or more of it.
fn send_next<P: Port>(
    alloc: Global,
    tree: &mut Tree<'_>,
    out: &mut MotionOut,
    hand: &mut Option<Row>,
    port: &mut P,
) -> Result<Gave, SliceNo>
    requires hears { AreHeard (P.keys port.old) (state_of tree.old) }
    requires sends { SendsToEach (P.keys port.old) out.old.motion (receivers_of out.old.targets) }
    requires open_ { out.old.ending ≡ false }
    requires lengths { AllByRecursion HasLengths (held hand.old) }
    ensures keys { P.keys port.new ≡ P.keys port.old }
    ensures steps { StepsOnce P.steps port.old port.new }
    ensures busy { WaitsBusy (P.busy port.old) (P.busy port.new) (GiveWaits result) }
    ensures same { SameOut out.old out.new }
    ensures gives { Gives (state_of tree.old) (state_of tree.new) (ways.Passes out.old hand.old) (ways.Passes out.new hand.new) (P.log port.old) (P.log port.new) result }
{
    if hand.is_some() {
        return put_row(alloc, out, hand, port);
    }
    match fetch(alloc, tree, port) {
        Ok(Pulled::Row(row)) => {
            if !is_spellable(&row) {
                return Err(SliceNo::Memory);
            }
            *hand = Some(row);
            put_row(alloc, out, hand, port)
        }
        Ok(Pulled::More) => Ok(Gave::Moved),
        Ok(Pulled::Wait(no)) => Ok(Gave::Waiting(no)),
        Ok(Pulled::End) => Ok(Gave::Ended),
        // It is never answered.
        Ok(Pulled::Step) => Err(SliceNo::Memory),
        Err(no) => Err(no_of_tree(no)),
    }
}

/// Gives the next row on.
pub(crate) fn give<P: Port>(
    alloc: Global,
    tree: &mut Tree<'_>,
    way: &mut Way,
    port: &mut P,
) -> Result<Gave, SliceNo>
    requires hears { AreHeard (P.keys port.old) (state_of tree.old) }
    requires sends { CanGive (P.keys port.old) way.old }
    ensures keys { P.keys port.new ≡ P.keys port.old }
    ensures steps { StepsOnce P.steps port.old port.new }
    ensures busy { WaitsBusy (P.busy port.old) (P.busy port.new) (GiveWaits result) }
    ensures same { SameWay way.old way.new }
    ensures gives { Gives (state_of tree.old) (state_of tree.new) way.old way.new (P.log port.old) (P.log port.new) result }
{
    match way {
        Way::Lets(rows) => let_next_out(alloc, tree, rows, port),
        Way::Passes(out, hand) => send_next(alloc, tree, out, hand, port),
    }
}

/// Finishes the next stream.
pub(crate) fn end_next<P: Port>(alloc: Global, way: &mut Way, port: &mut P) -> Result<Sent, SliceNo>
    requires { CanEnd (P.keys port.old) way.old }
    ensures keys { P.keys port.new ≡ P.keys port.old }
    ensures steps { StepsOnce P.steps port.old port.new }
    ensures busy { WaitsBusy (P.busy port.old) (P.busy port.new) (SentWaits result) }
    ensures same { SameWay way.old way.new }
    ensures ends { Ends way.old way.new (P.log port.old) (P.log port.new) result }
{
    match way {
        Way::Lets(_) => Ok(Sent::Done),
        Way::Passes(out, _) => match out.end(alloc, port) {
            Ok(sent) => Ok(sent),
            Err(no) => Err(no_of_motion(no)),
        },
    }
}

/// Halts the next sender from which more may come.
pub(crate) fn halt_next<P: Port>(
    alloc: Global,
    tree: &mut Tree<'_>,
    port: &mut P,
) -> Result<Sent, SliceNo>
    requires { AreHeard (P.keys port.old) (state_of tree.old) }
    ensures keys { P.keys port.new ≡ P.keys port.old }
    ensures steps { StepsOnce P.steps port.old port.new }
    ensures busy { WaitsBusy (P.busy port.old) (P.busy port.new) (SentWaits result) }
    ensures halts { Halts (state_of tree.old) (state_of tree.new) (P.log port.old) (P.log port.new) result }
{
    match tree.halt(alloc, port) {
        Ok(sent) => Ok(sent),
        Err(no) => Err(no_of_tree(no)),
    }
}
