// The operators of a slice over its motions.
ghost use Rattle.std.specs.Prelude.{◌≡◌, ◌≤◌, List, IfOk, IfErr, OnOk};
ghost use Rattle.ic_base.specs.declared.keys.ConnEnd.{ConnEnd};
ghost use Rattle.ic_motion.specs.Answers.{WaitsBusy};
ghost use Rattle.ex_join.specs.Joins as joins;
ghost use Rattle.ex_tree.specs.declared.answers.TreeNo.TheVariants.{Memory};
ghost use Rattle.ex_tree.specs.Operators.{IsWanting, op_work};
ghost use Rattle.ex_tree.specs.Running.{state_of, Scans, Ears, AreHeard, IsStill};
ghost use Rattle.ex_tree.specs.Pulling.{PullsAny, Touches, PullWaits};
ghost use Rattle.ex_tree.specs.Halting.{HaltsAny, TouchesHalt, HaltWaits};
ghost use Rattle.ex_tree.specs.Working.{Falls, work};
ghost use Rattle.ex_tree.specs.Inside.{no_of_motion, tree_result, halt_result};
ghost use Rattle.ex_tree.specs.Nodes.{ScanPulls, Turns, Passed, PassedWork, Becomes, AskingFalls, Turns2, Passed2, PassedWork2};

use crate::answers::{Pulled, TreeNo};
use crate::op::Op;
use ex_basic::Scan;
use ex_join::HashJoin;
use ic_base::Port;
use ic_motion::{Got, MotionIn, MotionNo, Sent};
use pl_ops::{Next, Side};
use std::alloc::Global;

/// Operators over motions and over the rows of tables.
#[derive(Drop)]
#[cycle(tree)]
pub enum Tree<'a> {
    /// The rows of a table at this segment.
    Rows(Scan<'a>),
    /// A motion that is heard.
    Hears(MotionIn),
    /// An operator over one input.
    One(Op, Box<Tree<'a>>),
    /// A join over a left and a right input.
    Two(HashJoin, Box<Tree<'a>>, Box<Tree<'a>>),
}

fn pull_scan(alloc: Global, scan: &mut Scan<'_>) -> Result<Pulled, TreeNo>
    ensures pulls { ScanPulls scan.old scan.new result }
    ensures falls { IfOk result (λ got. Falls got (work (Scans scan.old)) (work (Scans scan.new))) }
{
    match scan.next(alloc) {
        Ok(Next::Row(row)) => Ok(Pulled::Row(row)),
        Ok(Next::End) => Ok(Pulled::End),
        // A scan wants no rows.
        Ok(Next::Wants(_)) => Ok(Pulled::End),
        Err(_) => Err(TreeNo::Memory),
    }
}

fn no_of_motion(no: MotionNo) -> TreeNo
    ensures { result ≡ no_of_motion no }
{
    match no {
        MotionNo::Malformed(key) => TreeNo::Malformed(key),
        // A receiving end never answers TooLong.
        MotionNo::TooLong(_) | MotionNo::Memory => TreeNo::Memory,
    }
}

/// A motion's answer as a tree's.
fn tree_result(pulled: Result<Got, MotionNo>) -> Result<Pulled, TreeNo>
    ensures { result ≡ tree_result pulled }
{
    match pulled {
        Ok(Got::Row(row)) => Ok(Pulled::Row(row)),
        Ok(Got::More) => Ok(Pulled::More),
        Ok(Got::Wait(no)) => Ok(Pulled::Wait(no)),
        Ok(Got::End) => Ok(Pulled::End),
        Err(no) => Err(no_of_motion(no)),
    }
}

fn pull_motion<P: Port>(
    alloc: Global,
    motion: &mut MotionIn,
    port: &mut P,
) -> Result<Pulled, TreeNo>
    requires { AreHeard (P.keys port.old) (Ears motion.old) }
    ensures keys { P.keys port.new ≡ P.keys port.old }
    ensures heard { OnOk result ((keys : List ConnEnd) → AreHeard keys (Ears motion.old) → AreHeard keys (Ears motion.new)) }
    ensures touches { Touches P.steps port.old port.new result }
    ensures busy { WaitsBusy (P.busy port.old) (P.busy port.new) (PullWaits result) }
    ensures pulls { PullsAny (Ears motion.old) (Ears motion.new) (P.log port.old) (P.log port.new) result }
    ensures falls { IfOk result (λ got. Falls got (work (Ears motion.old)) (work (Ears motion.new))) }
{
    tree_result(motion.pull(alloc, port))
}

/// A halt that was made is one of several, and the last one too.
fn halt_result(sent: Result<Sent, MotionNo>) -> Result<Sent, TreeNo>
    ensures { result ≡ halt_result sent }
{
    match sent {
        Ok(Sent::Wait(no)) => Ok(Sent::Wait(no)),
        Ok(Sent::Done) | Ok(Sent::More) | Ok(Sent::AllStopped) => Ok(Sent::More),
        Err(_) => Err(TreeNo::Memory),
    }
}

fn halt_motion<P: Port>(alloc: Global, motion: &mut MotionIn, port: &mut P) -> Result<Sent, TreeNo>
    requires { AreHeard (P.keys port.old) (Ears motion.old) }
    ensures keys { P.keys port.new ≡ P.keys port.old }
    ensures heard { (keys : List ConnEnd) → AreHeard keys (Ears motion.old) → AreHeard keys (Ears motion.new) }
    ensures touches { TouchesHalt P.steps port.old port.new result }
    ensures busy { WaitsBusy (P.busy port.old) (P.busy port.new) (HaltWaits result) }
    ensures halts { HaltsAny (Ears motion.old) (Ears motion.new) (P.log port.old) (P.log port.new) result }
{
    if motion.is_heard() {
        return Ok(Sent::Done);
    }
    halt_result(motion.halt_all(alloc, port))
}

/// What an operator does by itself.
#[derive(Drop)]
enum Asking {
    Gave(Pulled),
    /// It needs a row of this input.
    Needs(Side),
}

/// What an operator with one input gives by itself, or that it needs a row.
fn asked(alloc: Global, op: &mut Op) -> Result<Asking, TreeNo>
    ensures turns { IfOk result (λ asking. Turns op.old op.new asking) }
    ensures memory { IfErr result (λ no. no ≡ Memory) }
    ensures falls { IfOk result (AskingFalls (op_work op.old) (op_work op.new)) }
{
    match op.next(alloc) {
        Ok(Next::Row(row)) => Ok(Asking::Gave(Pulled::Row(row))),
        Ok(Next::End) => Ok(Asking::Gave(Pulled::End)),
        Ok(Next::Wants(side)) => Ok(Asking::Needs(side)),
        Err(_) => Err(TreeNo::Memory),
    }
}

/// Hands to an operator what its child gave.
fn passed(alloc: Global, op: &mut Op, got: Pulled) -> Result<Pulled, TreeNo>
    requires { IsWanting op.old }
    ensures passed { Passed op.old op.new got result }
    ensures becomes { Becomes got result }
    ensures work { OnOk result (PassedWork (op_work op.old) (op_work op.new) got) }
{
    match got {
        Pulled::Row(row) => match op.give(alloc, row) {
            Ok(()) => Ok(Pulled::Step),
            Err(no) => Err(no),
        },
        Pulled::Step => Ok(Pulled::Step),
        Pulled::More => Ok(Pulled::More),
        Pulled::Wait(no) => Ok(Pulled::Wait(no)),
        Pulled::End => {
            op.ended();
            Ok(Pulled::Step)
        }
    }
}

/// What a join gives by itself, or which side it needs.
fn asked_join(alloc: Global, join: &mut HashJoin) -> Result<Asking, TreeNo>
    ensures turns { IfOk result (λ asking. Turns2 join.old join.new asking) }
    ensures memory { IfErr result (λ no. no ≡ Memory) }
    ensures falls { IfOk result (AskingFalls (joins.work join.old) (joins.work join.new)) }
    ensures table { join.new.table ≡ join.old.table }
{
    match join.next(alloc) {
        Ok(Next::Row(row)) => Ok(Asking::Gave(Pulled::Row(row))),
        Ok(Next::End) => Ok(Asking::Gave(Pulled::End)),
        Ok(Next::Wants(side)) => Ok(Asking::Needs(side)),
        Err(_) => Err(TreeNo::Memory),
    }
}

/// Hands to a join what its child on this side gave.
fn passed_join(
    alloc: Global,
    join: &mut HashJoin,
    side: Side,
    got: Pulled,
) -> Result<Pulled, TreeNo>
    requires { joins.IsWanting side join.old }
    ensures passed { Passed2 side join.old join.new got result }
    ensures becomes { Becomes got result }
    ensures work { OnOk result (PassedWork2 side join.old join.new got) }
{
    match got {
        Pulled::Row(row) => match join.give(alloc, side, row) {
            Ok(()) => Ok(Pulled::Step),
            Err(_) => Err(TreeNo::Memory),
        },
        Pulled::Step => Ok(Pulled::Step),
        Pulled::More => Ok(Pulled::More),
        Pulled::Wait(no) => Ok(Pulled::Wait(no)),
        Pulled::End => {
            join.ended(side);
            Ok(Pulled::Step)
        }
    }
}

impl<'a> Tree<'a> {
    /// One step of the tree: at most one call of the port.
    pub fn pull<P: Port>(&mut self, alloc: Global, port: &mut P) -> Result<Pulled, TreeNo>
        requires { AreHeard (P.keys port.old) (state_of self.old) }
        ensures keys { P.keys port.new ≡ P.keys port.old }
        ensures heard { OnOk result ((keys : List ConnEnd) → AreHeard keys (state_of self.old) → AreHeard keys (state_of self.new)) }
        ensures touches { Touches P.steps port.old port.new result }
        ensures busy { WaitsBusy (P.busy port.old) (P.busy port.new) (PullWaits result) }
        // Without a motion no call is made.
        ensures still { IsStill (state_of self.old) → port.new ≡ port.old }
        ensures pulls { PullsAny (state_of self.old) (state_of self.new) (P.log port.old) (P.log port.new) result }
        ensures falls { IfOk result (λ got. Falls got (work (state_of self.old)) (work (state_of self.new))) }
    {
        match self {
            Tree::Rows(scan) => pull_scan(alloc, scan),
            Tree::Hears(motion) => pull_motion(alloc, motion, port),
            Tree::One(op, _) => match asked(alloc, op) {
                Ok(Asking::Gave(got)) => Ok(got),
                Ok(Asking::Needs(_)) => {
                    let Tree::One(_, child) = self else {
                        return Err(TreeNo::Memory);
                    };
                    match child.pull(alloc, port) {
                        Ok(got) => {
                            let Tree::One(op, _) = self else {
                                return Err(TreeNo::Memory);
                            };
                            passed(alloc, op, got)
                        }
                        Err(no) => Err(no),
                    }
                }
                Err(no) => Err(no),
            },
            Tree::Two(join, _, _) => match asked_join(alloc, join) {
                Ok(Asking::Gave(got)) => Ok(got),
                Ok(Asking::Needs(Side::Left)) => {
                    let Tree::Two(_, left, _) = self else {
                        return Err(TreeNo::Memory);
                    };
                    match left.pull(alloc, port) {
                        Ok(got) => {
                            let Tree::Two(join, _, _) = self else {
                                return Err(TreeNo::Memory);
                            };
                            passed_join(alloc, join, Side::Left, got)
                        }
                        Err(no) => Err(no),
                    }
                }
                Ok(Asking::Needs(Side::Right)) => {
                    let Tree::Two(_, _, right) = self else {
                        return Err(TreeNo::Memory);
                    };
                    match right.pull(alloc, port) {
                        Ok(got) => {
                            let Tree::Two(join, _, _) = self else {
                                return Err(TreeNo::Memory);
                            };
                            passed_join(alloc, join, Side::Right, got)
                        }
                        Err(no) => Err(no),
                    }
                }
                Err(no) => Err(no),
            },
        }
    }

    /// Halts the next sender that isn't heard out, of any motion. If the answer is `More` or `Wait`, call it again; `Done`
    /// says that there is none.
    pub fn halt<P: Port>(&mut self, alloc: Global, port: &mut P) -> Result<Sent, TreeNo>
        requires { AreHeard (P.keys port.old) (state_of self.old) }
        ensures keys { P.keys port.new ≡ P.keys port.old }
        ensures heard { (keys : List ConnEnd) → AreHeard keys (state_of self.old) → AreHeard keys (state_of self.new) }
        ensures touches { TouchesHalt P.steps port.old port.new result }
        ensures busy { WaitsBusy (P.busy port.old) (P.busy port.new) (HaltWaits result) }
        ensures halts { HaltsAny (state_of self.old) (state_of self.new) (P.log port.old) (P.log port.new) result }
    {
        match self {
            Tree::Rows(_) => Ok(Sent::Done),
            Tree::Hears(motion) => halt_motion(alloc, motion, port),
            Tree::One(_, child) => child.halt(alloc, port),
            Tree::Two(_, left, _) => match left.halt(alloc, port) {
                Ok(Sent::Done) => {
                    let Tree::Two(_, _, right) = self else {
                        return Err(TreeNo::Memory);
                    };
                    right.halt(alloc, port)
                }
                Ok(Sent::More) => Ok(Sent::More),
                Ok(Sent::Wait(no)) => Ok(Sent::Wait(no)),
                Ok(Sent::AllStopped) => Ok(Sent::AllStopped),
                Err(no) => Err(no),
            },
        }
    }
}
