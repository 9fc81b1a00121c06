// Trees before the first pull.
ghost use Rattle.std.specs.Prelude.{◌≡◌, [], List, IfOk};
ghost use Rattle.ic_base.specs.declared.keys.ConnEnd.{ConnEnd};
ghost use Rattle.pl_tree.specs.declared.node.Pair.{Pair as OnePair};
ghost use Rattle.pl_ops.specs.Streams.{silent};
ghost use Rattle.pl_runs.specs.Steps.{Step};
ghost use Rattle.ex_join.specs.Joins as joins;
ghost use Rattle.ex_tree.specs.Parts.{Part, Single, Rows, Hears, Over, Joins, AreApart};
ghost use Rattle.ex_tree.specs.Operators.{Gives};
ghost use Rattle.ex_tree.specs.Running.{state_of, source_of, Ears, Runs, Holds, AreHeard};

use crate::op::Op;
use crate::tree::Tree;
use ex_basic::Scan;
use ex_join::HashJoin;
use ic_motion::MotionIn;
use ic_row::Row;
use std::alloc::{AllocError, Global};

impl<'a> Tree<'a> {
    /// The rows of a table. Takes no memory.
    pub fn rows(rows: &'a [Row]) -> Tree<'a>
        ensures runs { (steps : List Step) → Runs (Rows rows.now) (state_of result) steps [] }
        ensures heard { (keys : List ConnEnd) → AreHeard keys (state_of result) }
    {
        Tree::Rows(Scan::new(rows))
    }

    /// A motion. Takes no memory.
    pub fn hears(motion: MotionIn) -> Tree<'a>
        ensures runs { (steps : List Step) → Holds motion steps [] → Runs (Hears (source_of motion)) (state_of result) steps [] }
        ensures heard { (keys : List ConnEnd) → AreHeard keys (Ears motion) → AreHeard keys (state_of result) }
    {
        Tree::Hears(motion)
    }

    /// An operator that was given nothing, over its input.
    pub fn one(alloc: Global, op: Op, child: Tree<'a>) -> Result<Tree<'a>, AllocError>
        ensures runs { IfOk result (λ t. (p : Single) (c : Part) (steps : List Step) → Gives p op silent [] → Runs c (state_of child.entry) steps []
            → Runs (Over p c) (state_of t) steps []) }
        ensures heard { IfOk result (λ t. (keys : List ConnEnd) → AreHeard keys (state_of child.entry) → AreHeard keys (state_of t)) }
    {
        Ok(Tree::One(op, Box::new(alloc, child)?))
    }

    /// A join that was given nothing, over its inputs.
    pub fn two(
        alloc: Global,
        join: HashJoin,
        left: Tree<'a>,
        right: Tree<'a>,
    ) -> Result<Tree<'a>, AllocError>
        ensures runs { IfOk result (λ t. (on : List OnePair) (l r : Part) (steps : List Step) → AreApart l r → joins.Gives on join silent silent []
            → Runs l (state_of left.entry) steps [] → Runs r (state_of right.entry) steps [] → Runs (Joins on l r) (state_of t) steps []) }
        ensures heard { IfOk result (λ t. (keys : List ConnEnd) → AreHeard keys (state_of left.entry) → AreHeard keys (state_of right.entry)
            → AreHeard keys (state_of t)) }
    {
        let left = Box::new(alloc, left)?;
        Ok(Tree::Two(join, left, Box::new(alloc, right)?))
    }
}
