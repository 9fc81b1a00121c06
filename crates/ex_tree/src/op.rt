// Operators with one input.
ghost use Rattle.std.specs.Prelude.{◌≡◌, ◌<◌, ◌≤◌, ◌+◌, IfOk, IfErr, OnOk};
ghost use Rattle.pl_ops.specs.declared.words.Next.TheVariants.{Wants};
ghost use Rattle.pl_ops.specs.declared.words.OpNo.TheVariants as nos;
ghost use Rattle.pl_ops.specs.declared.words.Side.{Side as Sides};
ghost use Rattle.pl_ops.specs.Giving.{NextFalls};
ghost use Rattle.ex_basic.specs.Single.{Answers, Given, Ended};
ghost use Rattle.ex_tree.specs.Parts.{Single, one_stream};
ghost use Rattle.ex_tree.specs.Operators.{Gives, IsWanting, op_work, RefusesRow};
ghost use Rattle.ex_tree.specs.Inside.{no_of};

use crate::answers::TreeNo;
use ex_agg::Agg;
use ex_basic::{Filter, Limit, Project, Sort};
use ic_row::Row;
use pl_ops::{Next, OpNo, Side};
use std::alloc::Global;

/// An operator with one input.
#[derive(Drop)]
pub enum Op {
    Filter(Filter),
    Project(Project),
    Limit(Limit),
    Sort(Sort),
    /// An aggregate, and its node's number in preorder, from 0.
    Agg(Agg, u32),
}

/// Why a tree goes no further, if this aggregate or another operator refuses a row.
fn no_of(no: OpNo, node: u32) -> TreeNo
    ensures { result ≡ no_of no node }
{
    match no {
        OpNo::Overflow => TreeNo::Overflow { node },
        OpNo::Memory => TreeNo::Memory,
    }
}

impl Op {
    /// The next row, or that it wants one, or the end.
    pub(crate) fn next(&mut self, alloc: Global) -> Result<Next, OpNo>
        ensures answers { IfOk result (λ next. (p : Single) → Answers (Gives p) (one_stream p) self.old self.new next) }
        ensures wants { IfOk result (λ next. (side : Sides) → next ≡ Wants side → IsWanting self.new) }
        ensures falls { IfOk result (λ next. NextFalls next (op_work self.old) (op_work self.new)) }
    {
        match self {
            Op::Filter(filter) => filter.next(alloc),
            Op::Project(project) => project.next(alloc),
            Op::Limit(limit) => limit.next(alloc),
            Op::Sort(sort) => sort.next(alloc),
            Op::Agg(agg, _) => agg.next(alloc),
        }
    }

    /// Takes the row that it wants.
    pub(crate) fn give(&mut self, alloc: Global, row: Row) -> Result<(), TreeNo>
        requires { IsWanting self.old }
        ensures gives { OnOk result ((p : Single) → Given (Gives p) self.old self.new row) }
        ensures work { OnOk result (op_work self.new ≤ op_work self.old + 1) }
        ensures refuses { IfErr result (RefusesRow self.old row) }
    {
        match self {
            Op::Filter(filter) => match filter.give(alloc, Side::Left, row) {
                Ok(()) => Ok(()),
                Err(_) => Err(TreeNo::Memory),
            },
            Op::Project(project) => match project.give(alloc, Side::Left, row) {
                Ok(()) => Ok(()),
                Err(_) => Err(TreeNo::Memory),
            },
            Op::Limit(limit) => match limit.give(alloc, Side::Left, row) {
                Ok(()) => Ok(()),
                Err(_) => Err(TreeNo::Memory),
            },
            Op::Sort(sort) => match sort.give(alloc, Side::Left, row) {
                Ok(()) => Ok(()),
                Err(_) => Err(TreeNo::Memory),
            },
            Op::Agg(agg, node) => match agg.give(alloc, Side::Left, row) {
                Ok(()) => Ok(()),
                Err(no) => Err(no_of(no, *node)),
            },
        }
    }

    /// No more rows come.
    pub(crate) fn ended(&mut self)
        requires { IsWanting self.old }
        ensures gives { (p : Single) → Ended (Gives p) self.old self.new }
        ensures work { op_work self.new < op_work self.old }
    {
        match self {
            Op::Filter(filter) => filter.ended(Side::Left),
            Op::Project(project) => project.ended(Side::Left),
            Op::Limit(limit) => limit.ended(Side::Left),
            Op::Sort(sort) => sort.ended(Side::Left),
            Op::Agg(agg, _) => agg.ended(Side::Left),
        }
    }
}
