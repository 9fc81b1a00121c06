// The operators of nodes, before their first row.
ghost use Rattle.std.specs.Prelude.{◌≤◌, length, [], IfOk};
ghost use Rattle.pl_ops.specs.Streams.{silent};
ghost use Rattle.ex_join.specs.Joins as joins;
ghost use Rattle.ex_agg.specs.Parts.{is_final};
ghost use Rattle.ex_tree.specs.Parts.{Filters, Projects, Limits, Sorts, Groups};
ghost use Rattle.ex_tree.specs.Operators.{Gives};

use ex_agg::{Agg, AggPart};
use ex_basic::{Filter, Limit, Project, Sort};
use ex_join::HashJoin;
use ex_tree::Op;
use ic_row::Key;
use pl_expr::Expr;
use pl_tree::{Call, Pair};
use sqlite_items::Items;
use std::alloc::{AllocError, Global};

pub fn filter_op(alloc: Global, test: &Expr) -> Result<Op, AllocError>
    ensures { IfOk result (λ op. Gives (Filters test.now) op silent []) }
{
    let test = test.copy(alloc)?;
    Ok(Op::Filter(Filter::new(test)))
}

pub fn project_op(alloc: Global, columns: &[u32]) -> Result<Op, AllocError>
    ensures { IfOk result (λ op. Gives (Projects columns.now) op silent []) }
{
    let columns = Items::from_slice(alloc, columns)?;
    Ok(Op::Project(Project::new(columns)))
}

pub fn limit_op(count: u64) -> Op
    ensures { Gives (Limits count) result silent [] }
{
    Op::Limit(Limit::new(count))
}

pub fn sort_op(alloc: Global, keys: &[Key]) -> Result<Op, AllocError>
    ensures { IfOk result (λ op. Gives (Sorts keys.now) op silent []) }
{
    let keys = Items::from_slice(alloc, keys)?;
    Ok(Op::Sort(Sort::new(alloc, keys)))
}

/// The aggregate of the node that has this number in preorder.
pub fn agg_op(
    alloc: Global,
    part: AggPart,
    group: &[u32],
    calls: &[Call],
    number: u32,
) -> Result<Op, AllocError>
    requires group { length group.now ≤ 1024 }
    requires calls { length calls.now ≤ 1024 }
    ensures { IfOk result (λ op. Gives (Groups number (is_final part) group.now calls.now) op silent []) }
{
    let group = Items::from_slice(alloc, group)?;
    let calls = Items::from_slice(alloc, calls)?;
    Ok(Op::Agg(Agg::new(alloc, part, group, calls)?, number))
}

/// A join whose right rows have so many values.
pub fn join_op(alloc: Global, pairs: &[Pair], right_width: u32) -> Result<HashJoin, AllocError>
    ensures { IfOk result (λ join. joins.Gives pairs.now join silent silent []) }
{
    let pairs = Items::from_slice(alloc, pairs)?;
    HashJoin::new(alloc, pairs, right_width)
}
