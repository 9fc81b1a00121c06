// The filter.
ghost use Rattle.std.specs.Prelude.{◌≡◌, ◌<◌, ◌≤◌, ◌+◌, [], ◌∷◌, option_to_list, IfOk, IsOk};
ghost use Rattle.pl_expr.specs.declared.expr.Expr.{Expr as Predicate};
ghost use Rattle.pl_ops.specs.declared.words.Next.TheVariants.{Wants};
ghost use Rattle.pl_ops.specs.declared.words.Side.{Side as Sides};
ghost use Rattle.pl_ops.specs.Rows.{filter_rows};
ghost use Rattle.pl_ops.specs.Streams.{silent, filter_stream};
ghost use Rattle.pl_ops.specs.Giving.{NextFalls};
ghost use Rattle.ex_basic.specs.Single.{Answers, Given, Ended};
ghost use Rattle.ex_basic.specs.Filters.{Gives, IsWanting, work};

use crate::words::without_row;
use ic_row::Row;
use pl_expr::{Expr, holds};
use pl_ops::{Next, OpNo, Side};
use std::alloc::Global;
use std::marker::Model;

/// A filter: answers the rows of which its predicate is true. A row of which it is unknown is dropped, as in SQL.
///
/// It moves rows, takes no memory, and so is never refused.
#[derive(Drop)]
pub struct Filter {
    test: Expr,
    /// The row that it still has to answer.
    row: Option<Row>,
    ended: bool,
}

impl Model for Filter {
    ghost use Rattle.std.specs.Prelude.{option_to_list};
    ghost use Rattle.std.specs.Coded.{codes};
    ghost use Rattle.pl_expr.specs.contracts.expr.Expr as e;
    ghost use Rattle.ex_basic.specs.Filters.{Filtering};

    ghost Value = { Filtering };

    ghost coded = { Prim.hlevel (codes, e.the_row.coded) };

    ghost view = { λ f. record { test = f.test; pending = option_to_list f.row; ended = f.ended } };
}

/// The row, if the predicate is true of it.
#[tactic(auto, unfolding(pl_ops::specs::Rows::filter_rows))]
fn kept(test: &Expr, row: Row) -> Option<Row>
    ensures { option_to_list result ≡ filter_rows test.now (row ∷ []) }
{
    if holds(test, &row) { Some(row) } else { None }
}

impl Filter {
    /// A filter by this predicate.
    #[tactic(auto, using(crate::proofs::Filtering::filtered_nothing))]
    pub fn new(test: Expr) -> Filter
        ensures { Gives test result silent [] }
    {
        Filter {
            test,
            row: None,
            ended: false,
        }
    }

    /// The next row, or that it wants one, or the end.
    pub fn next(&mut self, _alloc: Global) -> Result<Next, OpNo>
        ensures answers { IfOk result (λ next. (test : Predicate)
            → Answers (Gives test) (filter_stream test) self.old self.new next) }
        ensures wants { IfOk result (λ next. (side : Sides) → next ≡ Wants side → IsWanting side self.new) }
        ensures falls { IfOk result (λ next. NextFalls next (work self.old) (work self.new)) }
        ensures ok { IsOk result }
    {
        match self.row.take() {
            Some(row) => Ok(Next::Row(row)),
            None => Ok(without_row(self.ended)),
        }
    }

    /// Takes the row that it wants, and keeps it if the predicate is true.
    pub fn give(&mut self, _alloc: Global, side: Side, row: Row) -> Result<(), OpNo>
        requires { IsWanting side self.old }
        ensures gives { (test : Predicate) → Given (Gives test) self.old self.new row }
        ensures work { work self.new ≤ work self.old + 1 }
        ensures ok { IsOk result }
    {
        self.row = kept(&self.test, row);
        Ok(())
    }

    /// No more rows come.
    pub fn ended(&mut self, side: Side)
        requires { IsWanting side self.old }
        ensures gives { (test : Predicate) → Ended (Gives test) self.old self.new }
        ensures work { work self.new < work self.old }
    {
        self.ended = true;
    }
}
