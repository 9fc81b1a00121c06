// The limit.
ghost use Rattle.std.specs.Prelude.{◌≡◌, ◌<◌, ◌≤◌, ◌+◌, ℕ, [], IfOk, IsOk};
ghost use Rattle.pl_ops.specs.declared.words.Next.TheVariants.{Wants};
ghost use Rattle.pl_ops.specs.declared.words.Side.{Side as Sides};
ghost use Rattle.pl_ops.specs.Streams.{silent, limit_stream};
ghost use Rattle.pl_ops.specs.Giving.{NextFalls};
ghost use Rattle.ex_basic.specs.Single.{Answers, Given, Ended};
ghost use Rattle.ex_basic.specs.Limits.{Gives, IsWanting, work};

use crate::words::without_row;
use ic_row::Row;
use pl_ops::{Next, OpNo, Side};
use std::alloc::Global;
use std::marker::Model;

/// A limit: answers the first rows that it is given, and has ended once they are as many as its count, whether its input
/// has or not. A limit to no rows has ended from the start.
///
/// It moves rows, takes no memory, and so is never refused.
#[derive(Drop)]
pub struct Limit {
    /// How many more rows it takes.
    left: u64,
    /// The row that it still has to answer.
    row: Option<Row>,
    ended: bool,
}

impl Model for Limit {
    ghost use Rattle.std.specs.Prelude.{option_to_list};
    ghost use Rattle.ex_basic.specs.Limits.{Limiting};

    ghost Value = { Limiting };

    ghost view = { λ l. record { left = l.left; pending = option_to_list l.row; ended = l.ended } };
}

impl Limit {
    /// A limit to this many rows.
    pub fn new(count: u64) -> Limit
        ensures { Gives count result silent [] }
    {
        Limit {
            left: count,
            row: None,
            ended: false,
        }
    }

    /// The next row, or that it wants one, or the end.
    pub fn next(&mut self, _alloc: Global) -> Result<Next, OpNo>
        ensures answers { IfOk result (λ next. (count : ℕ)
            → Answers (Gives count) (limit_stream count) self.old self.new next) }
        ensures wants { IfOk result (λ next. (side : Sides) → next ≡ Wants side → IsWanting side self.new) }
        ensures falls { IfOk result (λ next. NextFalls next (work self.old) (work self.new)) }
        ensures ok { IsOk result }
    {
        match self.row.take() {
            Some(row) => Ok(Next::Row(row)),
            None => Ok(without_row(self.ended || self.left == 0)),
        }
    }

    /// Takes the row that it wants.
    pub fn give(&mut self, _alloc: Global, side: Side, row: Row) -> Result<(), OpNo>
        requires { IsWanting side self.old }
        ensures gives { (count : ℕ) → Given (Gives count) self.old self.new row }
        ensures work { work self.new ≤ work self.old + 1 }
        ensures ok { IsOk result }
    {
        self.left -= 1;
        self.row = Some(row);
        Ok(())
    }

    /// No more rows come.
    pub fn ended(&mut self, side: Side)
        requires { IsWanting side self.old }
        ensures gives { (count : ℕ) → Ended (Gives count) self.old self.new }
        ensures work { work self.new < work self.old }
    {
        self.ended = true;
    }
}
