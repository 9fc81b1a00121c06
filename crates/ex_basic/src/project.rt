// The project.
ghost use Rattle.std.specs.Prelude.{◌≡◌, ◌<◌, ◌≤◌, ◌+◌, ℕ, List, [], true, false, IfOk, IfErr, OnOk, Err};
ghost use Rattle.ic_row.specs.Values.{column, key_of};
ghost use Rattle.pl_ops.specs.declared.words.Next.TheVariants.{Wants};
ghost use Rattle.pl_ops.specs.declared.words.Side.{Side as Sides};
ghost use Rattle.pl_ops.specs.declared.words.OpNo.TheVariants.{Memory};
ghost use Rattle.pl_ops.specs.Streams.{silent, project_stream};
ghost use Rattle.pl_ops.specs.Giving.{NextFalls};
ghost use Rattle.ex_basic.specs.Single.{Answers, Given, Ended, Remembers};
ghost use Rattle.ex_basic.specs.Projects.{Gives, IsWanting, work};

use crate::words::without_row;
use ic_row::{Row, Value};
use pl_ops::{Next, OpNo, Side};
use pl_tree::Columns;
use std::alloc::{AllocError, Global};
use std::marker::Model;

/// A project: answers some columns of each row, in its own order. One column may come more than once.
///
/// It copies the values that it answers, and lets the row go. A row takes memory for its values, and for the bytes of each
/// text.
#[derive(Drop)]
pub struct Project {
    columns: Columns,
    /// The row that it still has to answer.
    row: Option<Row>,
    ended: bool,
    /// Whether it was refused memory.
    failed: bool,
}

impl Model for Project {
    ghost use Rattle.std.specs.Prelude.{option_to_list};
    ghost use Rattle.ex_basic.specs.Projects.{Projecting};

    ghost Value = { Projecting };

    ghost view = { λ p. record { columns = p.columns; pending = option_to_list p.row; ended = p.ended; failed = p.failed } };
}

fn value_at(alloc: Global, row: &Row, place: u32) -> Result<Value, AllocError>
    ensures { IfOk result (λ value. value ≡ column row.now place) }
{
    match row.present(place) {
        Some(value) => value.copy(alloc),
        None => Ok(Value::Null),
    }
}

fn chosen(alloc: Global, columns: &[u32], row: &Row) -> Result<Row, AllocError>
    ensures { IfOk result (λ chosen. chosen ≡ key_of columns.now row.now) }
{
    let mut values = Vec::with_capacity(alloc, columns.len())?;
    for place in columns {
        values.push(value_at(alloc, row, *place)?)?;
    }
    Ok(Row::from_vec(values))
}

impl Project {
    /// A project of these columns, each by its position from 0. A column past a row's last one is null.
    #[tactic(auto, using(crate::proofs::Projecting::projected_nothing))]
    pub fn new(columns: Columns) -> Project
        ensures gives { Gives columns result silent [] }
        ensures failed { result.failed ≡ false }
    {
        Project {
            columns,
            row: None,
            ended: false,
            failed: false,
        }
    }

    /// The next row, or that it wants one, or the end. Takes no memory.
    ///
    /// Fails only if a row was refused for want of memory.
    pub fn next(&mut self, _alloc: Global) -> Result<Next, OpNo>
        ensures answers { IfOk result (λ next. (columns : List ℕ)
            → Answers (Gives columns) (project_stream columns) self.old self.new next) }
        ensures wants { IfOk result (λ next. (side : Sides) → next ≡ Wants side → IsWanting side self.new) }
        ensures falls { IfOk result (λ next. NextFalls next (work self.old) (work self.new)) }
        ensures refused { Remembers result self.new.failed }
        ensures takes { IfErr result (λ _. self.old.failed ≡ true) }
        ensures again { self.old.failed ≡ true → (result ≡ Err Memory) × (self.new ≡ self.old) }
    {
        if self.failed {
            return Err(OpNo::Memory);
        }
        match self.row.take() {
            Some(row) => Ok(Next::Row(row)),
            None => Ok(without_row(self.ended)),
        }
    }

    /// Takes the row that it wants, and copies its columns. Fails only if out of memory, and then each time.
    pub fn give(&mut self, alloc: Global, side: Side, row: Row) -> Result<(), OpNo>
        requires { IsWanting side self.old }
        ensures gives { OnOk result ((columns : List ℕ) → Given (Gives columns) self.old self.new row) }
        ensures work { OnOk result (work self.new ≤ work self.old + 1) }
        ensures refused { Remembers result self.new.failed }
        ensures again { self.old.failed ≡ true → (result ≡ Err Memory) × (self.new ≡ self.old) }
    {
        if self.failed {
            return Err(OpNo::Memory);
        }
        match chosen(alloc, self.columns.as_slice(), &row) {
            Ok(row) => {
                self.row = Some(row);
                Ok(())
            }
            Err(_) => {
                self.failed = true;
                Err(OpNo::Memory)
            }
        }
    }

    /// No more rows come.
    pub fn ended(&mut self, side: Side)
        requires { IsWanting side self.old }
        ensures gives { (columns : List ℕ) → Ended (Gives columns) self.old self.new }
        ensures work { work self.new < work self.old }
        ensures failed { self.new.failed ≡ self.old.failed }
    {
        self.ended = true;
    }
}
