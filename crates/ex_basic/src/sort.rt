// The sort.
ghost use Rattle.std.specs.Prelude.{◌≡◌, ◌<◌, ◌≤◌, ◌+◌, List, [], ◌∷◌, true, false, reverse, length, IfOk, IfErr, OnOk, Err};
ghost use Rattle.ic_row.specs.declared.order.Key.{Key as OneKey};
ghost use Rattle.pl_ops.specs.declared.words.Next.TheVariants.{Wants};
ghost use Rattle.pl_ops.specs.declared.words.Side.{Side as Sides};
ghost use Rattle.pl_ops.specs.declared.words.OpNo.TheVariants.{Memory};
ghost use Rattle.pl_ops.specs.Rows.{sort_rows};
ghost use Rattle.pl_ops.specs.Streams.{silent, sort_stream};
ghost use Rattle.pl_ops.specs.Giving.{NextFalls};
ghost use Rattle.ex_basic.specs.Single.{Answers, Given, Ended, Remembers};
ghost use Rattle.ex_basic.specs.Sorts.{Gives, IsWanting, Leaves, work};

use ic_row::{Key, Row, compare};
use pl_ops::{Next, OpNo, Side};
use pl_tree::Keys;
use std::alloc::{AllocError, Global};
use std::marker::Model;

/// A sort: answers the rows by its keys, once each was given. Rows that are equal in the keys come in the order in which
/// they were given. The order is that of `ic_row::compare`.
///
/// It moves rows. n rows take the memory of a list of rows, once more while they are sorted, and some n log n comparisons
/// when the first one is asked for.
#[derive(Drop)]
pub struct Sort {
    keys: Keys,
    /// The rows as they were given; once sorted, those that it still has to answer, the next one last.
    rows: Vec<Row>,
    ended: bool,
    sorted: bool,
    /// Whether it was refused memory.
    failed: bool,
}

impl Model for Sort {
    ghost use Rattle.std.specs.Prelude.{◌≡◌, true};
    ghost use Rattle.ex_basic.specs.Sorts.{Sorting, kept_in};

    ghost Value = { Sorting };

    ghost view = { λ s. record {
      keys = s.keys;
      kept = kept_in s.sorted s.keys s.ended s.rows.items;
      ended = s.ended;
      sorted = s.sorted;
      failed = s.failed;
    } };

    ghost invariant = { λ s. s.sorted ≡ true → s.ended ≡ true };
}

fn sort_by_keys(keys: &[Key], rows: &mut Vec<Row>) -> Result<(), AllocError>
    ensures { OnOk result (rows.new.items ≡ sort_rows keys.now rows.old.items) }
{
    rows.sort_by(|a, b| compare(keys, a, b))
}

fn put_next_last(keys: &[Key], rows: &mut Vec<Row>) -> Result<(), AllocError>
    ensures { OnOk result (reverse rows.new.items ≡ sort_rows keys.now rows.old.items) }
{
    sort_by_keys(keys, rows)?;
    rows.reverse();
    Ok(())
}

fn taken_last(rows: &mut Vec<Row>) -> Next
    ensures { Leaves (reverse rows.old.items) (reverse rows.new.items) result }
{
    match rows.pop() {
        Some(row) => Next::Row(row),
        None => Next::End,
    }
}

impl Sort {
    /// A sort by these keys.
    pub fn new(alloc: Global, keys: Keys) -> Sort
        ensures gives { Gives keys result silent [] }
        ensures failed { result.failed ≡ false }
    {
        Sort {
            keys,
            rows: Vec::new(alloc),
            ended: false,
            sorted: false,
            failed: false,
        }
    }

    /// The next row, or that it wants one, or the end. The first time after the end of its input it sorts its rows.
    ///
    /// Fails only if out of memory, and then each time.
    pub fn next(&mut self, _alloc: Global) -> Result<Next, OpNo>
        ensures answers { IfOk result (λ next. (keys : List OneKey)
            → Answers (Gives keys) (sort_stream keys) self.old self.new next) }
        ensures wants { IfOk result (λ next. (side : Sides) → next ≡ Wants side → IsWanting side self.new) }
        ensures falls { IfOk result (λ next. NextFalls next (work self.old) (work self.new)) }
        ensures refused { Remembers result self.new.failed }
        // Only sorting takes memory, and it is done once.
        ensures takes { IfErr result (λ _. self.old.failed ≡ false
            → (self.old.ended ≡ true) × (self.old.sorted ≡ false)) }
        ensures sorts { IfOk result (λ _. self.old.ended ≡ true → self.new.sorted ≡ true) }
        ensures again { self.old.failed ≡ true → (result ≡ Err Memory) × (self.new ≡ self.old) }
    {
        if self.failed {
            return Err(OpNo::Memory);
        }
        if !self.ended {
            return Ok(Next::Wants(Side::Left));
        }
        if self.sorted {
            return Ok(taken_last(&mut self.rows));
        }
        match put_next_last(self.keys.as_slice(), &mut self.rows) {
            Ok(()) => {
                self.sorted = true;
                Ok(taken_last(&mut self.rows))
            }
            Err(_) => {
                self.failed = true;
                Err(OpNo::Memory)
            }
        }
    }

    /// Takes the row that it wants. Fails only if out of memory, and then each time.
    pub fn give(&mut self, _alloc: Global, side: Side, row: Row) -> Result<(), OpNo>
        requires { IsWanting side self.old }
        ensures gives { OnOk result ((keys : List OneKey) → Given (Gives keys) self.old self.new row) }
        ensures work { OnOk result (work self.new ≤ work self.old + 1) }
        ensures refused { Remembers result self.new.failed }
        ensures again { self.old.failed ≡ true → (result ≡ Err Memory) × (self.new ≡ self.old) }
    {
        if self.failed {
            return Err(OpNo::Memory);
        }
        match self.rows.push(row) {
            Ok(()) => Ok(()),
            Err(_) => {
                self.failed = true;
                Err(OpNo::Memory)
            }
        }
    }

    /// No more rows come.
    pub fn ended(&mut self, side: Side)
        requires { IsWanting side self.old }
        ensures gives { (keys : List OneKey) → Ended (Gives keys) self.old self.new }
        ensures work { work self.new < work self.old }
        ensures failed { self.new.failed ≡ self.old.failed }
    {
        self.ended = true;
    }
}
