// The join.
ghost use Rattle.std.specs.Prelude.{◌≡◌, ◌<◌, ◌++◌, [], ◌∷◌, true, false, map, if◌then◌else◌, List, MatchOption, IfOk, OnOk, OnErr, IfErr, Ok, Err};
ghost use Rattle.pl_tree.specs.declared.node.Pair.{Pair as OnePair};
ghost use Rattle.pl_ops.specs.declared.words.Next.TheVariants.{Wants, End};
ghost use Rattle.pl_ops.specs.declared.words.Side.TheVariants.{Left};
ghost use Rattle.pl_ops.specs.declared.words.Side.{Side as Sides};
ghost use Rattle.pl_ops.specs.declared.words.OpNo.TheVariants.{Memory};
ghost use Rattle.pl_ops.specs.Streams.{silent};
ghost use Rattle.pl_ops.specs.Giving.{NextFalls};
ghost use Rattle.ex_join.specs.Matches.{Finds, Looks, Keeps};
ghost use Rattle.ex_join.specs.Joins.{Gives, Answers, IsWanting, Given, Ended, GivenWork, work};

use crate::table::Table;
use ex_key::RowKey;
use ic_row::Row;
use pl_ops::{Next, OpNo, Side};
use pl_tree::{Columns, Pairs};
use sqlite_items::Items;
use std::alloc::{AllocError, Global};
use std::marker::Model;

/// A join by pairs of columns, seen as what it was told, its right rows by their keys, and the output rows of the left row
/// at hand. SQL's inner join: a null is equal to nothing, and without pairs each left row meets each right row.
///
/// ```text
/// next: Wants(Right) .. give(Right), ended(Right), next: Wants(Left) .. give(Left), next: Row .., ended(Left), next: End
/// ```
#[derive(Drop)]
pub struct HashJoin {
    left_columns: Columns,
    right_columns: Columns,
    /// Only for the room of an output row.
    right_width: u32,
    table: Table,
    /// The left row at hand.
    row: Option<Row>,
    /// The place of its matches in the table, from 0.
    at: usize,
    /// Which of them is the next, from 0.
    next: usize,
    left_ended: bool,
    right_ended: bool,
    failed: bool,
}

impl Model for HashJoin {
    ghost use Rattle.ex_join.specs.Joins.{Joining, pending_of};

    ghost Value = { Joining };

    ghost view = { λ j. record { left_columns = j.left_columns; right_columns = j.right_columns; table = j.table; pending = pending_of j.row j.table j.at j.next; left_ended = j.left_ended; right_ended = j.right_ended; failed = j.failed } };
}

fn left_columns(alloc: Global, pairs: &Pairs) -> Result<Columns, AllocError>
    ensures { IfOk result (λ columns. columns ≡ map (λ p. p.left) pairs.now) }
{
    let mut columns = Vec::with_capacity(alloc, pairs.len())?;
    for pair in pairs.as_slice() {
        columns.push(pair.left)?;
    }
    Ok(Items::from_vec(columns))
}

fn right_columns(alloc: Global, pairs: &Pairs) -> Result<Columns, AllocError>
    ensures { IfOk result (λ columns. columns ≡ map (λ p. p.right) pairs.now) }
{
    let mut columns = Vec::with_capacity(alloc, pairs.len())?;
    for pair in pairs.as_slice() {
        columns.push(pair.right)?;
    }
    Ok(Items::from_vec(columns))
}

/// The values of both rows, copied into memory of their own.
fn joined(alloc: Global, width: u32, left: &Row, right: &Row) -> Result<Row, AllocError>
    ensures { IfOk result (λ row. row ≡ left.now ++ right.now) }
{
    let mut values = Vec::with_capacity(alloc, left.len().saturating_add(width as usize))?;
    for value in left.as_slice() {
        values.push(value.copy(alloc)?)?;
    }
    for behind in right.as_slice() {
        values.push(behind.copy(alloc)?)?;
    }
    Ok(Row::from_vec(values))
}

/// The output row of the next match.
fn next_match(
    alloc: Global,
    width: u32,
    left: &Row,
    matches: &[Row],
    next: usize,
) -> Result<Option<Row>, AllocError>
    ensures { IfOk result (Finds left.now matches.now next) }
{
    match matches.get(next) {
        Some(right) => Ok(Some(joined(alloc, width, left, right)?)),
        None => Ok(None),
    }
}

/// The answer of a join that has no left row at hand, once its right side has ended.
fn without_row(left_ended: bool) -> Next
    ensures { result ≡ (if left_ended then End else Wants Left) }
{
    if left_ended {
        Next::End
    } else {
        Next::Wants(Side::Left)
    }
}

/// The place in the table of a left row's matches.
fn looked_up(
    alloc: Global,
    columns: &[u32],
    table: &Table,
    row: &Row,
) -> Result<Option<usize>, AllocError>
    ensures { IfOk result (Looks columns.now table.now row.now) }
{
    let key = RowKey::of(alloc, columns, row)?;
    if key.has_null() {
        return Ok(None);
    }
    Ok(table.find(&key))
}

/// Puts a right row after those of its key. One whose key has a null meets nothing, and is dropped.
fn kept(alloc: Global, columns: &[u32], table: &mut Table, row: Row) -> Result<(), AllocError>
    ensures { OnOk result (Keeps columns.now table.old table.new row) }
{
    let key = RowKey::of(alloc, columns, &row)?;
    if key.has_null() {
        return Ok(());
    }
    table.put(alloc, key, row)
}

impl HashJoin {
    /// A join by these pairs of columns. Right rows have `right_width` values; this number only sets aside the room of an
    /// output row, and another one changes no answer.
    pub fn new(alloc: Global, pairs: Pairs, right_width: u32) -> Result<HashJoin, AllocError>
        ensures gives { IfOk result (λ j. Gives pairs j silent silent []) }
        ensures fresh { IfOk result (λ j. (j.table ≡ []) × (j.failed ≡ false)) }
    {
        Ok(HashJoin {
            left_columns: left_columns(alloc, &pairs)?,
            right_columns: right_columns(alloc, &pairs)?,
            right_width,
            table: Table::new(alloc),
            row: None,
            at: 0,
            next: 0,
            left_ended: false,
            right_ended: false,
            failed: false,
        })
    }

    /// The next output row, or the side of which it wants a row: the right side until that has ended, then the left side.
    /// Copies the values of an output row, each text once; an answer that is no row takes no memory. After a refusal
    /// each further `next` and `give` answers the same.
    pub fn next(&mut self, alloc: Global) -> Result<Next, OpNo>
        ensures answers { IfOk result (λ next. (on : List OnePair) → Answers on self.old self.new next) }
        ensures wants { IfOk result (λ next. (side : Sides) → next ≡ Wants side → IsWanting side self.new) }
        ensures falls { IfOk result (λ next. NextFalls next (work self.old) (work self.new)) }
        ensures table { self.new.table ≡ self.old.table }
        ensures refused { IfErr result (λ no. (no ≡ Memory) × (self.new.failed ≡ true)) }
        ensures again { self.old.failed ≡ true → (result ≡ Err Memory) × (self.new ≡ self.old) }
    {
        if self.failed {
            return Err(OpNo::Memory);
        }
        if !self.right_ended {
            self.row = None;
            return Ok(Next::Wants(Side::Right));
        }
        let Some(left) = &self.row else {
            return Ok(without_row(self.left_ended));
        };
        match next_match(
            alloc,
            self.right_width,
            left,
            self.table.at(self.at),
            self.next,
        ) {
            Ok(Some(row)) => {
                self.next += 1;
                Ok(Next::Row(row))
            }
            Ok(None) => {
                self.row = None;
                Ok(without_row(self.left_ended))
            }
            Err(_) => Err(self.refuse()),
        }
    }

    /// Takes a row of the side that `next` wants. Copies the values of the row's key, each text once, and hashes the key;
    /// a right row that is the first with its key hashes it once more.
    pub fn give(&mut self, alloc: Global, side: Side, row: Row) -> Result<(), OpNo>
        requires { IsWanting side self.old }
        ensures gives { OnOk result ((on : List OnePair) → Given side on self.old self.new row) }
        ensures work { OnOk result (GivenWork side self.old self.new) }
        ensures refused { IfErr result (λ no. (no ≡ Memory) × (self.new.failed ≡ true)) }
        ensures again { self.old.failed ≡ true → (result ≡ Err Memory) × (self.new ≡ self.old) }
    {
        if self.failed {
            return Err(OpNo::Memory);
        }
        match side {
            Side::Left => match looked_up(alloc, self.left_columns.as_slice(), &self.table, &row) {
                Ok(Some(at)) => {
                    self.row = Some(row);
                    self.at = at;
                    self.next = 0;
                    Ok(())
                }
                Ok(None) => {
                    self.row = None;
                    Ok(())
                }
                Err(_) => Err(self.refuse()),
            },
            Side::Right => {
                self.row = None;
                match kept(alloc, self.right_columns.as_slice(), &mut self.table, row) {
                    Ok(()) => Ok(()),
                    Err(_) => Err(self.refuse()),
                }
            }
        }
    }

    /// No more rows of the side that `next` wants come. Takes no memory.
    pub fn ended(&mut self, side: Side)
        requires { IsWanting side self.old }
        ensures gives { (on : List OnePair) → Ended side on self.old self.new }
        ensures work { (work self.new < work self.old) × (self.new.table ≡ self.old.table) }
        ensures refused { self.new.failed ≡ self.old.failed }
    {
        match side {
            Side::Left => self.left_ended = true,
            Side::Right => self.right_ended = true,
        }
    }

    /// Notes that memory was refused, for all later calls.
    fn refuse(&mut self) -> OpNo
        ensures value { result ≡ Memory }
        ensures failed { self.new.failed ≡ true }
        ensures table { self.new.table ≡ self.old.table }
    {
        self.failed = true;
        OpNo::Memory
    }
}
