// The aggregate.
ghost use Rattle.std.specs.Prelude.{◌≡◌, ◌<◌, ◌≤◌, ◌+◌, ◌^◌, [], true, false, Bool, ℕ, List, length, map, Option, Some, None, IfOk, IfErr, OnOk, Err};
ghost use Rattle.std.specs.List.{AllByRecursion};
ghost use Rattle.ic_row.specs.Values.{key_of};
ghost use Rattle.indexmap.specs.IndexMap.{insert_entry};
ghost use Rattle.pl_ops.specs.declared.words.Next.TheVariants.{Wants};
ghost use Rattle.pl_ops.specs.declared.words.Side.{Side as Sides};
ghost use Rattle.pl_ops.specs.declared.words.OpNo.{OpNo as Whys};
ghost use Rattle.pl_ops.specs.declared.words.OpNo.TheVariants.{Memory, Overflow};
ghost use Rattle.pl_ops.specs.Groups.{columns_from, same_line, value_of_none};
ghost use Rattle.pl_ops.specs.Streams.{silent};
ghost use Rattle.pl_ops.specs.Overflow.{HasRoom};
ghost use Rattle.pl_ops.specs.Giving.{NextFalls};
ghost use Rattle.ex_agg.specs.Calls.{HaveRoom, renewed};
ghost use Rattle.ex_agg.specs.Grouped.{key_columns, results_of_key, groups_of};
ghost use Rattle.ex_agg.specs.Parts.{is_final};
ghost use Rattle.ex_agg.specs.Aggs.{Gives, Answers, IsWanting, Given, IsTooMuch, Ended, work};

use crate::groups::Groups;
use ex_key::RowKey;
use ic_row::Row;
use pl_ops::{Next, OpNo, Side};
use pl_tree::{Call, Calls, Columns};
use sqlite_items::Items;
use std::alloc::{AllocError, Global};
use std::marker::Model;

/// How far an aggregate goes.
#[derive(Clone, Copy, Debug, PartialEq, Eq)]
pub enum AggPart {
    /// Rows in, whole groups out.
    Single,
    /// Rows in, what one place has of each group out: of the same rows the same as a single.
    Partial,
    /// Rows of partials in, whole groups out. A null in the place of a result is absent.
    Final,
}

/// An aggregate, seen as what it was told, its groups with their results, and the output rows that weren't answered yet.
/// Groups come in the order of their first rows.
///
/// ```text
/// next: Wants(Left) .. give(Left), ended(Left), next: Row .., End
/// ```
#[derive(Drop)]
pub struct Agg {
    is_final: bool,
    /// The columns of the key in the rows given.
    columns: Columns,
    /// The column of the first result in the rows of a partial.
    first: u32,
    calls: Calls,
    groups: Groups,
    /// The place of the next group to answer, from 0. It is 0 until the input has ended.
    next: usize,
    ended: bool,
    refused: Option<OpNo>,
}

impl Model for Agg {
    ghost use Rattle.std.specs.Prelude.{map, drop};
    ghost use Rattle.ex_agg.specs.Aggs.{Grouping};
    ghost use Rattle.ex_agg.specs.Grouped.{whole};
    ghost use Rattle.ex_agg.specs.Inside.{IsSound};

    ghost Value = { Grouping };

    ghost view = { λ g. record { final = g.is_final; columns = g.columns; first = g.first; calls = g.calls; groups = g.groups; pending = map whole (drop g.next g.groups); ended = g.ended; refused = g.refused } };

    ghost invariant = { IsSound };
}

fn final_part(part: AggPart) -> bool
    ensures { result ≡ is_final part }
{
    matches!(part, AggPart::Final)
}

/// The first columns, as many as this.
fn first_columns(alloc: Global, count: u32) -> Result<Columns, AllocError>
    ensures { IfOk result (λ columns. columns ≡ columns_from 0 count) }
{
    let mut columns = Vec::with_capacity(alloc, count as usize)?;
    for place in 0..count {
        columns.push(place)?;
    }
    Ok(Items::from_vec(columns))
}

/// The columns of the key in the rows given: those of the group, and in the rows of a partial the first.
fn columns_of_key(alloc: Global, final_rows: bool, group: Columns) -> Result<Columns, AllocError>
    requires { length group < 2 ^ 32 }
    ensures { IfOk result (λ columns. columns ≡ key_columns final_rows group) }
{
    if final_rows {
        return first_columns(alloc, group.len() as u32);
    }
    Ok(group)
}

/// The groups of no rows: one if there are no group columns.
fn first_groups(alloc: Global, group: &Columns, calls: &[Call]) -> Result<Groups, AllocError>
    ensures { IfOk result (λ groups. (final : Bool) (first : ℕ) → groups ≡ groups_of final first (key_columns final group.now) calls.now []) }
{
    if group.is_empty() {
        return Groups::single(alloc, calls);
    }
    Ok(Groups::new(alloc))
}

/// Adds a row to the group of its key.
fn added(
    alloc: Global,
    final_rows: bool,
    first: u32,
    columns: &[u32],
    calls: &[Call],
    groups: &mut Groups,
    row: &Row,
) -> Result<(), OpNo>
    requires { first + length calls.now < 2 ^ 32 }
    ensures ok { OnOk result (groups.new ≡ insert_entry same_line groups.old (key_of columns.now row.now) (renewed final_rows first calls.now (results_of_key calls.now groups.old (key_of columns.now row.now)) row.now)) }
    ensures room { OnOk result (HaveRoom calls.now (renewed final_rows first calls.now (results_of_key calls.now groups.old (key_of columns.now row.now)) row.now)) }
    ensures key { OnOk result (AllByRecursion HasRoom (key_of columns.now row.now)) }
    ensures over { IfErr result (λ no. no ≡ Overflow → HaveRoom calls.now (renewed final_rows first calls.now (results_of_key calls.now groups.old (key_of columns.now row.now)) row.now) → ⊥) }
{
    let key = RowKey::of(alloc, columns, row)?;
    groups.add(alloc, final_rows, first, calls, key, row)
}

impl Agg {
    /// An aggregate with these group columns and calls. For a final both are its partial's, and its rows are the rows of
    /// that partial. Together they are to be fewer than 2 ^ 32: a plan that `fits` has at most 1024 of each.
    pub fn new(
        alloc: Global,
        part: AggPart,
        group: Columns,
        calls: Calls,
    ) -> Result<Agg, AllocError>
        requires { length group + length calls < 2 ^ 32 }
        ensures gives { IfOk result (λ g. Gives (is_final part) group calls g silent []) }
        ensures fresh { IfOk result (λ g. g.refused ≡ None) }
    {
        let is_final = final_part(part);
        let first = group.len() as u32;
        let groups = first_groups(alloc, &group, calls.as_slice())?;
        let columns = columns_of_key(alloc, is_final, group)?;
        Ok(Agg {
            is_final,
            columns,
            first,
            calls,
            groups,
            next: 0,
            ended: false,
            refused: None,
        })
    }

    /// The next group's row; until the input has ended, that it wants a row. Copies the values of the row, each text once;
    /// an answer that is no row takes no memory. After a refusal each further `next` and `give` answers the same.
    pub fn next(&mut self, alloc: Global) -> Result<Next, OpNo>
        ensures answers { IfOk result (λ next. Answers self.old self.new next) }
        ensures wants { IfOk result (λ next. (side : Sides) → next ≡ Wants side → IsWanting side self.new) }
        ensures falls { IfOk result (λ next. NextFalls next (work self.old) (work self.new)) }
        ensures memory { IfErr result (λ no. self.old.refused ≡ None → no ≡ Memory) }
        ensures refused { IfErr result (λ no. self.new.refused ≡ Some no) }
        ensures goes_on { OnOk result (self.new.refused ≡ None) }
        ensures again { (why : Whys) → self.old.refused ≡ Some why → (result ≡ Err why) × (self.new ≡ self.old) }
    {
        if let Some(no) = self.refused {
            return Err(no);
        }
        if !self.ended {
            return Ok(Next::Wants(Side::Left));
        }
        if self.next >= self.groups.len() {
            return Ok(Next::End);
        }
        match self.groups.row(alloc, self.next) {
            Ok(Some(row)) => {
                self.next += 1;
                Ok(Next::Row(row))
            }
            Ok(None) => Ok(Next::End),
            Err(_) => {
                self.refused = Some(OpNo::Memory);
                Err(OpNo::Memory)
            }
        }
    }

    /// Takes a row. Copies the values of its key, and those that become a least or a greatest value, each text once; hashes
    /// the key, and once more if it is the first of its group. Answers Overflow if the row makes a count pass 64 bits or a
    /// sum 128 bits.
    pub fn give(&mut self, alloc: Global, side: Side, row: Row) -> Result<(), OpNo>
        requires { IsWanting side self.old }
        ensures gives { OnOk result (Given self.old self.new row) }
        ensures work { OnOk result (work self.new ≤ work self.old + 1) }
        ensures over { IfErr result (λ no. no ≡ Overflow → self.old.refused ≡ None → IsTooMuch self.old row) }
        ensures refused { IfErr result (λ no. self.new.refused ≡ Some no) }
        ensures goes_on { OnOk result (self.new.refused ≡ None) }
        ensures again { (why : Whys) → self.old.refused ≡ Some why → (result ≡ Err why) × (self.new ≡ self.old) }
    {
        if let Some(no) = self.refused {
            return Err(no);
        }
        match added(
            alloc,
            self.is_final,
            self.first,
            self.columns.as_slice(),
            self.calls.as_slice(),
            &mut self.groups,
            &row,
        ) {
            Ok(()) => Ok(()),
            Err(no) => {
                self.refused = Some(no);
                Err(no)
            }
        }
    }

    /// No more rows come. Takes no memory.
    pub fn ended(&mut self, side: Side)
        requires { IsWanting side self.old }
        ensures gives { Ended self.old self.new }
        ensures work { work self.new < work self.old }
        ensures refused { self.new.refused ≡ self.old.refused }
    {
        self.ended = true;
    }
}
