// Groups with their results.
ghost use Rattle.std.specs.Prelude.{◌≡◌, ◌+◌, ◌<◌, ◌^◌, [], ◌∷◌, ◌++◌, List, length, map, slice_get, IfOk, IfErr, OnOk};
ghost use Rattle.std.specs.Option.{option_map};
ghost use Rattle.indexmap.specs.IndexMap.{insert_entry, set_value_at};
ghost use Rattle.pl_ops.specs.declared.words.OpNo.TheVariants.{Overflow};
ghost use Rattle.pl_ops.specs.Groups.{same_line, value_of_none};
ghost use Rattle.ex_agg.specs.Calls.{HaveRoom, renewed};
ghost use Rattle.ex_agg.specs.Grouped.{results_of_key, results_at, whole};

use crate::results::{nothing, renew};
use ex_key::RowKey;
use ic_row::{Row, Value};
use indexmap::IndexMap;
use pl_ops::OpNo;
use pl_tree::Call;
use sqlite_items::Items;
use std::alloc::{AllocError, Global};
use std::marker::Model;

/// Groups in the order of their first rows, seen as each key with the results of its group.
#[derive(Drop)]
pub struct Groups {
    of: IndexMap<RowKey, Items<Value>>,
}

impl Model for Groups {
    ghost use Rattle.std.specs.Prelude.{List};
    ghost use Rattle.ic_row.specs.Values.{Datum};

    ghost Value = { List (List Datum × List Datum) };

    ghost view = { λ g. g.of.entries };
}

fn renew_group(
    alloc: Global,
    is_final: bool,
    first: u32,
    calls: &[Call],
    groups: &mut IndexMap<RowKey, Items<Value>>,
    at: usize,
    row: &Row,
) -> Result<(), OpNo>
    requires narrow { first + length calls.now < 2 ^ 32 }
    requires within { at < length groups.old.entries }
    ensures ok { OnOk result (groups.new.entries ≡ set_value_at groups.old.entries at (renewed is_final first calls.now (results_at groups.old.entries at) row.now)) }
    ensures room { OnOk result (HaveRoom calls.now (renewed is_final first calls.now (results_at groups.old.entries at) row.now)) }
    ensures over { IfErr result (λ no. no ≡ Overflow → HaveRoom calls.now (renewed is_final first calls.now (results_at groups.old.entries at) row.now) → ⊥) }
{
    match groups.get_index_mut(at) {
        Some(values) => renew(alloc, is_final, first, calls, values, row),
        None => Ok(()),
    }
}

impl Groups {
    /// No group. Takes no memory.
    pub fn new(alloc: Global) -> Groups
        ensures { result ≡ [] }
    {
        Groups {
            of: IndexMap::new(alloc),
        }
    }

    /// The one group of an aggregate without group columns, over nothing.
    pub fn single(alloc: Global, calls: &[Call]) -> Result<Groups, AllocError>
        ensures { IfOk result (λ groups. groups ≡ ([], map value_of_none calls.now) ∷ []) }
    {
        let mut of = IndexMap::new(alloc);
        of.insert(RowKey::empty(alloc), nothing(alloc, calls)?)?;
        Ok(Groups { of })
    }

    /// Adds a row to the group of its key, by one look-up. A new group comes after the others, by one look-up more.
    pub fn add(
        &mut self,
        alloc: Global,
        is_final: bool,
        first: u32,
        calls: &[Call],
        key: RowKey,
        row: &Row,
    ) -> Result<(), OpNo>
        requires { first + length calls.now < 2 ^ 32 }
        ensures ok { OnOk result (self.new ≡ insert_entry same_line self.old key (renewed is_final first calls.now (results_of_key calls.now self.old key) row.now)) }
        ensures room { OnOk result (HaveRoom calls.now (renewed is_final first calls.now (results_of_key calls.now self.old key) row.now)) }
        ensures over { IfErr result (λ no. no ≡ Overflow → HaveRoom calls.now (renewed is_final first calls.now (results_of_key calls.now self.old key) row.now) → ⊥) }
    {
        match self.of.get_index_of(&key) {
            Some(at) => renew_group(alloc, is_final, first, calls, &mut self.of, at, row),
            None => {
                let mut values = nothing(alloc, calls)?;
                renew(alloc, is_final, first, calls, &mut values, row)?;
                self.of.insert(key, values)?;
                Ok(())
            }
        }
    }

    /// How many groups there are.
    pub fn len(&self) -> usize
        ensures { result ≡ length self.now }
    {
        self.of.len()
    }

    /// The row of a group, by its place from 0, with copies of its values. `None` past the last.
    pub fn row(&self, alloc: Global, at: usize) -> Result<Option<Row>, AllocError>
        ensures { IfOk result (λ row. row ≡ option_map whole (slice_get self.now at)) }
    {
        match self.of.get_index(at) {
            Some((key, values)) => Ok(Some(joined_row(alloc, key, values)?)),
            None => Ok(None),
        }
    }
}

fn joined_row(alloc: Global, key: &RowKey, values: &Items<Value>) -> Result<Row, AllocError>
    ensures { IfOk result (λ row. row ≡ key.now ++ values.now) }
{
    let mut all = Vec::with_capacity(alloc, key.as_slice().len().saturating_add(values.len()))?;
    for value in key.as_slice() {
        all.push(value.copy(alloc)?)?;
    }
    for found in values.as_slice() {
        all.push(found.copy(alloc)?)?;
    }
    Ok(Row::from_vec(all))
}
