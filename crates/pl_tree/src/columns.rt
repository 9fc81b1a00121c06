// The kinds of a node's columns.
ghost use Rattle.std.specs.Prelude.{◌≡◌, ◌++◌, map, IfOk};
ghost use Rattle.std.specs.Option.{option_copied};
ghost use Rattle.pl_tree.specs.Columns as spec;

use crate::node::Call;
use crate::schema::{Kinds, Schema};
use ic_base::Text;
use ic_row::Kind;
use sqlite_items::Items;
use std::alloc::{AllocError, Global};

fn is_same(a: &Text, b: &Text) -> bool
    ensures { result ≡ spec.same_text a.now b.now }
{
    a.as_str() == b.as_str()
}

/// The table of this name. Takes no memory.
pub fn schema_named<'a>(name: &Text, schemas: &'a [Schema]) -> Option<&'a Schema>
    ensures { option_copied result ≡ spec.schema_named name.now schemas.now }
{
    for schema in schemas {
        if is_same(&schema.name, name) {
            return Some(schema);
        }
    }
    None
}

fn kind_at(kinds: &[Kind], column: u32) -> Kind
    ensures { result ≡ spec.kind_at kinds.now column }
{
    match kinds.get(column as usize) {
        Some(kind) => *kind,
        None => Kind::Int,
    }
}

fn call_kind(kinds: &[Kind], call: Call) -> Kind
    ensures { result ≡ spec.call_kind kinds.now call }
{
    match call {
        Call::Count | Call::CountOf(_) => Kind::Int,
        Call::Sum(_) => Kind::Wide,
        Call::Min(column) | Call::Max(column) => kind_at(kinds, column),
    }
}

/// The same kinds again, in memory of their own.
pub fn copy_kinds(alloc: Global, kinds: &[Kind]) -> Result<Kinds, AllocError>
    ensures { IfOk result (λ x. x ≡ kinds.now) }
{
    Items::from_slice(alloc, kinds)
}

/// The kinds of some columns. A column past the last, which no sound plan names, counts as an int.
pub fn chosen_kinds(alloc: Global, kinds: &[Kind], columns: &[u32]) -> Result<Kinds, AllocError>
    ensures { IfOk result (λ x. x ≡ spec.chosen_kinds kinds.now columns.now) }
{
    let mut chosen = Items::new(alloc);
    for column in columns {
        chosen.push(kind_at(kinds, *column))?;
    }
    Ok(chosen)
}

fn call_kinds(alloc: Global, kinds: &[Kind], calls: &[Call]) -> Result<Kinds, AllocError>
    ensures { IfOk result (λ x. x ≡ map (spec.call_kind kinds.now) calls.now) }
{
    let mut results = Items::new(alloc);
    for call in calls {
        results.push(call_kind(kinds, *call))?;
    }
    Ok(results)
}

/// The kinds of what an aggregate gives: of the group's columns, and of each call's result.
pub fn aggregate_kinds(
    alloc: Global,
    kinds: &[Kind],
    group: &[u32],
    calls: &[Call],
) -> Result<Kinds, AllocError>
    ensures { IfOk result (λ x. x ≡ spec.aggregate_kinds kinds.now group.now calls.now) }
{
    let mut all = chosen_kinds(alloc, kinds, group)?;
    all.append(call_kinds(alloc, kinds, calls)?)?;
    Ok(all)
}
