// The columns that a node gives.
ghost use Rattle.std.specs.Prelude.{◌≡◌, ◌++◌, IfOk};
ghost use Rattle.pl_tree.specs.Trees.{tree_of};
ghost use Rattle.pl_tree.specs.Columns.{table_kinds, kinds_of, schema_named};

use ic_base::Text;
use pl_tree::{
    Kinds, Node, Schema, Stage, aggregate_kinds, chosen_kinds, copy_kinds, schema_named,
};
use sqlite_items::Items;
use std::alloc::{AllocError, Global};

/// The kinds of a table's columns.
fn kinds_in_table(alloc: Global, table: &Text, schemas: &[Schema]) -> Result<Kinds, AllocError>
    ensures { IfOk result (λ kinds. kinds ≡ table_kinds (schema_named table.now schemas.now)) }
{
    match schema_named(table, schemas) {
        Some(schema) => copy_kinds(alloc, schema.kinds.as_slice()),
        None => Ok(Items::new(alloc)),
    }
}

/// The kinds of the columns of both sides, left before right.
fn beside(left: Kinds, right: Kinds) -> Result<Kinds, AllocError>
    ensures { IfOk result (λ kinds. kinds ≡ left ++ right) }
{
    let mut kinds = left;
    kinds.append(right)?;
    Ok(kinds)
}

/// The kinds of a node's columns. Asks each node below it once.
pub fn kinds_given(alloc: Global, node: &Node, schemas: &[Schema]) -> Result<Kinds, AllocError>
    ensures { IfOk result (λ kinds. kinds ≡ kinds_of schemas.now (tree_of node.now)) }
{
    match node {
        Node::Scan { table } => kinds_in_table(alloc, table, schemas),
        Node::Filter { test: _, child } => kinds_given(alloc, child.get(), schemas),
        Node::Project { columns, child } => {
            let kinds = kinds_given(alloc, child.get(), schemas)?;
            chosen_kinds(alloc, kinds.as_slice(), columns.as_slice())
        }
        Node::Limit { count: _, child } => kinds_given(alloc, child.get(), schemas),
        Node::Sort { keys: _, child } => kinds_given(alloc, child.get(), schemas),
        Node::Join {
            left,
            right,
            pairs: _,
        } => {
            let kinds = kinds_given(alloc, left.get(), schemas)?;
            beside(kinds, kinds_given(alloc, right.get(), schemas)?)
        }
        Node::Agg {
            stage: Stage::Single { group, calls },
            child,
        } => {
            let kinds = kinds_given(alloc, child.get(), schemas)?;
            aggregate_kinds(alloc, kinds.as_slice(), group.as_slice(), calls.as_slice())
        }
        Node::Agg {
            stage: Stage::Partial { group, calls },
            child,
        } => {
            let kinds = kinds_given(alloc, child.get(), schemas)?;
            aggregate_kinds(alloc, kinds.as_slice(), group.as_slice(), calls.as_slice())
        }
        Node::Agg {
            stage: Stage::Final,
            child,
        } => kinds_given(alloc, child.get(), schemas),
        Node::Gather { order: _, child } => kinds_given(alloc, child.get(), schemas),
        Node::Redistribute { keys: _, child } => kinds_given(alloc, child.get(), schemas),
        Node::Broadcast { child } => kinds_given(alloc, child.get(), schemas),
    }
}
