// How large plans and tables are.
ghost use Rattle.std.specs.Prelude.{◌≡◌, ◌↔◌, ◌<◌, ◌≤◌, min, length, IsTrue};
ghost use Rattle.std.specs.List.{AllByRecursion};
ghost use Rattle.pl_tree.specs.Trees.{tree_of, tree_in, nodes_in};
ghost use Rattle.pl_tree.specs.Sizes.{HasSizes, IsPlan, IsPlaced, IsTable, AreTables};

use crate::node::{Node, Plan, Stage};
use crate::schema::{Placing, Schema};

/// How many nodes there are, or the greatest number if there are more.
fn nodes(node: &Node) -> usize
    ensures { result ≡ min (nodes_in (tree_of node.now)) 18446744073709551615 }
{
    match node {
        Node::Scan { table: _ } => 1,
        Node::Filter { test: _, child } => nodes(child.get()).saturating_add(1),
        Node::Project { columns: _, child } => nodes(child.get()).saturating_add(1),
        Node::Limit { count: _, child } => nodes(child.get()).saturating_add(1),
        Node::Sort { keys: _, child } => nodes(child.get()).saturating_add(1),
        Node::Join {
            left,
            right,
            pairs: _,
        } => nodes(left.get())
            .saturating_add(nodes(right.get()))
            .saturating_add(1),
        Node::Agg {
            stage: Stage::Single { group: _, calls: _ },
            child,
        } => nodes(child.get()).saturating_add(1),
        Node::Agg {
            stage: Stage::Partial { group: _, calls: _ },
            child,
        } => nodes(child.get()).saturating_add(1),
        Node::Agg {
            stage: Stage::Final,
            child,
        } => nodes(child.get()).saturating_add(1),
        Node::Gather { order: _, child } => nodes(child.get()).saturating_add(1),
        Node::Redistribute { keys: _, child } => nodes(child.get()).saturating_add(1),
        Node::Broadcast { child } => nodes(child.get()).saturating_add(1),
    }
}

fn has_sizes(node: &Node) -> bool
    ensures { IsTrue result ↔ HasSizes (tree_of node.now) }
{
    match node {
        Node::Scan { table: _ } => true,
        Node::Filter { test, child } => test.size() <= 256 && has_sizes(child.get()),
        Node::Project { columns, child } => columns.len() <= 1024 && has_sizes(child.get()),
        Node::Limit { count: _, child } => has_sizes(child.get()),
        Node::Sort { keys: _, child } => has_sizes(child.get()),
        Node::Join {
            left,
            right,
            pairs: _,
        } => has_sizes(left.get()) && has_sizes(right.get()),
        Node::Agg {
            stage: Stage::Single { group, calls },
            child,
        } => group.len() <= 1024 && calls.len() <= 1024 && has_sizes(child.get()),
        Node::Agg {
            stage: Stage::Partial { group, calls },
            child,
        } => group.len() <= 1024 && calls.len() <= 1024 && has_sizes(child.get()),
        Node::Agg {
            stage: Stage::Final,
            child,
        } => has_sizes(child.get()),
        Node::Gather { order: _, child } => has_sizes(child.get()),
        Node::Redistribute { keys: _, child } => has_sizes(child.get()),
        Node::Broadcast { child } => has_sizes(child.get()),
    }
}

impl Plan {
    /// Whether it is as small as plans are: at most 64 nodes, 1024 columns and calls in each list, and 256 expressions
    /// and operands in each predicate.
    pub fn fits(&self) -> bool
        ensures { IsTrue result ↔ IsPlan (tree_in self.now) }
    {
        nodes(&self.root) <= 64 && has_sizes(&self.root)
    }
}

fn all_below(width: usize, columns: &[u32]) -> bool
    ensures { IsTrue result ↔ AllByRecursion (λ c. c < width) columns.now }
{
    for column in columns {
        if *column as usize >= width {
            return false;
        }
    }
    true
}

fn is_placed(width: usize, place: &Placing) -> bool
    ensures { IsTrue result ↔ IsPlaced width place.now }
{
    match place {
        Placing::Keyed(columns) => !columns.is_empty() && all_below(width, columns.as_slice()),
        Placing::Dealt => true,
        Placing::Everywhere => true,
    }
}

impl Schema {
    /// Whether it is as tables are: at most 256 columns, and a key, if there is one, of some of them.
    pub fn fits(&self) -> bool
        ensures { IsTrue result ↔ IsTable self.now }
    {
        self.kinds.len() <= 256 && is_placed(self.kinds.len(), &self.place)
    }
}

/// Whether each is as tables are.
pub fn all_fit(schemas: &[Schema]) -> bool
    ensures { IsTrue result ↔ AreTables schemas.now }
{
    for schema in schemas {
        if !schema.fits() {
            return false;
        }
    }
    true
}
