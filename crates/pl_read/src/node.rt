// Nodes of a plan.
ghost use Rattle.std.specs.Prelude.{◌≡◌, map, codes};
ghost use Rattle.serde_json.specs.View.{view};
ghost use Rattle.pl_read.specs.Paths.{path_of};
ghost use Rattle.pl_read.specs.Faults.{Gives};
ghost use Rattle.pl_read.specs.Members.{needed};
ghost use Rattle.pl_read.specs.Nodes as spec;

use crate::expr::expr_at;
use crate::fault::{DocNo, Flaw};
use crate::list::{Element, list_at, list_if_there, list_in};
use crate::member::{object_at, only, required};
use crate::place::Place;
use crate::size::room_after_node;
use crate::value::{number_in, text_at};
use ic_base::Text;
use pl_expr::Expr;
use pl_tree::{Columns, Keys, Node, Plan, Stage};
use serde_json::Value;
use sqlite_items::{Boxed, Items};
use std::alloc::Global;

/// The most expressions and operands of a filter.
const MOST_ENTRIES: usize = 256;

/// The most nodes of a plan.
const MOST_NODES: u32 = 64;

/// The greatest count of a limit.
const LAST_COUNT: u64 = 9223372036854775807;

/// The most plans of a document.
const MOST_PLANS: usize = 64;

/// The plans of a document.
pub type Plans = Items<Plan>;

/// What a node is, by its word, and by its stage if it is an aggregate.
#[derive(Clone, Copy, Debug, PartialEq, Eq)]
pub(crate) enum Shape {
    Scan,
    Join,
    Over(Upper),
}

/// A node over one other.
#[derive(Clone, Copy, Debug, PartialEq, Eq)]
pub(crate) enum Upper {
    Filter,
    Project,
    Limit,
    Sort,
    Single,
    Partial,
    Final,
    Gather,
    Redistribute,
    Broadcast,
}

/// The word of a node.
#[derive(Clone, Copy, Debug, PartialEq, Eq)]
pub(crate) enum Op {
    Is(Shape),
    /// Its stage says the rest.
    Agg,
}

fn op_at(alloc: Global, place: Place<'_>, value: &Value) -> Result<Op, DocNo>
    ensures { Gives (λ x. x) result (spec.op_at (path_of place.entry) (view value.now)) }
{
    match text_at(alloc, place, value)? {
        "scan" => Ok(Op::Is(Shape::Scan)),
        "filter" => Ok(Op::Is(Shape::Over(Upper::Filter))),
        "project" => Ok(Op::Is(Shape::Over(Upper::Project))),
        "limit" => Ok(Op::Is(Shape::Over(Upper::Limit))),
        "sort" => Ok(Op::Is(Shape::Over(Upper::Sort))),
        "join" => Ok(Op::Is(Shape::Join)),
        "agg" => Ok(Op::Agg),
        "gather" => Ok(Op::Is(Shape::Over(Upper::Gather))),
        "redistribute" => Ok(Op::Is(Shape::Over(Upper::Redistribute))),
        "broadcast" => Ok(Op::Is(Shape::Over(Upper::Broadcast))),
        _ => Err(place.no(alloc, Flaw::Kind)),
    }
}

fn stage_at(alloc: Global, place: Place<'_>, value: &Value) -> Result<Upper, DocNo>
    ensures { Gives (λ x. x) result (spec.stage_at (path_of place.entry) (view value.now)) }
{
    match text_at(alloc, place, value)? {
        "single" => Ok(Upper::Single),
        "partial" => Ok(Upper::Partial),
        "final" => Ok(Upper::Final),
        _ => Err(place.no(alloc, Flaw::Kind)),
    }
}

fn shape_at(alloc: Global, place: Place<'_>, object: &Value) -> Result<Shape, DocNo>
    ensures { Gives (λ x. x) result (spec.shape_at (path_of place.entry) (view object.now)) }
{
    let word = required(alloc, place, object, "op")?;
    match op_at(alloc, place.member("op"), word)? {
        Op::Is(shape) => Ok(shape),
        Op::Agg => {
            let word = required(alloc, place, object, "stage")?;
            Ok(Shape::Over(stage_at(alloc, place.member("stage"), word)?))
        }
    }
}

fn names_over(upper: Upper) -> &'static [&'static str]
    ensures { map (λ name. name.now) result.now ≡ spec.names_over upper }
{
    match upper {
        Upper::Filter => &["op", "where", "child"],
        Upper::Project => &["op", "columns", "child"],
        Upper::Limit => &["op", "count", "child"],
        Upper::Sort => &["op", "keys", "child"],
        Upper::Single | Upper::Partial => &["op", "stage", "group", "calls", "child"],
        Upper::Final => &["op", "stage", "child"],
        Upper::Gather => &["op", "order", "child"],
        Upper::Redistribute => &["op", "keys", "child"],
        Upper::Broadcast => &["op", "child"],
    }
}

/// The members of a node.
fn names_of(shape: Shape) -> &'static [&'static str]
    ensures { map (λ name. name.now) result.now ≡ spec.names_of shape }
{
    match shape {
        Shape::Scan => &["op", "table"],
        Shape::Join => &["op", "left", "right", "on"],
        Shape::Over(upper) => names_over(upper),
    }
}

/// What a node over one other says itself.
#[derive(Drop, Debug)]
pub(crate) enum Head {
    Filter(Expr),
    Project(Columns),
    Limit(u64),
    Sort(Keys),
    Agg(Stage),
    Gather(Option<Keys>),
    Redistribute(Columns),
    Broadcast,
}

impl Head {
    fn over(self, child: Boxed<Node>) -> Node
        ensures { result ≡ spec.over self child }
    {
        match self {
            Head::Filter(test) => Node::Filter { test, child },
            Head::Project(columns) => Node::Project { columns, child },
            Head::Limit(count) => Node::Limit { count, child },
            Head::Sort(keys) => Node::Sort { keys, child },
            Head::Agg(stage) => Node::Agg { stage, child },
            Head::Gather(order) => Node::Gather { order, child },
            Head::Redistribute(keys) => Node::Redistribute { keys, child },
            Head::Broadcast => Node::Broadcast { child },
        }
    }
}

fn test_at(alloc: Global, place: Place<'_>, value: &Value) -> Result<Expr, DocNo>
    ensures { Gives (λ x. x) result (spec.test_at (path_of place.entry) (view value.now)) }
{
    let test = expr_at(alloc, place, value)?;
    if test.size() <= MOST_ENTRIES {
        Ok(test)
    } else {
        Err(place.no(alloc, Flaw::Range))
    }
}

fn head_at(alloc: Global, place: Place<'_>, object: &Value, upper: Upper) -> Result<Head, DocNo>
    ensures { Gives (λ x. x) result (spec.head_at upper (path_of place.entry) (view object.now)) }
{
    match upper {
        Upper::Filter => {
            let test = required(alloc, place, object, "where")?;
            Ok(Head::Filter(test_at(alloc, place.member("where"), test)?))
        }
        Upper::Project => Ok(Head::Project(list_in(alloc, place, object, "columns", 0)?)),
        Upper::Limit => {
            let count = number_in(alloc, place, object, "count", 0, LAST_COUNT)?;
            Ok(Head::Limit(count))
        }
        Upper::Sort => Ok(Head::Sort(list_in(alloc, place, object, "keys", 1)?)),
        Upper::Single => Ok(Head::Agg(Stage::Single {
            group: list_in(alloc, place, object, "group", 0)?,
            calls: list_in(alloc, place, object, "calls", 0)?,
        })),
        Upper::Partial => Ok(Head::Agg(Stage::Partial {
            group: list_in(alloc, place, object, "group", 0)?,
            calls: list_in(alloc, place, object, "calls", 0)?,
        })),
        Upper::Final => Ok(Head::Agg(Stage::Final)),
        Upper::Gather => Ok(Head::Gather(list_if_there(alloc, place, object, "order", 1)?)),
        Upper::Redistribute => Ok(Head::Redistribute(list_in(alloc, place, object, "keys", 1)?)),
        Upper::Broadcast => Ok(Head::Broadcast),
    }
}

fn scan_at(alloc: Global, place: Place<'_>, object: &Value) -> Result<Node, DocNo>
    ensures { Gives (λ x. x) result (spec.scan_at (path_of place.entry) (view object.now)) }
{
    let table = required(alloc, place, object, "table")?;
    let table = text_at(alloc, place.member("table"), table)?;
    let table = String::from_str(alloc, table)?;
    Ok(Node::Scan {
        table: Text::from_string(table),
    })
}

#[cycle(node)]
#[tactic(auto, using(crate::proofs::NodeLemmas::node_is))]
fn child_at(
    alloc: Global,
    place: Place<'_>,
    object: &Value,
    name: &str,
) -> Result<Boxed<Node>, DocNo>
    ensures { Gives (λ x. x) result (needed spec.node_at (path_of place.entry) name.now (view object.now)) }
{
    let child = required(alloc, place, object, name)?;
    let child = node_at(alloc, place.member(name), child)?;
    Ok(Boxed::new(alloc, child)?)
}

#[cycle(node)]
fn shaped_at(alloc: Global, place: Place<'_>, object: &Value, shape: Shape) -> Result<Node, DocNo>
    ensures { Gives (λ x. x) result (spec.shaped_at shape (path_of place.entry) (view object.now)) }
{
    match shape {
        Shape::Scan => scan_at(alloc, place, object),
        Shape::Join => Ok(Node::Join {
            left: child_at(alloc, place, object, "left")?,
            right: child_at(alloc, place, object, "right")?,
            pairs: list_in(alloc, place, object, "on", 0)?,
        }),
        Shape::Over(upper) => {
            let head = head_at(alloc, place, object, upper)?;
            Ok(head.over(child_at(alloc, place, object, "child")?))
        }
    }
}

/// A node, with those below it.
#[cycle(node)]
pub(crate) fn node_at(alloc: Global, place: Place<'_>, value: &Value) -> Result<Node, DocNo>
    ensures { Gives (λ x. x) result (spec.node_with spec.node_at (path_of place.entry) (view value.now)) }
{
    let members = object_at(alloc, place, value)?;
    let shape = shape_at(alloc, place, value)?;
    only(alloc, place, members, names_of(shape))?;
    shaped_at(alloc, place, value, shape)
}

/// A plan of at most 64 nodes, which are counted once all else in it was judged.
#[tactic(auto, using(crate::proofs::NodeLemmas::node_is))]
fn plan_at(alloc: Global, place: Place<'_>, value: &Value) -> Result<Plan, DocNo>
    ensures { Gives (λ x. x) result (spec.plan_at (path_of place.entry) (view value.now)) }
{
    let root = node_at(alloc, place, value)?;
    match room_after_node(&root, MOST_NODES) {
        Some(_) => Ok(Plan { root }),
        None => Err(place.no(alloc, Flaw::Range)),
    }
}

impl Element for Plan {
    ghost reading = { spec.plan_at };

    fn element_at(alloc: Global, place: Place<'_>, value: &Value) -> Result<Plan, DocNo> {
        plan_at(alloc, place, value)
    }
}

/// At most 64 plans.
pub(crate) fn plans_at(alloc: Global, place: Place<'_>, value: &Value) -> Result<Plans, DocNo>
    ensures { Gives (λ x. x) result (spec.plans_at (path_of place.entry) (view value.now)) }
{
    list_at(alloc, place, value, 0, MOST_PLANS)
}
