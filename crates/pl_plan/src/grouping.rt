// What an aggregate gives, and whether it may give it.
ghost use Rattle.std.specs.Prelude.{◌≡◌, ◌<◌, ◌^◌, ◌||◌, length, IfOk};
ghost use Rattle.std.specs.List.{list_any};
ghost use Rattle.pl_plan.specs.Walking as spec;
ghost use Rattle.pl_plan.specs.Tests as tests;

use crate::above::Above;
use crate::asks::{any_call_past, any_past, any_sums_no_int, is_strewn, parts_first, parts_groups};
use crate::facts::{Facts, first_of, ordered, settle, under};
use crate::rule::{PlanNo, Rule};
use ic_row::Kind;
use pl_tree::{Call, Locus, aggregate_kinds, moved_to};
use sqlite_items::Items;
use std::alloc::{AllocError, Global};

fn aggregate_past(width: usize, group: &[u32], calls: &[Call]) -> bool
    ensures { result ≡ (tests.any_past width group.now || list_any (tests.call_past width) calls.now) }
{
    any_past(width, group) || any_call_past(width, calls)
}

/// The rules of an aggregate that takes rows, before these.
fn aggregate_rule(rule: Option<Rule>, kinds: &[Kind], group: &[u32], calls: &[Call]) -> Option<Rule>
    ensures { result ≡ spec.aggregate_rule rule kinds.now group.now calls.now }
{
    let rule = first_of(any_sums_no_int(kinds, calls), Rule::ColumnKind, rule);
    first_of(
        aggregate_past(kinds.len(), group, calls),
        Rule::Column,
        rule,
    )
}

/// What an aggregate that takes rows gives.
fn aggregate_facts(
    alloc: Global,
    group: &[u32],
    calls: &[Call],
    child: Facts,
) -> Result<Facts, AllocError>
    requires { length group.now < 2 ^ 32 }
    ensures { IfOk result (λ f. f ≡ spec.aggregate_facts group.now calls.now child) }
{
    let kinds = aggregate_kinds(alloc, child.kinds.as_slice(), group, calls)?;
    let locus = moved_to(alloc, group, &child.locus)?;
    Ok(Facts {
        kinds,
        locus,
        order: Items::new(alloc),
        below: under(child.below, child.locus)?,
        next: child.next,
    })
}

/// Of an aggregate in a stage that takes rows, whose last rules these are.
fn aggregate(
    alloc: Global,
    rule: Option<Rule>,
    group: &[u32],
    calls: &[Call],
    child: Facts,
    up: Above,
    number: u32,
) -> Result<Facts, PlanNo>
    requires { length group.now < 2 ^ 32 }
    ensures { spec.Gives result (spec.aggregated rule up number group.now calls.now child) }
{
    let rule = aggregate_rule(rule, child.kinds.as_slice(), group, calls);
    settle(
        rule,
        up,
        number,
        aggregate_facts(alloc, group, calls, child)?,
    )
}

/// Of a single aggregate over this.
pub fn single(
    alloc: Global,
    group: &[u32],
    calls: &[Call],
    child: Facts,
    up: Above,
    number: u32,
) -> Result<Facts, PlanNo>
    requires { length group.now < 2 ^ 32 }
    ensures { spec.Gives result (spec.single up number group.now calls.now child) }
{
    let rule = first_of(parts_groups(group, &child.locus), Rule::AggLocus, None);
    aggregate(alloc, rule, group, calls, child, up, number)
}

/// Of a partial over this.
pub fn partial(
    alloc: Global,
    group: &[u32],
    calls: &[Call],
    child: Facts,
    up: Above,
    number: u32,
) -> Result<Facts, PlanNo>
    requires { length group.now < 2 ^ 32 }
    ensures { spec.Gives result (spec.partial up number group.now calls.now child) }
{
    let rule = first_of(!up.reached, Rule::PartialUnmatched, None);
    aggregate(alloc, rule, group, calls, child, up, number)
}

fn parts_final(width: Option<usize>, locus: &Locus) -> bool
    ensures { result ≡ tests.parts_final width locus.now }
{
    match width {
        Some(width) => parts_first(width, locus),
        None => is_strewn(locus),
    }
}

/// Of a final over this, whose partial has so many group columns, if there is one.
pub fn finish(
    alloc: Global,
    width: Option<usize>,
    child: Facts,
    up: Above,
    number: u32,
) -> Result<Facts, PlanNo>
    ensures { spec.Gives result (spec.finished up number width child) }
{
    let rule = first_of(width.is_none(), Rule::PartialUnmatched, None);
    let rule = first_of(parts_final(width, &child.locus), Rule::AggLocus, rule);
    settle(rule, up, number, ordered(alloc, Items::new(alloc), child)?)
}
