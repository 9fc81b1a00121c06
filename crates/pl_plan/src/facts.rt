// What a node gives, and whether it may give it: scans, and what gives the rows of its children at their segments.
ghost use Rattle.std.specs.Prelude.{◌≡◌, [], ◌∷◌, ◌++◌, ◌<◌, ◌^◌, length, IfOk};
ghost use Rattle.std.specs.Option.{option_copied};
ghost use Rattle.pl_tree.specs.Within.{IsWithin};
ghost use Rattle.pl_plan.specs.Walking as spec;

use crate::above::Above;
use crate::asks::{
    any_key_past, any_pair_differs, any_pair_past, any_past, is_entry, may_join, stops_early,
};
use crate::rule::{PlanFault, PlanNo, Rule};
use ic_row::Key;
use pl_expr::{Expr, ExprFlaw, has_flaw};
use pl_tree::{
    Keys, Kinds, Loci, Locus, Pair, Schema, chosen_kinds, copy_kinds, joined_locus, kept_order,
    moved_to, placed,
};
use sqlite_items::Items;
use std::alloc::{AllocError, Global};

/// What a node gives.
#[derive(Drop)]
pub struct Facts {
    /// Of its columns.
    pub kinds: Kinds,
    pub locus: Locus,
    /// The order in which it delivers its rows.
    pub order: Keys,
    /// The loci of the nodes below it, from the last one in preorder to the first.
    pub below: Loci,
    /// The number after the last node below it.
    pub next: u32,
}

/// The rule, if it is broken, and else what is broken of the later ones.
pub fn first_of(broken: bool, rule: Rule, later: Option<Rule>) -> Option<Rule>
    ensures { result ≡ spec.first_of broken rule later }
{
    if broken { Some(rule) } else { later }
}

fn root_rule(up: Above, facts: &Facts) -> Option<Rule>
    ensures { result ≡ spec.root_rule up facts.now }
{
    first_of(up.root && !is_entry(&facts.locus), Rule::NotAtEntry, None)
}

fn or_else(rule: Option<Rule>, later: Option<Rule>) -> Option<Rule>
    ensures { result ≡ spec.or_else rule later }
{
    match rule {
        Some(rule) => Some(rule),
        None => later,
    }
}

fn unless_broken(rule: Option<Rule>, number: u32, facts: Facts) -> Result<Facts, PlanNo>
    ensures { spec.Gives result (spec.unless_broken rule number facts) }
{
    match rule {
        Some(rule) => Err(PlanNo::Fault(PlanFault { node: number, rule })),
        None => Ok(facts),
    }
}

/// The facts, unless this rule is broken or that of the root.
pub fn settle(rule: Option<Rule>, up: Above, number: u32, facts: Facts) -> Result<Facts, PlanNo>
    ensures { spec.Gives result (spec.settled rule up number facts) }
{
    let rule = or_else(rule, root_rule(up, &facts));
    unless_broken(rule, number, facts)
}

/// With one node more.
pub fn under(below: Loci, locus: Locus) -> Result<Loci, AllocError>
    ensures { IfOk result (λ x. x ≡ below ++ locus ∷ []) }
{
    let mut below = below;
    below.push(locus)?;
    Ok(below)
}

/// Of a node that gives the rows of its child in this order.
pub fn ordered(alloc: Global, order: Keys, child: Facts) -> Result<Facts, AllocError>
    ensures { IfOk result (λ f. f ≡ spec.with_order order child) }
{
    let locus = child.locus.copy(alloc)?;
    Ok(Facts {
        kinds: child.kinds,
        locus,
        order,
        below: under(child.below, child.locus)?,
        next: child.next,
    })
}

/// Of a node that gives the rows of its child as they come.
fn passed(alloc: Global, child: Facts) -> Result<Facts, AllocError>
    ensures { IfOk result (λ f. f ≡ spec.with_order child.order child) }
{
    let locus = child.locus.copy(alloc)?;
    Ok(Facts {
        kinds: child.kinds,
        locus,
        order: child.order,
        below: under(child.below, child.locus)?,
        next: child.next,
    })
}

/// Of a scan of this table.
pub fn scan(alloc: Global, schema: Option<&Schema>, up: Above, number: u32) -> Result<Facts, PlanNo>
    requires { number < 64 }
    ensures { spec.Gives result (spec.scanned up number (option_copied schema.entry)) }
{
    match schema {
        Some(schema) => {
            let kinds = copy_kinds(alloc, schema.kinds.as_slice())?;
            let locus = placed(alloc, &schema.place)?;
            let order = Items::new(alloc);
            let below = Items::new(alloc);
            let next = number + 1;
            settle(
                None,
                up,
                number,
                Facts {
                    kinds,
                    locus,
                    order,
                    below,
                    next,
                },
            )
        }
        None => {
            let kinds = Items::new(alloc);
            let locus = Locus::Strewn;
            let order = Items::new(alloc);
            let below = Items::new(alloc);
            let next = number + 1;
            settle(
                Some(Rule::UnknownTable),
                up,
                number,
                Facts {
                    kinds,
                    locus,
                    order,
                    below,
                    next,
                },
            )
        }
    }
}

/// Of a filter over this.
pub fn filter(
    alloc: Global,
    test: &Expr,
    child: Facts,
    up: Above,
    number: u32,
) -> Result<Facts, PlanNo>
    ensures { spec.Gives result (spec.filtered up number test.now child) }
{
    let kinds = child.kinds.as_slice();
    let rule = first_of(
        has_flaw(test, kinds, ExprFlaw::Kind),
        Rule::ColumnKind,
        None,
    );
    let rule = first_of(has_flaw(test, kinds, ExprFlaw::Column), Rule::Column, rule);
    settle(rule, up, number, passed(alloc, child)?)
}

/// Of a project over this.
pub fn project(
    alloc: Global,
    columns: &[u32],
    child: Facts,
    up: Above,
    number: u32,
) -> Result<Facts, PlanNo>
    requires { length columns.now < 2 ^ 32 }
    ensures { spec.Gives result (spec.projected up number columns.now child) }
{
    let Facts {
        kinds,
        locus,
        order,
        below,
        next,
    } = child;
    let rule = first_of(any_past(kinds.len(), columns), Rule::Column, None);
    let kinds = chosen_kinds(alloc, kinds.as_slice(), columns)?;
    let own = moved_to(alloc, columns, &locus)?;
    let order = kept_order(alloc, columns, order.as_slice())?;
    let below = under(below, locus)?;
    settle(
        rule,
        up,
        number,
        Facts {
            kinds,
            locus: own,
            order,
            below,
            next,
        },
    )
}

/// Of a limit over this.
pub fn limit(
    alloc: Global,
    count: u64,
    child: Facts,
    up: Above,
    number: u32,
) -> Result<Facts, PlanNo>
    ensures { spec.Gives result (spec.limited up number count child) }
{
    let early = stops_early(up.root, up.over, count, &child.locus);
    let rule = first_of(early, Rule::LimitLocus, None);
    settle(rule, up, number, passed(alloc, child)?)
}

/// Of a sort over this.
pub fn sort(
    alloc: Global,
    keys: &[Key],
    child: Facts,
    up: Above,
    number: u32,
) -> Result<Facts, PlanNo>
    ensures { spec.Gives result (spec.sorted up number keys.now child) }
{
    let rule = first_of(any_key_past(child.kinds.len(), keys), Rule::Column, None);
    let order = Items::from_slice(alloc, keys)?;
    settle(rule, up, number, ordered(alloc, order, child)?)
}

/// Of a join over these.
pub fn join(
    alloc: Global,
    pairs: &[Pair],
    left: Facts,
    right: Facts,
    up: Above,
    number: u32,
) -> Result<Facts, PlanNo>
    requires width { length left.kinds < 2 ^ 32 }
    requires within { IsWithin (2 ^ 32) (length left.kinds) right.locus }
    ensures { spec.Gives result (spec.joined up number pairs.now left right) }
{
    let rule = first_of(
        !may_join(pairs, &left.locus, &right.locus),
        Rule::JoinLocus,
        None,
    );
    let differs = any_pair_differs(left.kinds.as_slice(), right.kinds.as_slice(), pairs);
    let rule = first_of(differs, Rule::ColumnKind, rule);
    let past = any_pair_past(left.kinds.len(), right.kinds.len(), pairs);
    let rule = first_of(past, Rule::Column, rule);
    let width = left.kinds.len() as u32;
    let locus = joined_locus(alloc, width, &left.locus, &right.locus)?;
    let mut kinds = left.kinds;
    kinds.append(right.kinds)?;
    let order = Items::new(alloc);
    let mut below = under(right.below, right.locus)?;
    below.append(under(left.below, left.locus)?)?;
    let next = right.next;
    settle(
        rule,
        up,
        number,
        Facts {
            kinds,
            locus,
            order,
            below,
            next,
        },
    )
}
