// What a motion gives, and whether it may give it.
ghost use Rattle.pl_plan.specs.Walking as spec;

use crate::above::Above;
use crate::asks::{any_key_past, any_past, is_entry, is_prefix};
use crate::facts::{Facts, first_of, settle, under};
use crate::rule::{PlanNo, Rule};
use ic_row::Key;
use pl_tree::{Locus, hashed};
use sqlite_items::Items;
use std::alloc::Global;

/// Of a gather over this that merges by these keys.
pub fn gather(
    alloc: Global,
    keys: &[Key],
    child: Facts,
    up: Above,
    number: u32,
) -> Result<Facts, PlanNo>
    ensures { spec.Gives result (spec.gathered up number keys.now child) }
{
    let Facts {
        kinds,
        locus,
        order,
        below,
        next,
    } = child;
    let rule = first_of(is_entry(&locus), Rule::MotionAboveEntry, None);
    let rule = first_of(!is_prefix(keys, order.as_slice()), Rule::OrderMissing, rule);
    let rule = first_of(any_key_past(kinds.len(), keys), Rule::Column, rule);
    let order = Items::from_slice(alloc, keys)?;
    let below = under(below, locus)?;
    settle(
        rule,
        up,
        number,
        Facts {
            kinds,
            locus: Locus::Entry,
            order,
            below,
            next,
        },
    )
}

/// Of a redistribute over this.
pub fn redistribute(
    alloc: Global,
    columns: &[u32],
    child: Facts,
    up: Above,
    number: u32,
) -> Result<Facts, PlanNo>
    ensures { spec.Gives result (spec.redistributed up number columns.now child) }
{
    let Facts {
        kinds,
        locus,
        order: _,
        below,
        next,
    } = child;
    let rule = first_of(is_entry(&locus), Rule::MotionAboveEntry, None);
    let past = columns.is_empty() || any_past(kinds.len(), columns);
    let rule = first_of(past, Rule::Column, rule);
    let own = hashed(alloc, columns)?;
    let order = Items::new(alloc);
    let below = under(below, locus)?;
    settle(
        rule,
        up,
        number,
        Facts {
            kinds,
            locus: own,
            order,
            below,
            next,
        },
    )
}

/// Of a broadcast over this.
pub fn broadcast(alloc: Global, child: Facts, up: Above, number: u32) -> Result<Facts, PlanNo>
    ensures { spec.Gives result (spec.broadcast up number child) }
{
    let Facts {
        kinds,
        locus,
        order: _,
        below,
        next,
    } = child;
    let rule = first_of(is_entry(&locus), Rule::MotionAboveEntry, None);
    let order = Items::new(alloc);
    let below = under(below, locus)?;
    settle(
        rule,
        up,
        number,
        Facts {
            kinds,
            locus: Locus::Replicated,
            order,
            below,
            next,
        },
    )
}
