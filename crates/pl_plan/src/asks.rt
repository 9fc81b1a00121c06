// What the rules ask of a node's positions, kinds and keys.
ghost use Rattle.std.specs.Prelude.{◌≡◌, length};
ghost use Rattle.std.specs.List.{list_any};
ghost use Rattle.pl_expr.specs.Typing.{same_kind};
ghost use Rattle.pl_tree.specs.Columns.{kind_at};
ghost use Rattle.pl_plan.specs.Tests as spec;

use ic_row::{Key, Kind};
use pl_tree::{Call, Locus, Pair};

fn is_past(width: usize, column: u32) -> bool
    ensures { result ≡ spec.is_past width column }
{
    width <= column as usize
}

/// A position isn't below the width.
pub fn any_past(width: usize, columns: &[u32]) -> bool
    ensures { result ≡ spec.any_past width columns.now }
{
    for column in columns {
        if is_past(width, *column) {
            return true;
        }
    }
    false
}

/// The same, of the columns of keys.
pub fn any_key_past(width: usize, keys: &[Key]) -> bool
    ensures { result ≡ list_any (spec.key_past width) keys.now }
{
    for key in keys {
        if is_past(width, key.column) {
            return true;
        }
    }
    false
}

fn pair_past(left: usize, right: usize, pair: Pair) -> bool
    ensures { result ≡ spec.pair_past left right pair }
{
    is_past(left, pair.left) || is_past(right, pair.right)
}

/// The same, of pairs over two widths.
pub fn any_pair_past(left: usize, right: usize, pairs: &[Pair]) -> bool
    ensures { result ≡ list_any (spec.pair_past left right) pairs.now }
{
    for pair in pairs {
        if pair_past(left, right, *pair) {
            return true;
        }
    }
    false
}

fn call_past(width: usize, call: Call) -> bool
    ensures { result ≡ spec.call_past width call }
{
    match call {
        Call::Count => false,
        Call::CountOf(column) | Call::Sum(column) | Call::Min(column) | Call::Max(column) => {
            is_past(width, column)
        }
    }
}

/// The same, of the columns of calls.
pub fn any_call_past(width: usize, calls: &[Call]) -> bool
    ensures { result ≡ list_any (spec.call_past width) calls.now }
{
    for call in calls {
        if call_past(width, *call) {
            return true;
        }
    }
    false
}

fn kind_at(kinds: &[Kind], column: u32) -> Kind
    ensures { result ≡ kind_at kinds.now column }
{
    match kinds.get(column as usize) {
        Some(kind) => *kind,
        None => Kind::Int,
    }
}

fn is_same_kind(a: Kind, b: Kind) -> bool
    ensures { result ≡ same_kind a b }
{
    match (a, b) {
        (Kind::Int, Kind::Int) | (Kind::Wide, Kind::Wide) | (Kind::Chars, Kind::Chars) => true,
        _ => false,
    }
}

fn pair_differs(left: &[Kind], right: &[Kind], pair: Pair) -> bool
    ensures { result ≡ spec.pair_differs left.now right.now pair }
{
    !is_same_kind(kind_at(left, pair.left), kind_at(right, pair.right))
}

/// The two columns of a pair differ in kind.
pub fn any_pair_differs(left: &[Kind], right: &[Kind], pairs: &[Pair]) -> bool
    ensures { result ≡ list_any (spec.pair_differs left.now right.now) pairs.now }
{
    for pair in pairs {
        if pair_differs(left, right, *pair) {
            return true;
        }
    }
    false
}

fn sums_no_int(kinds: &[Kind], call: Call) -> bool
    ensures { result ≡ spec.sums_no_int kinds.now call }
{
    match call {
        Call::Sum(column) => !is_same_kind(kind_at(kinds, column), Kind::Int),
        _ => false,
    }
}

/// A sum's column isn't int.
pub fn any_sums_no_int(kinds: &[Kind], calls: &[Call]) -> bool
    ensures { result ≡ list_any (spec.sums_no_int kinds.now) calls.now }
{
    for call in calls {
        if sums_no_int(kinds, *call) {
            return true;
        }
    }
    false
}

fn is_pair(left: u32, right: u32, pair: Pair) -> bool
    ensures { result ≡ spec.is_pair left right pair }
{
    pair.left == left && pair.right == right
}

fn has_pair(pairs: &[Pair], left: u32, right: u32) -> bool
    ensures { result ≡ list_any (spec.is_pair left right) pairs.now }
{
    for pair in pairs {
        if is_pair(left, right, *pair) {
            return true;
        }
    }
    false
}

#[tactic(auto, using(crate::proofs::AskLemmas::unlike))]
fn are_paired(pairs: &[Pair], left: &[u32], right: &[u32]) -> bool
    ensures { result ≡ spec.are_paired pairs.now left.now right.now }
{
    if left.len() != right.len() {
        return false;
    }
    for i in 0..left.len() {
        if !has_pair(pairs, left[i], right[i]) {
            return false;
        }
    }
    true
}

/// The two sides of a join may stand so.
pub fn may_join(pairs: &[Pair], left: &Locus, right: &Locus) -> bool
    ensures { result ≡ spec.may_join pairs.now left.now right.now }
{
    match (left, right) {
        (Locus::Entry, Locus::Entry) => true,
        (Locus::Hashed(left), Locus::Hashed(right)) => {
            are_paired(pairs, left.as_slice(), right.as_slice())
        }
        (Locus::Replicated, Locus::Entry) => false,
        (Locus::Replicated, _) => true,
        (Locus::Entry, _) => false,
        (_, Locus::Replicated) => true,
        _ => false,
    }
}

fn is_in(columns: &[u32], column: u32) -> bool
    ensures { result ≡ spec.is_in columns.now column }
{
    for other in columns {
        if *other == column {
            return true;
        }
    }
    false
}

fn any_outside(group: &[u32], columns: &[u32]) -> bool
    ensures { result ≡ list_any (spec.is_outside group.now) columns.now }
{
    for column in columns {
        if !is_in(group, *column) {
            return true;
        }
    }
    false
}

/// Rows that are equal in these columns can stand at two places.
pub fn parts_groups(group: &[u32], locus: &Locus) -> bool
    ensures { result ≡ spec.parts_groups group.now locus.now }
{
    match locus {
        Locus::Entry | Locus::Replicated => false,
        Locus::Hashed(columns) => any_outside(group, columns.as_slice()),
        Locus::Strewn => true,
    }
}

/// The same, of so many first columns.
pub fn parts_first(width: usize, locus: &Locus) -> bool
    ensures { result ≡ spec.parts_first width locus.now }
{
    match locus {
        Locus::Entry | Locus::Replicated => false,
        Locus::Hashed(columns) => any_past(width, columns.as_slice()),
        Locus::Strewn => true,
    }
}

pub fn is_strewn(locus: &Locus) -> bool
    ensures { result ≡ spec.is_strewn locus.now }
{
    matches!(locus, Locus::Strewn)
}

pub fn is_entry(locus: &Locus) -> bool
    ensures { result ≡ spec.is_entry locus.now }
{
    matches!(locus, Locus::Entry)
}

fn is_over(count: u64, over: Option<u64>) -> bool
    ensures { result ≡ spec.is_over count over }
{
    match over {
        Some(top) => count < top,
        None => true,
    }
}

/// A limit of this count stops before the answer is whole.
pub fn stops_early(root: bool, over: Option<u64>, count: u64, locus: &Locus) -> bool
    ensures { result ≡ spec.stops_early root over count locus.now }
{
    match locus {
        Locus::Entry => !root,
        Locus::Replicated => true,
        Locus::Hashed(_) | Locus::Strewn => is_over(count, over),
    }
}

fn is_same_key(a: Key, b: Key) -> bool
    ensures { result ≡ spec.same_key a b }
{
    a.column == b.column && a.down == b.down
}

fn begins_with(keys: &[Key], place: usize, key: Key) -> bool
    ensures { result ≡ spec.stands_at keys.now place key }
{
    match keys.get(place) {
        Some(other) => is_same_key(key, *other),
        None => false,
    }
}

/// The keys are the front of the others.
pub fn is_prefix(front: &[Key], keys: &[Key]) -> bool
    ensures { result ≡ spec.is_prefix front.now keys.now }
{
    for i in 0..front.len() {
        if !begins_with(keys, i, front[i]) {
            return false;
        }
    }
    true
}
