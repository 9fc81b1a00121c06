// The kinds of a predicate's operands.
ghost use Rattle.std.specs.Prelude.{◌≡◌, [], ◌∷◌, ◌<◌, ◌+◌, ◌^◌, length, map, OnOk, IfErr};
ghost use Rattle.pl_expr.specs.Entries.{entries_of, in_turn};
ghost use Rattle.pl_expr.specs.Entries as entry;
ghost use Rattle.pl_expr.specs.Typing.{same_kind, takes, both_take, have_one_kind, is_there, flaw_of, is_flaw, is_flawed, IsTyped, IsFirstFlaw};
ghost use Rattle.std.specs.List.{list_any};
ghost use Rattle.pl_expr.specs.Walking.{stepped, walked};

use crate::expr::{Expr, Operand};
use ic_row::Kind;

/// What is wrong with a predicate over some columns. The predicate's writer did it.
#[derive(Clone, Copy, Debug, PartialEq, Eq)]
pub enum ExprFlaw {
    /// An operand names a column past the last one.
    Column,
    /// The operands of a comparison have no kind in common.
    Kind,
}

/// Where a predicate goes wrong first, in preorder.
#[derive(Clone, Copy, Debug, PartialEq, Eq)]
pub struct ExprFault {
    pub what: ExprFlaw,
    /// The place in preorder, from 0, counted over expressions and operands: the operand's for `Column`, and the
    /// comparison's for `Kind`.
    pub place: u32,
}

fn is_same(a: Kind, b: Kind) -> bool
    ensures { result ≡ same_kind a b }
{
    match (a, b) {
        (Kind::Int, Kind::Int) | (Kind::Wide, Kind::Wide) | (Kind::Chars, Kind::Chars) => true,
        _ => false,
    }
}

fn can_be(kinds: &[Kind], operand: &Operand, kind: Kind) -> bool
    ensures { result ≡ takes kinds.now operand.now kind }
{
    match operand {
        Operand::Col(place) => match kinds.get(*place as usize) {
            Some(own) => is_same(*own, kind),
            None => true,
        },
        Operand::Int(_) => !is_same(kind, Kind::Chars),
        Operand::Chars(_) => is_same(kind, Kind::Chars),
        Operand::Null => true,
    }
}

fn can_both_be(kinds: &[Kind], left: &Operand, right: &Operand, kind: Kind) -> bool
    ensures { result ≡ both_take kinds.now left.now right.now kind }
{
    can_be(kinds, left, kind) && can_be(kinds, right, kind)
}

fn agree(kinds: &[Kind], left: &Operand, right: &Operand) -> bool
    ensures { result ≡ have_one_kind kinds.now left.now right.now }
{
    can_both_be(kinds, left, right, Kind::Int)
        || can_both_be(kinds, left, right, Kind::Wide)
        || can_both_be(kinds, left, right, Kind::Chars)
}

fn exists(kinds: &[Kind], operand: &Operand) -> bool
    ensures { result ≡ is_there kinds.now operand.now }
{
    match operand {
        Operand::Col(place) => (*place as usize) < kinds.len(),
        _ => true,
    }
}

/// The place after this one, if nothing is wrong here.
fn step(fine: bool, what: ExprFlaw, place: u32) -> Result<u32, ExprFault>
    requires { place + 1 < 2 ^ 32 }
    ensures { result ≡ stepped fine what place }
{
    if fine {
        Ok(place + 1)
    } else {
        Err(ExprFault { what, place })
    }
}

fn walk_operand(operand: &Operand, kinds: &[Kind], place: u32) -> Result<u32, ExprFault>
    requires { place + 1 < 2 ^ 32 }
    ensures { result ≡ walked kinds.now place (entry.Read operand.now ∷ []) }
{
    step(exists(kinds, operand), ExprFlaw::Column, place)
}

fn walk_comparison(
    left: &Operand,
    right: &Operand,
    kinds: &[Kind],
    place: u32,
) -> Result<u32, ExprFault>
    requires { place + 3 < 2 ^ 32 }
    ensures { result ≡ walked kinds.now place (entry.Comparison left.now right.now ∷ entry.Read left.now ∷ entry.Read right.now ∷ []) }
{
    let place = step(agree(kinds, left, right), ExprFlaw::Kind, place)?;
    let place = step(exists(kinds, left), ExprFlaw::Column, place)?;
    step(exists(kinds, right), ExprFlaw::Column, place)
}

#[cycle(walk)]
fn walk_all(parts: &[Expr], kinds: &[Kind], place: u32) -> Result<u32, ExprFault>
    requires { place + length (in_turn (map entries_of parts.now)) < 2 ^ 32 }
    ensures { result ≡ walked kinds.now place (in_turn (map entries_of parts.now)) }
{
    let mut reached = place;
    for part in parts {
        reached = walk(part, kinds, reached)?;
    }
    Ok(reached)
}

/// The place after the predicate, if it begins at this one.
#[cycle(walk)]
fn walk(expr: &Expr, kinds: &[Kind], place: u32) -> Result<u32, ExprFault>
    requires { place + length (entries_of expr.now) < 2 ^ 32 }
    ensures { result ≡ walked kinds.now place (entries_of expr.now) }
{
    match expr {
        Expr::Compare { op: _, left, right } => walk_comparison(left, right, kinds, place),
        Expr::And(parts) => walk_all(parts.as_slice(), kinds, place + 1),
        Expr::Or(parts) => walk_all(parts.as_slice(), kinds, place + 1),
        Expr::Not(part) => walk(part.get(), kinds, place + 1),
        Expr::IsNull(operand) => walk_operand(operand, kinds, place + 1),
    }
}

/// Whether a predicate has a meaning over columns of these kinds. Each column that it names exists, and the operands
/// of each comparison have one kind: an integer literal is an int or a wide, as the other side asks, and a null is
/// anything. An `Err` names the first place that goes wrong. Walks the predicate once, and takes no memory.
pub fn types(expr: &Expr, kinds: &[Kind]) -> Result<(), ExprFault>
    requires { length (entries_of expr.now) < 2 ^ 32 }
    ensures ok { OnOk result (IsTyped kinds.now expr.now) }
    ensures fault { IfErr result (λ fault. IsFirstFlaw kinds.now (entries_of expr.now) fault) }
{
    walk(expr, kinds, 0)?;
    Ok(())
}

fn is_flawed_operand(operand: &Operand, kinds: &[Kind], what: ExprFlaw) -> bool
    ensures { result ≡ is_flaw what (flaw_of kinds.now (entry.Read operand.now)) }
{
    matches!(what, ExprFlaw::Column) && !exists(kinds, operand)
}

fn is_flawed_comparison(left: &Operand, right: &Operand, kinds: &[Kind], what: ExprFlaw) -> bool
    ensures { result ≡ is_flaw what (flaw_of kinds.now (entry.Comparison left.now right.now)) }
{
    matches!(what, ExprFlaw::Kind) && !agree(kinds, left, right)
}

#[cycle(flaw)]
fn any_has_flaw(parts: &[Expr], kinds: &[Kind], what: ExprFlaw) -> bool
    ensures { result ≡ list_any (is_flawed kinds.now what) (in_turn (map entries_of parts.now)) }
{
    let mut so_far = false;
    for part in parts {
        so_far = so_far || has_flaw(part, kinds, what);
    }
    so_far
}

/// Whether this is wrong anywhere in a predicate over columns of these kinds, whatever else is wrong before it. Walks
/// the predicate once, and takes no memory.
#[cycle(flaw)]
pub fn has_flaw(expr: &Expr, kinds: &[Kind], what: ExprFlaw) -> bool
    ensures { result ≡ list_any (is_flawed kinds.now what) (entries_of expr.now) }
{
    match expr {
        Expr::Compare { op: _, left, right } => {
            is_flawed_comparison(left, right, kinds, what)
                || is_flawed_operand(left, kinds, what)
                || is_flawed_operand(right, kinds, what)
        }
        Expr::And(parts) => any_has_flaw(parts.as_slice(), kinds, what),
        Expr::Or(parts) => any_has_flaw(parts.as_slice(), kinds, what),
        Expr::Not(part) => has_flaw(part.get(), kinds, what),
        Expr::IsNull(operand) => is_flawed_operand(operand, kinds, what),
    }
}
