// The passes of many workers.
ghost use Rattle.std.specs.Prelude.{◌≡◌, ◌+◌, ◌<◌, ◌≤◌, [], All, IfOk, IfErr, reverse, vec_capacity, vec_len};
ghost use Rattle.ic_turn.specs.Passes.{giver, given};
ghost use Rattle.ic_turn.specs.Many.{given_after, all_given, all_joined};

use crate::machine::Machine;
use crate::pass::Pass;
use crate::turn::Turn;
use std::alloc::Global;

/// This pass and all that it may give: first itself, then those of the numbers from 1 to its greatest spare one.
///
/// Room for them is taken first. If there is none, the pass comes back as it was. One load a pass.
pub fn split_all<M: Machine>(
    alloc: Global,
    turn: &Turn<M>,
    pass: Pass<M>,
) -> Result<Vec<Pass<M>>, Pass<M>>
    requires of { pass.turn ≡ turn.now }
    ensures ok { IfOk result (λ passes. passes.items ≡ all_given pass) }
    ensures memory { IfErr result (λ back. back ≡ pass) }
{
    let spare = pass.spare;
    let Ok(passes) = Vec::with_capacity(alloc, spare as usize + 1) else {
        return Err(pass);
    };
    Ok(cut_all(turn, pass, spare, passes))
}

/// Cuts off so many passes, into a vector with room for them.
fn cut_all<M: Machine>(
    turn: &Turn<M>,
    pass: Pass<M>,
    spare: u32,
    passes: Vec<Pass<M>>,
) -> Vec<Pass<M>>
    requires of { pass.turn ≡ turn.now }
    requires spare { pass.spare ≡ spare }
    requires none { passes.items ≡ [] }
    requires room { spare < vec_capacity passes }
    ensures { result.items ≡ all_given pass }
{
    let mut pass = pass;
    let mut passes = passes;
    for _ in 0..spare {
        let (giver, given) = cut(turn, pass);
        passes.push_reserved(given);
        pass = giver;
    }
    passes.push_reserved(pass);
    passes.reverse();
    passes
}

/// Cuts one pass off, of one that may give it.
fn cut<M: Machine>(turn: &Turn<M>, pass: Pass<M>) -> (Pass<M>, Pass<M>)
    requires of { pass.turn ≡ turn.now }
    requires spare { 0 < pass.spare }
    ensures { (result.0 ≡ giver pass) × (result.1 ≡ given pass) }
{
    let Ok(both) = turn.split(pass) else {
        unreachable!()
    };
    both
}

/// One pass that keeps the number and the calls of this one, and holds what all others held, too. One load a pass.
pub fn join_all<M: Machine>(turn: &Turn<M>, pass: Pass<M>, others: Vec<Pass<M>>) -> Pass<M>
    requires of { pass.turn ≡ turn.now }
    requires others { All (λ p. p.turn ≡ turn.now) others.items }
    ensures { result ≡ all_joined pass others.items }
{
    let mut pass = pass;
    for other in others {
        pass = turn.join(pass, other);
    }
    pass
}
