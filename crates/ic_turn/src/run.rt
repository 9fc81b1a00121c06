// Several asks in order.
ghost use Rattle.std.specs.Prelude.{◌≡◌, length, IfOk, IfErr, OnErr};
ghost use Rattle.std.specs.List.{AllByRecursion};
ghost use Rattle.ic_turn.specs.Entries.{entries_of, StandsWith};

use crate::machine::Machine;
use std::alloc::Global;

/// Asks the machine these things in order, and gives its replies in that order.
///
/// Room for the replies is taken first. If there is none, nothing is asked, and the asks come back.
pub fn act_all<M: Machine>(
    machine: &mut M,
    alloc: Global,
    asks: Vec<M::Ask>,
) -> Result<Vec<M::Reply>, Vec<M::Ask>>
where
    M::Ask: Drop,
    ensures ok { IfOk result (λ replies. length replies.items ≡ length asks.items) }
    ensures kept { M.kept machine.new ≡ M.kept machine.old }
    ensures answers { IfOk result (λ replies. AllByRecursion (λ e. M.answers (M.kept machine.old) e.ask e.reply) (entries_of asks.items replies.items)) }
    ensures stands { IfOk result (λ replies. StandsWith (M.stands (M.kept machine.old) (M.state machine.old)) (M.stands (M.kept machine.new) (M.state machine.new)) (entries_of asks.items replies.items)) }
    ensures lawful { IfOk result (λ replies. StandsWith (M.stands (M.kept machine.old) (M.state machine.old)) (M.lawful (M.kept machine.new)) (entries_of asks.items replies.items)) }
    ensures memory { IfErr result (λ back. back ≡ asks) }
    ensures leaves { OnErr result (machine.new ≡ machine.old) }
{
    let Ok(mut replies) = Vec::with_capacity(alloc, asks.len()) else {
        return Err(asks);
    };
    for ask in asks {
        replies.push_reserved(machine.act(alloc, ask));
    }
    Ok(replies)
}
