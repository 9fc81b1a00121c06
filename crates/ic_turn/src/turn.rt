// The turn: how it begins and is called.
ghost use Rattle.std.specs.Prelude.{◌≡◌, ◌-◌, ◌<◌, ◌≤◌, ◌^◌, [], IfOk, IfErr};
ghost use Rattle.ic_turn.specs.declared.turn.TurnNo.TheVariants.{Memory};
ghost use Rattle.ic_turn.specs.Parts.{total};
ghost use Rattle.ic_turn.specs.Passes.{held, HoldsAll, opening_pass, Adds, Waits, met_once};

use crate::board::{lay, try_serve};
use crate::busy::Busy;
use crate::machine::Machine;
use crate::pass::Pass;
use crate::plays::Board;
use crate::view::{About, Bench};
use std::alloc::Global;
use std::marker::Model;
use std::snapshot::Snapshot;
use std::sync::Wait;
use std::thread;

/// One machine that many callers ask through a `&`, one at a time.
///
/// Its asks and their replies stand in one list, which is lawful for the machine. Each entry has the number of the
/// pass that asked, and the entries of a pass stand in the order of its calls. The list is there for contracts
/// alone: it takes no memory.
///
/// [`new`](Turn::new) makes it with one pass, which [`split`](Turn::split) cuts. [`call`](Turn::call) and
/// [`try_call`](Turn::try_call) are its events. At the end [`join`](Turn::join) puts the passes together, and
/// [`close`](Turn::close) or [`read_off`](Turn::read_off) gives the list.
#[derive(Drop)]
pub struct Turn<M: Machine> {
    pub(crate) table: Board<M>,
    pub(crate) alloc: Global,
    pub(crate) about: About<M>,
}

impl<M: Machine> Model for Turn<M> {
    ghost use Rattle.std.specs.Prelude.{◌≡◌};
    ghost use Rattle.ic_turn.specs.Passes.{Turning};

    ghost Value = { Turning M.Kept };

    ghost view = { λ t. record { id = t.table.shared.table_id; kept = M.kept t.about.first.value; passes = t.about.passes } };

    ghost invariant = { λ t. (t.table.shared.table_id.words ≡ 2) × (t.table.shared.table_id.slots ≡ 1) };
}

/// Why there is no turn.
#[derive(Drop)]
pub enum TurnNo<M> {
    /// There is no memory for its table. The machine comes back as it was.
    Memory(M),
}

impl<M: Machine> Turn<M> {
    /// A turn over the machine, and its first pass, which has the number 0 and may give those from 1 to `passes - 1`.
    /// `act` takes its memory of `alloc`, too.
    ///
    /// It takes memory twice: for two words, and for a slot that holds the machine. No call of the turn takes any but
    /// for `act`.
    pub fn new(alloc: Global, machine: M, passes: u32) -> Result<(Turn<M>, Pass<M>), TurnNo<M>>
        requires passes { 0 < passes }
        requires stands { M.stands (M.kept machine) (M.state machine) [] }
        ensures turn { IfOk result (λ t. (t.0.kept ≡ M.kept machine) × (t.0.passes ≡ passes)) }
        ensures pass { IfOk result (λ t. t.1 ≡ opening_pass t.0) }
        ensures memory { IfErr result (λ e. e ≡ Memory machine) }
    {
        let about = About {
            first: Snapshot::of(&machine),
            passes: u64::from(passes),
        };
        let bench = Bench {
            machine,
            last: None,
        };
        match lay(alloc, bench, &about) {
            Ok((table, seat)) => {
                let turn = Turn {
                    table,
                    alloc,
                    about,
                };
                let pass = Pass {
                    number: 0,
                    spare: passes - 1,
                    turn: Snapshot::of(&turn),
                    seat,
                };
                Ok((turn, pass))
            }
            Err(bench) => {
                let Bench { machine, last: _ } = bench;
                Err(TurnNo::Memory(machine))
            }
        }
    }

    /// Asks the machine as soon as no other pass is in its call. Until then it yields between its tries.
    ///
    /// An entry of this pass's number is added, whose reply is the answer. A try is one load and one exchange; the call
    /// itself is two exchanges of the slot and one addition. After 18446744073709551615 entries it never returns.
    pub fn call<R: Wait>(&self, rt: &R, pass: &mut Pass<M>, ask: M::Ask) -> M::Reply
        requires of { pass.old.turn ≡ self.now }
        ensures entry { Waits pass.old ask result pass.new }
        ensures answers { M.answers self.now.kept ask result }
    {
        let mut ask = ask;
        for _ in rt.forever() {
            match self.try_call(pass, ask) {
                Ok(reply) => return reply,
                Err(busy) => {
                    let Busy { ask: back } = busy;
                    ask = back;
                    thread::yield_now();
                }
            }
        }
        unreachable!()
    }

    /// Asks the machine unless another pass is in its call. Then the ask comes back, and nothing is added. It waits for
    /// nobody.
    ///
    /// Another's doing: [`Busy`] comes only if another pass was met in this call, and never while this pass holds all
    /// numbers and there are fewer than 18446744073709551615 entries.
    pub fn try_call(&self, pass: &mut Pass<M>, ask: M::Ask) -> Result<M::Reply, Busy<M::Ask>>
        requires of { pass.old.turn ≡ self.now }
        ensures ok { IfOk result (λ reply. Adds pass.old ask reply pass.new) }
        ensures answers { IfOk result (λ reply. M.answers self.now.kept ask reply) }
        ensures busy { IfErr result (λ b. (b.ask ≡ ask) × (pass.new ≡ met_once pass.old)) }
        ensures alone { IfErr result (λ b. HoldsAll pass.old → 2 ^ 64 - 1 ≤ total (held pass.old)) }
    {
        try_serve(&self.table, self.alloc, &mut pass.seat, ask)
    }
}
