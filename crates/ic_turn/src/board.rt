// The table of a turn, by its seats: how it is laid, how a seat is served, and how the list is read off.
ghost use Rattle.std.specs.Prelude.{◌≡◌, ◌-◌, ◌<◌, ◌≤◌, ◌^◌, [], ◌∷◌, length, Some, IfOk, IfErr, IfSome};
ghost use Rattle.ic_turn.specs.declared.view.Stage.TheVariants.{Ended};
ghost use Rattle.ic_turn.specs.Parts.{unnumbered, HasAll, total};
ghost use Rattle.ic_turn.specs.Views.{opening_view, held_of, list_of, IsIdle};
ghost use Rattle.ic_turn.specs.Steps.{HasDrawn, IsSameSeat, Called, Met, IsWhole};

use crate::busy::Busy;
use crate::machine::Machine;
use crate::plays::{Board, Draw, End, Note, Place, Serve, Slot};
use crate::view::{About, Bench};
use atomic_table::Table;
use std::alloc::Global;
use std::snapshot::Snapshot;

/// Lays the machine on a table of its own. If there is no memory, it comes back.
pub(crate) fn lay<M: Machine>(
    alloc: Global,
    bench: Bench<M, M::Ask, M::Reply>,
    about: &About<M>,
) -> Result<(Board<M>, Place<M>), Bench<M, M::Ask, M::Reply>>
    requires first { about.now.first.value ≡ bench.machine }
    requires passes { 0 < about.now.passes }
    requires stands { M.stands (M.kept bench.machine) (M.state bench.machine) [] }
    ensures ok { IfOk result (λ t. (t.0.shared.table_id.words ≡ 2) × (t.0.shared.table_id.slots ≡ 1) × (t.1.table_id ≡ t.0.shared.table_id) × (t.1.me ≡ (opening_view (M.kept bench.machine) about.now.passes, []))) }
    ensures err { IfErr result (λ b. b ≡ bench) }
{
    let mut slots: Vec<Slot<M>> = Vec::new(alloc);
    if slots.reserve(1).is_err() {
        slots.destroy_empty();
        return Err(bench);
    }
    slots.push_reserved(Some(bench));
    match Table::new(alloc, &[0, 0], slots, about) {
        Ok((table, seat)) => Ok((table, seat)),
        Err(refused) => Err(first_of(refused.slots)),
    }
}

fn first_of<T>(mut slots: Vec<Option<T>>) -> T
    requires { (x : T) × (slots.items ≡ Some x ∷ []) }
    ensures { slots.items ≡ Some result ∷ [] }
{
    let Some(Some(x)) = slots.pop() else {
        unreachable!()
    };
    slots.destroy_empty();
    x
}

/// Asks the machine that the seat has, and puts it back into its slot before the next ticket is served.
fn serve<M: Machine>(table: &Board<M>, alloc: Global, seat: &mut Place<M>, ask: M::Ask) -> M::Reply
    requires of { seat.old.table_id ≡ table.now.shared.table_id }
    requires sized { (table.now.shared.table_id.words ≡ 2) × (table.now.shared.table_id.slots ≡ 1) }
    requires drawn { HasDrawn M.kept M.state seat.old.me }
    ensures same { IsSameSeat seat.old seat.new }
    ensures called { Called seat.old.me.0 ask result seat.new.me.0 × (seat.new.me.0.met ≡ seat.old.me.0.met) × IsIdle seat.new.me }
    ensures answers { IfSome seat.old.me.0.kept (λ k. M.answers k ask result) }
{
    let shared = &table.shared;
    let taken = shared.exchange(seat, 0, None);
    let Some(bench) = taken else { unreachable!() };
    let Bench {
        mut machine,
        last: _,
    } = bench;
    let asked = Snapshot::of(&ask);
    let reply = machine.act(alloc, ask);
    let replied = Snapshot::of(&reply);
    let bench = Bench {
        machine,
        last: Some((asked, replied)),
    };
    let left = shared.exchange(seat, 0, Some(bench));
    let None = left else { unreachable!() };
    shared.fetch_add::<Serve>(seat, 1, 1);
    reply
}

/// Asks the machine, unless another seat has the ticket that is served or the tickets are at an end.
pub(crate) fn try_serve<M: Machine>(
    table: &Board<M>,
    alloc: Global,
    seat: &mut Place<M>,
    ask: M::Ask,
) -> Result<M::Reply, Busy<M::Ask>>
    requires of { seat.old.table_id ≡ table.now.shared.table_id }
    requires sized { (table.now.shared.table_id.words ≡ 2) × (table.now.shared.table_id.slots ≡ 1) }
    requires idle { IsIdle seat.old.me }
    ensures same { IsSameSeat seat.old seat.new }
    ensures idle { IsIdle seat.new.me }
    ensures ok { IfOk result (λ r. Called seat.old.me.0 ask r seat.new.me.0 × (seat.new.me.0.met ≡ seat.old.me.0.met)) }
    ensures answers { IfOk result (λ r. IfSome seat.old.me.0.kept (λ k. M.answers k ask r)) }
    ensures busy { IfErr result (λ b. (b.ask ≡ ask) × Met seat.old.me.0 seat.new.me.0) }
    ensures alone { IfErr result (λ b. HasAll seat.old.me.0.passes (held_of seat.old.me.0) → 2 ^ 64 - 1 ≤ total (held_of seat.old.me.0)) }
{
    let shared = &table.shared;
    let serving = shared.load::<Note>(seat, 1);
    if serving == u64::MAX {
        return Err(Busy { ask });
    }
    let found = shared.compare_exchange::<Draw<M>>(seat, 0, serving, serving + 1);
    if found != serving {
        return Err(Busy { ask });
    }
    Ok(serve(table, alloc, seat, ask))
}

/// Reads the list off, for the seat that holds all numbers.
pub(crate) fn end<M: Machine>(table: &Board<M>, seat: &mut Place<M>)
    requires of { seat.old.table_id ≡ table.now.shared.table_id }
    requires sized { (table.now.shared.table_id.words ≡ 2) × (table.now.shared.table_id.slots ≡ 1) }
    requires idle { IsIdle seat.old.me }
    requires all { HasAll seat.old.me.0.passes (held_of seat.old.me.0) }
    ensures same { IsSameSeat seat.old seat.new }
    ensures list { IsWhole M.lawful seat.old.me.0 seat.new.me.0 }
{
    table.shared.load::<End<M>>(seat, 1);
}

/// Takes the machine out of its slot, and frees the table, after the seat has read the list off.
pub(crate) fn taken_out<M: Machine>(table: Board<M>, seat: Place<M>) -> M
    requires of { seat.table_id ≡ table.shared.table_id }
    requires sized { (table.shared.table_id.words ≡ 2) × (table.shared.table_id.slots ≡ 1) }
    requires ended { seat.me.0.stage ≡ Ended (list_of seat.me.0.stage) }
    requires some_part { 0 < length seat.me.0.parts }
    ensures kept { seat.me.0.kept ≡ Some (M.kept result) }
    ensures stands { M.stands (M.kept result) (M.state result) (unnumbered (list_of seat.me.0.stage)) }
{
    let mut closed = table.close_with(seat);
    let slot = closed.take(0);
    closed.free();
    let Some(bench) = slot else { unreachable!() };
    let Bench { machine, last: _ } = bench;
    machine
}
