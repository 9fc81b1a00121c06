// The workers of a plan: their seats, and a fresh slice for each.
ghost use Rattle.std.specs.Prelude.{◌≡◌, ◌<◌, ◌++◌, ◌∷◌, [], List, length, map, replicate, Contains, slice_get, Some, false, ℕ, IfOk, OnOk};
ghost use Rattle.pl_tree.specs.Trees.{tree_in};
ghost use Rattle.pl_plan.specs.Motions.{slices_in};
ghost use Rattle.ex_plan.specs.Workers.{gang_in};
ghost use Rattle.gd_world.specs.declared.seat.Seat.{Seat as OneSeat};
ghost use Rattle.gd_world.specs.Workers.{seat_of, seats_of};
ghost use Rattle.gd_world.specs.Inside.{IsFreshAt, AreFreshAt};

use crate::seat::Seat;
use ex_plan::WorkerId;
use ex_slice::Slice;
use ic_base::SegId;
use pl_ops::Loaded;
use pl_plan::SoundPlan;
use std::alloc::{AllocError, Global};

/// Puts the seats of one slice behind others.
fn seat_gang(seats: &mut Vec<Seat>, slice: u32, gang: &[SegId]) -> Result<(), AllocError>
    ensures { OnOk result (seats.new.items ≡ seats.old.items ++ map (seat_of slice) gang.now) }
{
    for at in gang {
        seats.push(Seat { slice, at: *at })?;
    }
    Ok(())
}

/// The seats of all workers of a plan, from the greatest slice to slice 0, and within a slice by segment.
pub(crate) fn seats_of(alloc: Global, plan: &SoundPlan) -> Result<Vec<Seat>, AllocError>
    ensures { IfOk result (λ seats. seats.items ≡ seats_of plan.now.schemas plan.now.segments (tree_in plan.now.plan)) }
{
    let mut seats = Vec::new(alloc);
    let count = plan.slices();
    for done in 0..count {
        let slice = count - 1 - done;
        let gang = plan.gang(alloc, slice)?;
        seat_gang(&mut seats, slice, gang.as_slice())?;
    }
    Ok(seats)
}

/// The slice at one seat of a plan's worker, before its first turn.
fn slice_at<'a>(
    alloc: Global,
    plan: &SoundPlan,
    loaded: &'a Loaded,
    session: u32,
    query: u32,
    seat: &Seat,
) -> Result<Slice<'a>, AllocError>
    requires slice { seat.now.slice < slices_in (tree_in plan.now.plan) }
    requires at { Contains (gang_in plan.now seat.now.slice) seat.now.at }
    ensures { IfOk result (λ slice. IsFreshAt plan.now loaded.now session query seat.now slice) }
{
    let id = WorkerId {
        session,
        query,
        slice: seat.slice,
        at: seat.at,
    };
    Slice::new(alloc, plan, loaded, &id)
}

/// A fresh slice for each of the plan's seats.
pub(crate) fn slices_of<'a>(
    alloc: Global,
    plan: &SoundPlan,
    loaded: &'a Loaded,
    session: u32,
    query: u32,
    seats: &[Seat],
) -> Result<Vec<Slice<'a>>, AllocError>
    requires { seats.now ≡ seats_of plan.now.schemas plan.now.segments (tree_in plan.now.plan) }
    ensures { IfOk result (λ slices. AreFreshAt plan.now loaded.now session query seats.now slices.items) }
{
    plan.is_judged();
    let mut slices = Vec::new(alloc);
    for seat in seats {
        slices.push(slice_at(alloc, plan, loaded, session, query, seat)?)?;
    }
    Ok(slices)
}

/// A mark for each of so many nodes, of which none has left.
pub(crate) fn no_marks(alloc: Global, nodes: usize) -> Result<Vec<bool>, AllocError>
    ensures { IfOk result (λ marks. marks.items ≡ replicate nodes false) }
{
    let mut marks = Vec::new(alloc);
    for _ in 0..nodes {
        marks.push(false)?;
    }
    Ok(marks)
}
