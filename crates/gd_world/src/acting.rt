// What one node does in a step.
ghost use Rattle.std.specs.Prelude.{◌≡◌, ◌<◌, true, IfOk, OnOk, OnErr};
ghost use Rattle.ic_law.specs.declared.history.HubAsk.TheVariants as ask;
ghost use Rattle.ic_law.specs.Asking.{AreEnds};
ghost use Rattle.ic_port.specs.Noding.{place_of};
ghost use Rattle.ic_desk.specs.Own.{own_ends};
ghost use Rattle.ex_slice.specs.Working.{CanTurn};
ghost use Rattle.ex_slice.specs.Turning.{is_going};
ghost use Rattle.pl_runs.specs.Logs.{log_of};
ghost use Rattle.ex_slice.specs.Slicing.{working};
ghost use Rattle.gd_world.specs.Inside.{StaysBy, Begins, Does, DoesLeave, Sat};

use ex_slice::{Slice, SliceNo, Turned};
use ic_base::{BeginNo, ConnEnd, Datagram};
use ic_desk::Desk;
use ic_law::TickNo;
use ic_port::Node;
use std::alloc::{AllocError, Global};

/// Begins a query; a hub that refuses has an entry too.
pub(crate) fn begin(
    alloc: Global,
    node: &mut Node,
    query: u32,
    ends: Vec<ConnEnd>,
) -> Result<(), AllocError>
    requires ends { AreEnds (place_of node.old) query ends.items }
    requires later { node.old.query < query }
    ensures ok { OnOk result (Does (Begins query ends.items) (ask.Begin query ends.items) node.old node.new) }
    ensures err { OnErr result (node.new ≡ node.old) }
{
    match node.begin(alloc, query, ends) {
        Ok(()) => Ok(()),
        Err(BeginNo::Old(_)) => Ok(()),
        Err(BeginNo::Twice) => Ok(()),
        Err(BeginNo::Memory) => Err(AllocError),
    }
}

/// Hands a datagram over.
pub(crate) fn deliver(alloc: Global, node: &mut Node, datagram: Datagram) -> Result<(), AllocError>
    ensures ok { OnOk result (Does StaysBy (ask.Arrive datagram) node.old node.new) }
    ensures err { OnErr result (node.new ≡ node.old) }
{
    node.arrive(alloc, datagram)
}

/// The clock goes on, or the hub refuses that.
pub(crate) fn tick(alloc: Global, node: &mut Node) -> Result<(), AllocError>
    ensures ok { OnOk result (Does StaysBy ask.Tick node.old node.new) }
    ensures err { OnErr result (node.new ≡ node.old) }
{
    match node.tick(alloc) {
        Ok(()) => Ok(()),
        Err(
            TickNo::Spent {
                key: _,
                seq: _,
                tries: _,
            },
        ) => Ok(()),
        Err(TickNo::Memory) => Err(AllocError),
    }
}

/// Leaves the last query, or the hub refuses that. Tells whether the node has left.
pub(crate) fn leave(node: &mut Node) -> Result<bool, AllocError>
    ensures ok { IfOk result (λ gone. DoesLeave gone node.old.query node.old node.new) }
    ensures err { OnErr result (node.new ≡ node.old) }
{
    node.leave()
}

/// A turn of the slice of this number at its desk.
pub(crate) fn turn(
    alloc: Global,
    node: &mut Node,
    slice: &mut Slice<'_>,
    number: u32,
) -> Result<Turned, SliceNo>
    requires { is_going slice.old.stage ≡ true → CanTurn (own_ends node.old.ends number) (log_of (own_ends node.old.ends number) node.old.entries) (working slice.old) }
    ensures { Sat (own_ends node.old.ends number) (working slice.old) (working slice.new) result node.old node.new }
{
    let mut desk = Desk::new(node, number);
    slice.turn(alloc, &mut desk)
}
