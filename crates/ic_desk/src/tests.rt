// What no clause says: that a desk's calls go through to the node if memory serves.
ghost use Rattle.std.specs.Prelude.{◌≡◌, true, negsuc, IfOk};
ghost use Rattle.ic_base.specs.Settings.{AreChecked};
ghost use Rattle.ic_base.specs.Ports.{SendsTo};
ghost use Rattle.ic_desk.specs.Own.{own_ends};

use crate::Desk;
use ic_base::{ConnEnd, ConnKey, Port, PortNo, SegId, Settings};
use ic_port::Node;
use std::alloc::Global;
use std::test::Fail;

/// The end of motion 1 of query 1 of session 7 from this segment to the dispatcher, by which slice 1 sends.
fn end(from: SegId) -> ConnEnd
    ensures { result ≡ record { key = record { session = 7; query = 1; motion = 1; from = from; to = negsuc 0 }; sending = true; send_slice = 1; recv_slice = 0 } }
{
    let key = ConnKey {
        session: 7,
        query: 1,
        motion: 1,
        from,
        to: SegId::DISPATCHER,
    };
    ConnEnd {
        key,
        sending: true,
        send_slice: 1,
        recv_slice: 0,
    }
}

fn segment(number: i32) -> Result<SegId, Fail>
    ensures { IfOk result (λ s. s ≡ number) }
{
    Ok(SegId::new(number).ok_or("a segment")?)
}

fn settings() -> Settings
    ensures { AreChecked result }
{
    Settings::DEFAULT
}

/// Segment 1, which sends in query 1 by slice 1.
fn sending(alloc: Global) -> Result<Node, Fail>
    ensures { IfOk result (λ n. SendsTo (own_ends n.ends 1) 1 (negsuc 0)) }
{
    let at = segment(1)?;
    let mut node = Node::new(alloc, 7, at, settings())?;
    match node.begin(alloc, 1, vec![in alloc; end(at)]?) {
        Ok(()) => Ok(node),
        Err(_no) => Err("not begun".into()),
    }
}

/// What a worker finishes by its desk.
fn finished(alloc: Global, node: &mut Node) -> Result<(), PortNo>
    requires { SendsTo (own_ends node.old.ends 1) 1 (negsuc 0) }
{
    let mut desk = Desk::new(node, 1);
    desk.finish(alloc, 1, SegId::DISPATCHER)
}

#[test]
fn a_desk_finishes(rt: HostRuntime) -> Result<(), Fail> {
    let mut node = sending(rt.alloc())?;
    assert_eq!(rt; finished(rt.alloc(), &mut node), Ok(()));
    Ok(())
}
