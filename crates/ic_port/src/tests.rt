// What no clause says: that memory serves, once for each call that takes some.
ghost use Rattle.std.specs.Prelude.{◌≡◌, IfOk, pos, negsuc};
ghost use Rattle.ic_base.specs.Settings.{AreChecked};

use crate::Node;
use ic_base::{ConnEnd, ConnKey, Datagram, Parcel, Port, PortNo, SegId, Settings};
use ic_law::TickNo;
use std::alloc::{AllocError, Global};
use std::marker::Model;
use std::test::Fail;

/// The chunk of a row with one whole number.
const ROW: [u8; 15] = [0, 11, 0, 0, 0, 1, 1, 0, 0, 0, 0, 0, 0, 0, 10];

/// The end of motion 1 of query 1 of session 7 from this segment to the dispatcher.
fn end(from: SegId, sending: bool) -> ConnEnd
    ensures { result ≡ record { key = record { session = 7; query = 1; motion = 1; from = from; to = negsuc 0 }; sending = sending; send_slice = 1; recv_slice = 0 } }
{
    let key = ConnKey {
        session: 7,
        query: 1,
        motion: 1,
        from,
        to: SegId::DISPATCHER,
    };
    ConnEnd {
        key,
        sending,
        send_slice: 1,
        recv_slice: 0,
    }
}

/// Segment 0 or 1.
fn segment(number: i32) -> Result<SegId, Fail>
    ensures { IfOk result (λ s. s ≡ number) }
{
    Ok(SegId::new(number).ok_or("a segment")?)
}

fn settings() -> Settings
    ensures { AreChecked result }
{
    Settings::DEFAULT
}

/// The last datagram that a node emitted.
fn emitted(node: &Node) -> Result<Datagram, Fail> {
    let newest = node.entries().len().saturating_sub(1);
    let datagram = node.emitted(newest).last().ok_or("no datagram")?;
    Ok(datagram.share()?)
}

/// Segment 1, which sends in query 1.
#[derive(Drop)]
struct Sending {
    node: Node,
}

impl Model for Sending {
    ghost use Rattle.std.specs.Prelude.{negsuc};
    ghost use Rattle.ic_base.specs.Ports.{SendsTo};
    ghost use Rattle.ic_port.specs.Noding.{Noding};

    ghost Value = { Noding };

    ghost view = { λ s. s.node };

    ghost invariant = { λ s. SendsTo s.node.ends 1 (negsuc 0) };
}

impl Sending {
    fn new(alloc: Global) -> Result<Sending, Fail> {
        let at = segment(1)?;
        let mut node = Node::new(alloc, 7, at, settings())?;
        match node.begin(alloc, 1, vec![in alloc; end(at, true)]?) {
            Ok(()) => Ok(Sending { node }),
            Err(_no) => Err("not begun".into()),
        }
    }

    fn put(&mut self, alloc: Global, chunk: &[u8]) -> Result<(), PortNo> {
        self.node.put(alloc, 1, SegId::DISPATCHER, chunk)
    }

    fn finish(&mut self, alloc: Global) -> Result<(), PortNo> {
        self.node.finish(alloc, 1, SegId::DISPATCHER)
    }

    fn arrive(&mut self, alloc: Global, datagram: Datagram) -> Result<(), AllocError> {
        self.node.arrive(alloc, datagram)
    }

    fn tick(&mut self, alloc: Global) -> Result<(), TickNo> {
        self.node.tick(alloc)
    }
}

/// The dispatcher, which hears segments 0 and 1 in query 1.
#[derive(Drop)]
struct Hearing {
    node: Node,
}

impl Model for Hearing {
    ghost use Rattle.std.specs.Prelude.{pos};
    ghost use Rattle.ic_base.specs.Ports.{Hears, HearsFrom};
    ghost use Rattle.ic_port.specs.Noding.{Noding};

    ghost Value = { Noding };

    ghost view = { λ s. s.node };

    ghost invariant = { λ s. Hears s.node.ends 1 × HearsFrom s.node.ends 1 (pos 1) };
}

impl Hearing {
    fn new(alloc: Global) -> Result<Hearing, Fail> {
        let first = segment(0)?;
        let second = segment(1)?;
        let mut node = Node::new(alloc, 7, SegId::DISPATCHER, settings())?;
        let ends = vec![in alloc; end(first, false), end(second, false)]?;
        match node.begin(alloc, 1, ends) {
            Ok(()) => Ok(Hearing { node }),
            Err(_no) => Err("not begun".into()),
        }
    }

    fn take(&mut self, alloc: Global) -> Result<Parcel, PortNo> {
        self.node.take(alloc, 1)
    }

    /// Of segment 1.
    fn take_from(&mut self, alloc: Global, second: SegId) -> Result<Parcel, PortNo>
        requires { second ≡ pos 1 }
    {
        self.node.take_from(alloc, 1, second)
    }

    /// Segment 1.
    fn halt(&mut self, alloc: Global, second: SegId) -> Result<(), PortNo>
        requires { second ≡ pos 1 }
    {
        self.node.halt(alloc, 1, second)
    }

    fn arrive(&mut self, alloc: Global, datagram: Datagram) -> Result<(), AllocError> {
        self.node.arrive(alloc, datagram)
    }
}

/// A sender whose stream is put, and the dispatcher to which it came.
fn carried(alloc: Global) -> Result<(Sending, Hearing), Fail> {
    let mut sending = Sending::new(alloc)?;
    let mut hearing = Hearing::new(alloc)?;
    if sending.finish(alloc).is_err() {
        return Err("not finished".into());
    }
    hearing.arrive(alloc, emitted(&sending.node)?)?;
    Ok((sending, hearing))
}

#[test]
fn a_row_is_put(rt: HostRuntime) -> Result<(), Fail> {
    let mut sending = Sending::new(rt.alloc())?;
    assert_eq!(rt; sending.put(rt.alloc(), &ROW), Ok(()));
    Ok(())
}

#[test]
fn what_comes_is_taken(rt: HostRuntime) -> Result<(), Fail> {
    let (_sending, mut hearing) = carried(rt.alloc())?;
    assert!(rt; hearing.take(rt.alloc()).is_ok());
    Ok(())
}

#[test]
fn what_comes_is_taken_from_its_sender(rt: HostRuntime) -> Result<(), Fail> {
    let (_sending, mut hearing) = carried(rt.alloc())?;
    assert!(rt; hearing.take_from(rt.alloc(), segment(1)?).is_ok());
    Ok(())
}

#[test]
fn a_sender_is_halted(rt: HostRuntime) -> Result<(), Fail> {
    let mut hearing = Hearing::new(rt.alloc())?;
    assert_eq!(rt; hearing.halt(rt.alloc(), segment(1)?), Ok(()));
    Ok(())
}

#[test]
fn a_query_is_left(rt: HostRuntime) -> Result<(), Fail> {
    let (mut sending, hearing) = carried(rt.alloc())?;
    sending.arrive(rt.alloc(), emitted(&hearing.node)?)?;
    let mut node = sending.node;
    assert!(rt; node.leave()?);
    Ok(())
}

#[test]
fn a_tick_is_over(rt: HostRuntime) -> Result<(), Fail> {
    let mut sending = Sending::new(rt.alloc())?;
    assert_eq!(rt; sending.tick(rt.alloc()), Ok(()));
    Ok(())
}
