// What no clause says: that memory serves, once for each call that takes some. And the bytes of two datagrams.
mod driving;
mod ordering;
mod packets;

use crate::Hub;
use driving::{at, begun, chunk, gather};
use ic_base::{Datagram, Datagrams};
use packets::{GOOD, STOP, ack, good, segment};
use std::alloc::Global;
use std::test::Fail;

/// The one datagram of these.
fn one(datagrams: Datagrams) -> Result<Datagram, Fail> {
    Ok(datagrams.into_vec().pop().ok_or("no datagram")?)
}

/// How many packets go out with a row.
fn put(hub: &mut Hub, alloc: Global, row: u8) -> Result<usize, Fail> {
    let key = gather(hub, 1, at(hub));
    match hub.put(alloc, &key, &chunk(row)) {
        Ok(datagrams) => Ok(datagrams.as_slice().len()),
        Err(_no) => Err("not put".into()),
    }
}

fn finish(hub: &mut Hub, alloc: Global) -> Result<Datagram, Fail> {
    let key = gather(hub, 1, at(hub));
    match hub.finish(alloc, &key) {
        Ok(datagrams) => one(datagrams),
        Err(_no) => Err("not finished".into()),
    }
}

fn halt(hub: &mut Hub, alloc: Global, from: i32) -> Result<Datagram, Fail> {
    let key = gather(hub, 1, segment(from)?);
    match hub.halt(alloc, &key) {
        Ok(datagrams) => one(datagrams),
        Err(_no) => Err("not halted".into()),
    }
}

/// How many datagrams a tick gives.
fn tick(hub: &mut Hub, alloc: Global) -> Result<usize, Fail> {
    match hub.tick(alloc) {
        Ok(datagrams) => Ok(datagrams.as_slice().len()),
        Err(_no) => Err("refused".into()),
    }
}

/// The answer to what comes.
fn answer(hub: &mut Hub, alloc: Global, datagram: &Datagram) -> Result<Datagram, Fail> {
    let (_how, datagrams) = hub.arrive(alloc, datagram)?;
    one(datagrams)
}

/// A dispatcher's hub to which all of segment 0 came.
fn heard(alloc: Global) -> Result<Hub, Fail> {
    let mut hub = begun(alloc, -1)?;
    let _ack = answer(&mut hub, alloc, &good(alloc)?)?;
    Ok(hub)
}

/// A dispatcher's hub that wanted nothing and has left the query.
fn left(alloc: Global) -> Result<Hub, Fail> {
    let mut hub = begun(alloc, -1)?;
    let _first = halt(&mut hub, alloc, 0)?;
    let _second = halt(&mut hub, alloc, 1)?;
    match hub.leave(1) {
        Ok(()) => Ok(hub),
        Err(_no) => Err("not left".into()),
    }
}

#[test]
fn rows_are_put(rt: HostRuntime) -> Result<(), Fail> {
    let mut hub = begun(rt.alloc(), 0)?;
    assert_eq!(rt; put(&mut hub, rt.alloc(), 10)?, 0);
    Ok(())
}

#[test]
fn a_packet_has_these_bytes(rt: HostRuntime) -> Result<(), Fail> {
    let mut hub = begun(rt.alloc(), 0)?;
    let _first = put(&mut hub, rt.alloc(), 10)?;
    let _second = put(&mut hub, rt.alloc(), 12)?;
    let packet = finish(&mut hub, rt.alloc())?;
    assert_eq!(rt; packet.bytes.as_slice(), GOOD.as_slice());
    Ok(())
}

#[test]
fn what_comes_is_taken(rt: HostRuntime) -> Result<(), Fail> {
    let mut hub = heard(rt.alloc())?;
    assert!(rt; hub.take(rt.alloc(), 1, 1).is_ok());
    Ok(())
}

#[test]
fn what_comes_is_taken_from_its_sender(rt: HostRuntime) -> Result<(), Fail> {
    let mut hub = heard(rt.alloc())?;
    let key = gather(&hub, 1, segment(0)?);
    assert!(rt; hub.take_from(rt.alloc(), &key).is_ok());
    Ok(())
}

#[test]
fn an_answer_is_heard(rt: HostRuntime) -> Result<(), Fail> {
    let mut hub = begun(rt.alloc(), 0)?;
    let _packet = finish(&mut hub, rt.alloc())?;
    let _heard = hub.arrive(rt.alloc(), &ack(rt.alloc())?)?;
    assert_eq!(rt; hub.leave(1), Ok(()));
    Ok(())
}

#[test]
fn a_packet_goes_out_again(rt: HostRuntime) -> Result<(), Fail> {
    let mut hub = begun(rt.alloc(), 0)?;
    let _packet = finish(&mut hub, rt.alloc())?;
    for _ in 0..3 {
        let _idle = tick(&mut hub, rt.alloc())?;
    }
    assert_eq!(rt; tick(&mut hub, rt.alloc())?, 1);
    Ok(())
}

#[test]
fn a_late_packet_is_answered_so(rt: HostRuntime) -> Result<(), Fail> {
    let mut hub = left(rt.alloc())?;
    let stop = answer(&mut hub, rt.alloc(), &good(rt.alloc())?)?;
    assert_eq!(rt; stop.bytes.as_slice(), STOP.as_slice());
    Ok(())
}
