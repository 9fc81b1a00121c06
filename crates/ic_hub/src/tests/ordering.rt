// A tick of two connections of one query, each with two due packets and a status query.
ghost use Rattle.std.specs.Prelude.{◌≡◌, pos, negsuc, IfOk};
ghost use Rattle.ic_law.specs.Asking.{IsEndHere};
ghost use Rattle.ic_hub.specs.Hubbing.{place_in};

use super::driving::{at, chunk};
use super::packets::segment;
use crate::Hub;
use ic_base::{Bytes, ConnEnd, ConnKey, Datagram, Datagrams, Flow, SegId, Settings};
use ic_header::{Flags, Header, read, write};
use std::alloc::Global;
use std::test::Fail;

/// A receiver has room for two packets, and a packet for four rows.
const NARROW: Settings = Settings {
    packet: 128,
    receive_depth: 2,
    send_depth: 8,
    retries: 3,
    flow: Flow::Capacity,
};

/// Motion 1 of query 1, from here to this segment.
fn stream(hub: &Hub, to: SegId) -> ConnKey
    ensures session { result.session ≡ hub.now.session }
    ensures query { result.query ≡ 1 }
    ensures from { result.from ≡ hub.now.at }
    ensures to { result.to ≡ to }
{
    ConnKey {
        session: hub.session(),
        query: 1,
        motion: 1,
        from: at(hub),
        to,
    }
}

fn sending(hub: &Hub, to: SegId) -> ConnEnd
    ensures here { IsEndHere (place_in hub.now) 1 result }
    ensures from { result.key.from ≡ hub.now.at }
    ensures to { result.key.to ≡ to }
{
    ConnEnd {
        key: stream(hub, to),
        sending: true,
        send_slice: 1,
        recv_slice: 0,
    }
}

/// To the dispatcher first, and then to segment 1.
fn begin(hub: &mut Hub, alloc: Global) -> Result<(), Fail>
    requires { hub.old.at ≡ pos 0 }
{
    let ends = [sending(hub, SegId::DISPATCHER), sending(hub, segment(1)?)];
    match hub.begin(alloc, 1, &ends) {
        Ok(()) => Ok(()),
        Err(_no) => Err("not begun".into()),
    }
}

/// A hub of segment 0 with both connections.
fn begun(alloc: Global) -> Result<Hub, Fail> {
    let mut hub = Hub::new(alloc, 7, segment(0)?, NARROW)?;
    begin(&mut hub, alloc)?;
    Ok(hub)
}

fn put(hub: &mut Hub, alloc: Global, to: SegId, row: u8) -> Result<(), Fail> {
    let key = stream(hub, to);
    match hub.put(alloc, &key, &chunk(row)) {
        Ok(_datagrams) => Ok(()),
        Err(_no) => Err("not put".into()),
    }
}

/// The receiver there tells its run's end and the number consumed.
fn ack(alloc: Global, to: SegId, seq: u32, extra: u32) -> Result<Datagram, Fail> {
    let header = Header {
        motion: 1,
        src_pid: 0,
        src_port: 0,
        dst_pid: 0,
        dst_port: 0,
        session: 7,
        query: 1,
        recv_slice: 0,
        send_slice: 1,
        src_content: 0,
        dst_content: to.number(),
        flags: Flags::Ack,
        len: 64,
        seq,
        extra,
    };
    let mut bytes = [0; 64];
    write(&header, &mut bytes);
    Ok(Datagram {
        from: to,
        to: segment(0)?,
        bytes: Bytes::from_slice(alloc, bytes.as_slice())?,
    })
}

/// Five packets are sealed, of which 1 and 2 go out and come; both are taken, so that 3 and 4 go out.
fn fill(hub: &mut Hub, alloc: Global, to: SegId) -> Result<(), Fail> {
    for row in 0..21 {
        put(hub, alloc, to, row)?;
    }
    let _kept = hub.arrive(alloc, &ack(alloc, to, 2, 0)?)?;
    let _taken = hub.arrive(alloc, &ack(alloc, to, 2, 2)?)?;
    Ok(())
}

fn tell(text: &mut String, datagram: &Datagram) -> Result<(), Fail> {
    let Ok((header, _body)) = read(datagram.bytes.as_slice()) else {
        return Err("no header".into());
    };
    let to = datagram.to.number();
    write!(text, "{to} {:?} {}; ", header.flags, header.seq)?;
    Ok(())
}

fn told(alloc: Global, datagrams: &Datagrams) -> Result<String, Fail> {
    let mut text = String::new(alloc);
    for datagram in datagrams.as_slice() {
        tell(&mut text, datagram)?;
    }
    Ok(text)
}

/// The second tick after what was filled last, at which all is due.
fn second_tick(hub: &mut Hub, alloc: Global) -> Result<String, Fail> {
    let Ok(_first) = hub.tick(alloc) else {
        return Err("refused".into());
    };
    match hub.tick(alloc) {
        Ok(datagrams) => told(alloc, &datagrams),
        Err(_no) => Err("refused".into()),
    }
}

const ALL: &str = "-1 Rows 3; -1 Rows 4; 1 Rows 3; 1 Rows 4; -1 Query 4; 1 Query 4; ";

#[test]
fn a_tick_serves_all_packets_of_a_query_before_its_status_queries(
    rt: HostRuntime,
) -> Result<(), Fail> {
    let mut hub = begun(rt.alloc())?;
    fill(&mut hub, rt.alloc(), segment(1)?)?;
    fill(&mut hub, rt.alloc(), SegId::DISPATCHER)?;
    let text = second_tick(&mut hub, rt.alloc())?;
    assert_eq!(rt; text.as_str(), ALL);
    Ok(())
}
