// What no clause says: that memory serves, once for each call that takes some. And the bytes of an answer.
ghost use Rattle.std.specs.Prelude.{◌≡◌, false, IfOk};

use super::*;
use ic_base::{ConnEnd, ConnKey, Datagram, SegId, Settings};
use std::alloc::Global;
use std::test::Fail;

/// Motion 1 of query 1, from segment 0 to the dispatcher.
fn gather() -> Result<ConnEnd, Fail>
    ensures { IfOk result (λ end. end.sending ≡ false) }
{
    let from = SegId::new(0).ok_or("no segment")?;
    let key = ConnKey {
        session: 7,
        query: 1,
        motion: 1,
        from,
        to: SegId::DISPATCHER,
    };
    Ok(ConnEnd {
        key,
        sending: false,
        send_slice: 1,
        recv_slice: 0,
    })
}

/// It keeps four packets of 64 bytes.
fn receiver(alloc: Global) -> Result<Receiver, Fail> {
    let settings = Settings {
        packet: 128,
        ..Settings::DEFAULT
    };
    Ok(Receiver::new(alloc, gather()?, &settings)?)
}

/// The answer to a packet with three bytes.
fn came(receiver: &mut Receiver, alloc: Global, number: u32) -> Result<Datagram, Fail> {
    let answer = receiver.on_packet(alloc, number, b"row", false)?;
    Ok(answer.ok_or("no answer")?)
}

#[test]
fn an_answer_has_these_bytes(rt: HostRuntime) -> Result<(), Fail> {
    let mut receiver = receiver(rt.alloc())?;
    let answer = came(&mut receiver, rt.alloc(), 1)?;
    // Motion, pids and ports, session, query, slices, content ids, crc, flags, length, run's end and consumed number.
    let wanted: [u8; 64] = [
        0, 0, 0, 1, 0, 0, 0, 0, 0, 0, 0, 0, 0, 0, 0, 0, 0, 0, 0, 0, 0, 0, 0, 7, 0, 0, 0, 1, 0, 0,
        0, 0, 0, 0, 0, 1, 0, 0, 0, 0, 255, 255, 255, 255, 0, 0, 0, 0, 0, 0, 0, 3, 0, 0, 0, 64, 0,
        0, 0, 1, 0, 0, 0, 0,
    ];
    assert_eq!(rt; answer.bytes.as_slice(), wanted.as_slice());
    Ok(())
}

#[test]
fn a_packet_after_a_gap_is_answered(rt: HostRuntime) -> Result<(), Fail> {
    let mut receiver = receiver(rt.alloc())?;
    assert_eq!(rt; came(&mut receiver, rt.alloc(), 3)?.bytes.len(), 72);
    Ok(())
}

#[test]
fn a_repeated_packet_is_answered(rt: HostRuntime) -> Result<(), Fail> {
    let mut receiver = receiver(rt.alloc())?;
    let _first = came(&mut receiver, rt.alloc(), 1)?;
    assert_eq!(rt; came(&mut receiver, rt.alloc(), 1)?.bytes.len(), 64);
    Ok(())
}

#[test]
fn a_query_is_answered(rt: HostRuntime) -> Result<(), Fail> {
    let mut receiver = receiver(rt.alloc())?;
    assert!(rt; receiver.on_query(rt.alloc(), 9)?.is_some());
    Ok(())
}

#[test]
fn a_packet_is_taken_for_two_owners(rt: HostRuntime) -> Result<(), Fail> {
    let mut receiver = receiver(rt.alloc())?;
    let _answer = came(&mut receiver, rt.alloc(), 1)?;
    let Ok((parcel, _told)) = receiver.take(rt.alloc()) else {
        return Err("no parcel".into());
    };
    let (own, kept) = parcel.split();
    assert_eq!(rt;
        (own.payload.as_slice(), kept.payload.len()),
        (b"row".as_slice(), 3)
    );
    Ok(())
}

#[test]
fn a_sender_is_halted(rt: HostRuntime) -> Result<(), Fail> {
    let mut receiver = receiver(rt.alloc())?;
    assert!(rt; receiver.halt(rt.alloc())?.is_some());
    Ok(())
}
