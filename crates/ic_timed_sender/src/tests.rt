// What no clause says: that memory serves, once for each call that takes some, and for each kind of answer. The calls of
// `ic_sender` are run by these.
ghost use Rattle.std.specs.Prelude.{◌≡◌, ◌≤◌, false, IfOk};
ghost use Rattle.ic_header.specs.Spelling.{AllowsBody};
ghost use Rattle.ic_header.specs.Packets.{goes_forth};

use super::*;
use ic_base::{ConnEnd, ConnKey, Datagrams, Flow, SegId, Settings};
use ic_header::{Flags, Header};
use ic_sender::SendNo;
use std::alloc::Global;
use std::test::Fail;

/// Motion 1 of query 1, from segment 0 to the dispatcher, with packets of 128 bytes and one resending.
fn gather(alloc: Global, receive_depth: u32) -> Result<TimedSender, Fail>
    requires least { 1 ≤ receive_depth }
    requires most { receive_depth ≤ 256 }
    ensures { IfOk result (λ o. o.sending.settings.packet ≡ 128) }
{
    let from = SegId::new(0).ok_or("no segment")?;
    let key = ConnKey {
        session: 7,
        query: 1,
        motion: 1,
        from,
        to: SegId::DISPATCHER,
    };
    let end = ConnEnd {
        key,
        sending: true,
        send_slice: 1,
        recv_slice: 0,
    };
    let settings = Settings {
        packet: 128,
        receive_depth,
        send_depth: 2,
        retries: 1,
        flow: Flow::Capacity,
    };
    Ok(TimedSender::new(alloc, end, &settings, 0)?)
}

/// The datagrams that were given.
fn given(answer: Result<Datagrams, SendNo>) -> Result<Datagrams, Fail> {
    match answer {
        Ok(datagrams) => Ok(datagrams),
        Err(_no) => Err("refused".into()),
    }
}

fn put(out: &mut TimedSender, alloc: Global, chunk: &[u8; 60]) -> Result<Datagrams, Fail>
    requires { out.old.sending.settings.packet ≡ 128 }
    ensures { out.new.sending.settings.packet ≡ 128 }
{
    if out.is_finished() {
        return Err("it is finished".into());
    }
    given(out.put(alloc, chunk.as_slice()))
}

fn finish(out: &mut TimedSender, alloc: Global) -> Result<Datagrams, Fail> {
    if out.is_finished() {
        return Err("it is finished".into());
    }
    given(out.finish(alloc))
}

/// An answer without a body: packets up to `seq` came, and `extra` were consumed, if it is an Ack.
fn answer(flags: Flags, seq: u32, extra: u32) -> Header
    ensures { result.flags ≡ flags }
{
    Header {
        motion: 1,
        src_pid: 0,
        src_port: 0,
        dst_pid: 0,
        dst_port: 0,
        session: 7,
        query: 1,
        recv_slice: 0,
        send_slice: 1,
        src_content: 0,
        dst_content: -1,
        flags,
        len: 64,
        seq,
        extra,
    }
}

/// A tick: how many packets and status queries go out.
fn tick(out: &mut TimedSender, alloc: Global) -> Result<(usize, usize), Fail> {
    match (out.due(alloc), out.query(alloc)) {
        (Ok(due), Ok(query)) => {
            out.ticked(due.numbers.as_slice());
            Ok((due.datagrams.as_slice().len(), query.as_slice().len()))
        }
        _ => Err("given up".into()),
    }
}

/// How many datagrams go out with an answer without a body.
fn heard(
    out: &mut TimedSender,
    alloc: Global,
    flags: Flags,
    seq: u32,
    extra: u32,
) -> Result<usize, Fail>
    requires back { goes_forth flags ≡ false }
    requires allowed { AllowsBody flags 0 }
{
    let told = given(out.hear(alloc, &answer(flags, seq, extra), &[]))?;
    Ok(told.as_slice().len())
}

/// A connection with packet 1 on its way and packet 2 sealed, to a receiver with room for so many.
fn filled(alloc: Global, receive_depth: u32) -> Result<TimedSender, Fail>
    requires least { 1 ≤ receive_depth }
    requires most { receive_depth ≤ 256 }
{
    let mut out = gather(alloc, receive_depth)?;
    let _none = put(&mut out, alloc, &[1; 60])?;
    let _first = put(&mut out, alloc, &[2; 60])?;
    let _last = finish(&mut out, alloc)?;
    Ok(out)
}

#[test]
fn a_packet_that_is_full_goes_out(rt: HostRuntime) -> Result<(), Fail> {
    let mut out = gather(rt.alloc(), 4)?;
    let none = put(&mut out, rt.alloc(), &[1; 60])?;
    let first = put(&mut out, rt.alloc(), &[2; 60])?;
    assert_eq!(rt; (none.as_slice().len(), first.as_slice().len()), (0, 1));
    Ok(())
}

#[test]
fn the_last_packet_goes_out(rt: HostRuntime) -> Result<(), Fail> {
    let mut out = gather(rt.alloc(), 4)?;
    let last = finish(&mut out, rt.alloc())?;
    assert_eq!(rt; last.as_slice().len(), 1);
    Ok(())
}

#[test]
fn an_ack_of_all_is_heard(rt: HostRuntime) -> Result<(), Fail> {
    let mut out = filled(rt.alloc(), 4)?;
    let _none = heard(&mut out, rt.alloc(), Flags::Ack, 2, 2)?;
    assert!(rt; out.is_over());
    Ok(())
}

#[test]
fn an_ack_makes_room(rt: HostRuntime) -> Result<(), Fail> {
    let mut out = filled(rt.alloc(), 1)?;
    assert_eq!(rt; heard(&mut out, rt.alloc(), Flags::Ack, 1, 1)?, 1);
    Ok(())
}

#[test]
fn a_repeated_packet_is_heard(rt: HostRuntime) -> Result<(), Fail> {
    let mut out = filled(rt.alloc(), 4)?;
    let _none = heard(&mut out, rt.alloc(), Flags::Duplicate, 2, 2)?;
    assert!(rt; out.is_over());
    Ok(())
}

#[test]
fn a_query_to_come_is_heard(rt: HostRuntime) -> Result<(), Fail> {
    let mut out = filled(rt.alloc(), 4)?;
    assert_eq!(rt; heard(&mut out, rt.alloc(), Flags::Nak, 1, 0)?, 0);
    Ok(())
}

#[test]
fn what_a_report_lists_goes_out_again(rt: HostRuntime) -> Result<(), Fail> {
    let mut out = filled(rt.alloc(), 4)?;
    let report = answer(Flags::Disorder, 2, 2);
    let again = given(out.hear(rt.alloc(), &report, &[0, 0, 0, 1]))?;
    assert_eq!(rt; again.as_slice().len(), 1);
    Ok(())
}

#[test]
fn a_packet_goes_out_again_at_tick_4(rt: HostRuntime) -> Result<(), Fail> {
    let mut out = gather(rt.alloc(), 4)?;
    let _first = finish(&mut out, rt.alloc())?;
    for _ in 0..3 {
        let _none = tick(&mut out, rt.alloc())?;
    }
    assert_eq!(rt; tick(&mut out, rt.alloc())?, (1, 0));
    Ok(())
}

#[test]
fn a_receiver_without_room_is_asked_at_tick_2(rt: HostRuntime) -> Result<(), Fail> {
    let mut out = filled(rt.alloc(), 1)?;
    let _none = heard(&mut out, rt.alloc(), Flags::Ack, 1, 0)?;
    let _first = tick(&mut out, rt.alloc())?;
    assert_eq!(rt; tick(&mut out, rt.alloc())?, (0, 1));
    Ok(())
}
