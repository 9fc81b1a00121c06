// What no clause says: that the calls which allocate succeed when there is memory; and worked stories.
use crate::{Fate, Received, Wire, WireAsk, WireReply};
use ic_base::{Bytes, Datagram, Drops, SegId};
use ic_turn::Machine;
use std::alloc::{AllocError, Global};
use std::test::Fail;

/// Nothing is lost, repeated or delayed.
fn sure(alloc: Global) -> Fate {
    Fate {
        seed: 0,
        loss: 0,
        repeat: 0,
        delay: 0,
        drops: Drops::new(alloc),
        mute: None,
    }
}

fn datagram(alloc: Global, from: SegId, to: SegId, byte: u8) -> Result<Datagram, AllocError> {
    let bytes = Bytes::from_slice(alloc, &[byte])?;
    Ok(Datagram { from, to, bytes })
}

/// The byte of the datagram that came; 0 if none came.
fn byte_of(received: &Received) -> u8 {
    match received {
        Received::Came(datagram) => datagram.bytes.as_slice().first().copied().unwrap_or(0),
        Received::Idle | Received::Quiet => 0,
    }
}

/// Sends six datagrams with the bytes 1 to 6 to segment 0, and lists the bytes of the first six receives there.
fn brought(alloc: Global, fate: Fate) -> Result<Vec<u8>, Fail> {
    let to = SegId::new(0).ok_or("none")?;
    let mut wire = Wire::new(alloc, fate, &[SegId::DISPATCHER, to])?;
    for byte in 1..7 {
        wire.send(datagram(alloc, SegId::DISPATCHER, to, byte)?)?;
    }
    let mut bytes = Vec::new(alloc);
    for _ in 0..6 {
        bytes.push(byte_of(&wire.receive(to)))?;
    }
    Ok(bytes)
}

#[test]
fn what_was_dropped_does_not_come(rt: HostRuntime) -> Result<(), Fail> {
    let mut fate = sure(rt.alloc());
    fate.drops = Drops::from_vec(vec![in rt.alloc(); 5, 2]?);
    assert_eq!(rt;
        brought(rt.alloc(), fate)?.as_slice(),
        [1, 3, 4, 6, 0, 0].as_slice()
    );
    Ok(())
}

/// The words of SplitMix64 from the state 3, by its published program: send 1 and send 5 are lost, 2 is delayed past 3, and 4
/// comes twice.
#[test]
fn a_seed_loses_repeats_and_delays(rt: HostRuntime) -> Result<(), Fail> {
    let mut fate = sure(rt.alloc());
    fate.seed = 3;
    fate.loss = 200;
    fate.repeat = 300;
    fate.delay = 4;
    assert_eq!(rt;
        brought(rt.alloc(), fate)?.as_slice(),
        [3, 2, 4, 4, 0, 0].as_slice()
    );
    Ok(())
}

#[test]
fn what_a_muted_pair_sends_is_taken_and_lost(rt: HostRuntime) -> Result<(), Fail> {
    let from = SegId::new(0).ok_or("none")?;
    let mut fate = sure(rt.alloc());
    fate.mute = Some((from, SegId::DISPATCHER));
    let mut wire = Wire::new(rt.alloc(), fate, &[SegId::DISPATCHER, from])?;
    let sent = datagram(rt.alloc(), from, SegId::DISPATCHER, 7)?;
    assert!(rt; matches!(wire.act(rt.alloc(), WireAsk::Send(sent)), WireReply::Taken));
    assert!(rt;
        matches!(
            wire.act(rt.alloc(), WireAsk::Receive(SegId::DISPATCHER)),
            WireReply::Quiet
        )
    );
    Ok(())
}

#[test]
fn it_is_quiet_once_no_other_node_has_one_in_hand(rt: HostRuntime) -> Result<(), Fail> {
    let to = SegId::new(0).ok_or("none")?;
    let fate = sure(rt.alloc());
    let mut wire = Wire::new(rt.alloc(), fate, &[SegId::DISPATCHER, to])?;
    wire.send(datagram(rt.alloc(), SegId::DISPATCHER, to, 7)?)?;
    assert!(rt; matches!(wire.receive(SegId::DISPATCHER), Received::Idle));
    assert_eq!(rt; byte_of(&wire.receive(to)), 7);
    assert!(rt; matches!(wire.receive(SegId::DISPATCHER), Received::Idle));
    assert!(rt; matches!(wire.receive(to), Received::Quiet));
    assert!(rt; matches!(wire.receive(SegId::DISPATCHER), Received::Quiet));
    Ok(())
}
