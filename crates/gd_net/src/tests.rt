// What no clause says: that the calls which allocate succeed when there is memory; and worked stories.
use crate::{Network, Received};
use ic_base::{Bytes, Datagram, Drops, SegId};
use std::alloc::{AllocError, Global};
use std::test::Fail;

/// A datagram of one byte.
fn datagram(alloc: Global, from: SegId, to: SegId, byte: u8) -> Result<Datagram, AllocError> {
    let bytes = Bytes::from_slice(alloc, &[byte])?;
    Ok(Datagram { from, to, bytes })
}

/// Whether a datagram of this byte came.
fn brings(received: &Received, byte: u8) -> bool {
    match received {
        Received::Came(datagram) => datagram.bytes.as_slice() == [byte].as_slice(),
        Received::Idle | Received::Quiet => false,
    }
}

#[test]
fn the_second_of_three_is_lost_and_the_others_come_in_order(rt: HostRuntime) -> Result<(), Fail> {
    let one = SegId::new(1).ok_or("none")?;
    let to = SegId::DISPATCHER;
    let drops = Drops::from_vec(vec![in rt.alloc(); 2]?);
    let mut network = Network::new(rt.alloc(), 2, drops)?;
    for byte in 10..13 {
        network.send(datagram(rt.alloc(), one, to, byte)?)?;
    }
    assert_eq!(rt; network.sent(), 3);
    assert!(rt; brings(&network.receive(to), 10));
    assert!(rt; brings(&network.receive(to), 12));
    assert!(rt; matches!(network.receive(to), Received::Quiet));
    Ok(())
}

#[test]
fn it_is_quiet_once_nothing_is_kept_and_no_other_node_has_one_in_hand(
    rt: HostRuntime,
) -> Result<(), Fail> {
    let zero = SegId::new(0).ok_or("none")?;
    let one = SegId::new(1).ok_or("none")?;
    let mut network = Network::new(rt.alloc(), 2, Drops::new(rt.alloc()))?;
    network.send(datagram(rt.alloc(), zero, one, 7)?)?;
    assert!(rt; matches!(network.receive(zero), Received::Idle));
    assert!(rt; brings(&network.receive(one), 7));
    assert!(rt; matches!(network.receive(zero), Received::Idle));
    assert!(rt; matches!(network.receive(one), Received::Quiet));
    assert!(rt; matches!(network.receive(zero), Received::Quiet));
    Ok(())
}

#[test]
fn a_datagram_to_no_node_has_its_number_and_is_lost(rt: HostRuntime) -> Result<(), Fail> {
    let zero = SegId::new(0).ok_or("none")?;
    let far = SegId::new(1).ok_or("none")?;
    let drops = Drops::from_vec(vec![in rt.alloc(); 3, 2]?);
    let mut network = Network::new(rt.alloc(), 1, drops)?;
    network.send(datagram(rt.alloc(), zero, far, 1)?)?;
    network.send(datagram(rt.alloc(), zero, zero, 2)?)?;
    network.send(datagram(rt.alloc(), zero, zero, 3)?)?;
    network.send(datagram(rt.alloc(), zero, zero, 4)?)?;
    assert_eq!(rt; network.sent(), 4);
    assert!(rt; brings(&network.receive(zero), 4));
    assert!(rt; matches!(network.receive(far), Received::Idle));
    assert!(rt; matches!(network.receive(zero), Received::Quiet));
    assert!(rt; matches!(network.receive(far), Received::Quiet));
    Ok(())
}
