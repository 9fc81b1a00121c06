// Worked rows, and that memory serves.
use crate::{RecvRing, Seqs, Store};
use std::alloc::{AllocError, Global};
use std::test::Fail;

/// What becomes of packets 1 to 5, of the fifth again once the front is consumed, and of the first again.
fn answers(ring: &mut RecvRing) -> [Store; 7] {
    let first = ring.store(1, b"row", false);
    let second = ring.store(2, b"row", false);
    let third = ring.store(3, b"row", false);
    let fourth = ring.store(4, b"row", false);
    let early = ring.store(5, b"row", false);
    if ring.front().is_some() {
        ring.consume();
    }
    let fifth = ring.store(5, b"row", false);
    let again = ring.store(1, b"row", false);
    [first, second, third, fourth, early, fifth, again]
}

#[test]
fn a_full_ring_takes_the_next_packet_once_one_is_consumed(rt: HostRuntime) -> Result<(), Fail> {
    let mut ring = RecvRing::with_depth(rt.alloc(), 4, 128)?;
    let wanted = [
        Store::Stored,
        Store::Stored,
        Store::Stored,
        Store::Stored,
        Store::Beyond,
        Store::Stored,
        Store::Duplicate,
    ];
    assert_eq!(rt; answers(&mut ring), wanted);
    assert_eq!(rt; ring.run_end(), 5);
    Ok(())
}

fn missing_before(alloc: Global, seq: u32) -> Result<Seqs, AllocError> {
    let mut ring = RecvRing::with_depth(alloc, 4, 128)?;
    let _stored = ring.store(seq, b"", false);
    ring.missing(alloc)
}

#[test]
fn numbers_before_the_first_packet_are_missing(rt: HostRuntime) -> Result<(), Fail> {
    let seqs = missing_before(rt.alloc(), 3)?;
    assert_eq!(rt; seqs.into_vec().as_slice(), [1, 2].as_slice());
    Ok(())
}
