// Worked rows, and that memory serves.
use crate::{SealNo, SendRing};
use std::test::Fail;

/// What becomes of three packets, of an acknowledgement of the first, and of a fourth.
fn answers(ring: &mut SendRing) -> ([Result<u32, SealNo>; 4], u32) {
    let first = ring.seal(b"", false);
    let second = ring.seal(b"", false);
    let early = ring.seal(b"", false);
    let freed = ring.acked(1);
    let third = ring.seal(b"", true);
    ([first, second, early, third], freed)
}

#[test]
fn a_full_ring_seals_again_once_a_packet_is_acknowledged(rt: HostRuntime) -> Result<(), Fail> {
    let mut ring = SendRing::with_depth(rt.alloc(), 2, 128)?;
    let (sealed, freed) = answers(&mut ring);
    assert_eq!(rt; sealed, [Ok(1), Ok(2), Err(SealNo::Full), Ok(3)]);
    assert_eq!(rt; freed, 1);
    Ok(())
}
