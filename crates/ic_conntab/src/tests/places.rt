use crate::{Places, Sides, Slot};
use ic_base::{ConnEnd, ConnKey, SegId};
use std::test::Fail;

/// The sending or the receiving end of a connection of a motion, from the dispatcher to a segment.
fn end(motion: u32, to: SegId, sending: bool) -> ConnEnd {
    ConnEnd {
        key: ConnKey {
            session: 7,
            query: 2,
            motion,
            from: SegId::DISPATCHER,
            to,
        },
        sending,
        send_slice: 1,
        recv_slice: 0,
    }
}

#[test]
fn a_connection_to_itself_has_both_sides_under_one_key(rt: HostRuntime) -> Result<(), Fail> {
    let here = SegId::DISPATCHER;
    let there = SegId::new(1).ok_or("none")?;
    let ends = [end(1, there, true), end(1, here, true), end(1, here, false)];
    let places = Places::new(rt.alloc(), &ends)?;
    assert_eq!(rt; places.ends(), ends.as_slice());
    assert_eq!(rt; places.keys(), [ends[0].key, ends[1].key].as_slice());
    for (place, sender, receiver) in [(0, Some(0), None), (1, Some(1), Some(0))] {
        if place < places.keys().len() {
            assert_eq!(rt;
                places.sides(place),
                Sides { sender, receiver },
                "at {place}"
            );
        }
    }
    let order = [Slot::Sender(0), Slot::Sender(1), Slot::Receiver(0)];
    assert_eq!(rt; places.order(), order.as_slice());
    Ok(())
}
