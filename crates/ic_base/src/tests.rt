// What no clause says: that the calls which allocate succeed when there is memory.
use super::*;
use std::test::Fail;

#[test]
fn bytes_are_made_and_shared(rt: HostRuntime) -> Result<(), Fail> {
    let moved = Bytes::from_vec(rt.alloc(), b"\x00\xff".to_vec(rt.alloc())?)?;
    assert_eq!(rt; moved.share()?.as_slice(), b"\x00\xff".as_slice());
    Ok(())
}

#[test]
fn bytes_are_copied(rt: HostRuntime) -> Result<(), Fail> {
    let copied = Bytes::from_slice(rt.alloc(), b"ack")?;
    assert_eq!(rt; copied.as_slice(), b"ack".as_slice());
    Ok(())
}

#[test]
fn a_text_is_copied(rt: HostRuntime) -> Result<(), Fail> {
    let text = Text::from_string(String::from_str(rt.alloc(), "k\u{e4}se")?);
    assert_eq!(rt; text.copy(rt.alloc())?.as_str(), "k\u{e4}se");
    Ok(())
}

#[test]
fn a_lost_send_is_added(rt: HostRuntime) -> Result<(), Fail> {
    let mut drops = Drops::new(rt.alloc());
    drops.push(3)?;
    assert_eq!(rt; drops.as_slice(), [3].as_slice());
    Ok(())
}

#[test]
fn datagrams_are_made_and_added(rt: HostRuntime) -> Result<(), Fail> {
    let here = SegId::DISPATCHER;
    let first = Datagram {
        from: here,
        to: here,
        bytes: Bytes::from_slice(rt.alloc(), b"ab")?,
    };
    let again = first.share()?;
    let mut all = Datagrams::one(rt.alloc(), first)?;
    all.push(again)?;
    assert_eq!(rt; all.as_slice().len(), 2);
    Ok(())
}
