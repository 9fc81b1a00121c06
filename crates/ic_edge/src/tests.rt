use super::*;
use ic_base::Bytes;
use std::alloc::{AllocError, Global};
use std::test::Fail as TestFail;

/// The calls with these numbers fail.
fn failing(alloc: Global, numbers: &[u32]) -> Result<Fails, AllocError> {
    let mut items = Vec::new(alloc);
    for nth in numbers {
        items.push(Fail {
            worker: None,
            nth: *nth,
        })?;
    }
    Ok(Fails::from_vec(items))
}

#[test]
fn a_read_that_fails_loses_no_byte(rt: HostRuntime) -> Result<(), TestFail> {
    let bytes = Bytes::from_slice(rt.alloc(), b"abcdef")?;
    let mut source = MemSource::new(bytes, failing(rt.alloc(), &[2])?);
    let mut buf = [0; 4];
    assert_eq!(rt; source.read(&mut buf), Ok(4));
    assert_eq!(rt; buf.as_slice(), b"abcd".as_slice());
    assert_eq!(rt; source.read(&mut buf), Err(Failed));
    assert_eq!(rt; source.faults(), 1);
    assert_eq!(rt; source.read(&mut buf), Ok(2));
    assert_eq!(rt; buf.as_slice(), b"efcd".as_slice());
    assert_eq!(rt; source.read(&mut buf), Ok(0));
    assert_eq!(rt; source.faults(), 1);
    Ok(())
}

#[test]
fn a_write_that_fails_keeps_what_went_before(rt: HostRuntime) -> Result<(), TestFail> {
    let mut sink = MemSink::new(rt.alloc(), failing(rt.alloc(), &[2, 3])?)?;
    assert_eq!(rt; write_all(&mut sink, b"[10]\n"), Ok(()));
    assert_eq!(rt; write_all(&mut sink, b"[11]\n"), Err(Failed));
    assert_eq!(rt; sink.write(b"[11]\n"), Err(Failed));
    assert_eq!(rt; sink.write(b"[12]\n"), Ok(5));
    assert_eq!(rt; sink.bytes(), b"[10]\n[12]\n".as_slice());
    assert_eq!(rt; sink.faults(), 2);
    Ok(())
}

#[test]
fn a_reader_of_std_is_read_to_its_end(rt: HostRuntime) -> Result<(), TestFail> {
    let mut source = StdSource::new(b"{\"rows\":[]}".as_slice());
    let all = read_whole(rt.alloc(), &mut source, 64)
        .ok()
        .ok_or("refused")?;
    assert_eq!(rt; all.as_slice(), b"{\"rows\":[]}".as_slice());
    assert_eq!(rt; source.faults(), 0);
    Ok(())
}

#[test]
fn a_writer_of_std_takes_all_pieces_in_order(rt: HostRuntime) -> Result<(), TestFail> {
    let mut sink = StdSink::new(Vec::new(rt.alloc()));
    assert_eq!(rt; write_all(&mut sink, b"[10]\n"), Ok(()));
    assert_eq!(rt; write_all(&mut sink, b""), Ok(()));
    assert_eq!(rt; write_all(&mut sink, b"# 1\n"), Ok(()));
    assert_eq!(rt; sink.faults(), 0);
    assert_eq!(rt; sink.into_inner().as_slice(), b"[10]\n# 1\n".as_slice());
    Ok(())
}
