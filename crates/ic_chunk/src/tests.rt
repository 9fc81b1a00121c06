// Worked bytes, and what no clause says: that the calls which allocate succeed when there is memory.
ghost use Rattle.std.specs.Prelude.{◌≤◌};

mod counting;

use super::*;
use ic_base::Bytes;
use ic_row::Value;
use std::alloc::Global;
use std::test::Fail;

/// A row of one null, `00 01 00`, in a whole chunk.
const NULL_ROW: &[u8] = b"\x00\x03\x00\x00\x00\x01\x00";

fn fault_of(fed: Result<Fed, FeedNo>) -> Option<u32> {
    match fed {
        Err(FeedNo::ChunkFault { chunk }) => Some(chunk),
        _ => None,
    }
}

fn rows_of(fed: Result<Fed, FeedNo>) -> Option<usize> {
    fed.ok().map(|it| it.rows.len())
}

#[test]
fn each_fault_names_its_chunk_and_is_forgotten(rt: HostRuntime) {
    let faults: [(&str, &[u8], u32); 19] = [
        ("unknown kind", b"\x00\x03\x00\x06\x00\x01\x00", 0),
        ("kind in the high byte", b"\x00\x03\x01\x00\x00\x01\x00", 0),
        ("whole of size 0", b"\x00\x00\x00\x00", 0),
        ("end of stream with a body", b"\x00\x01\x00\x04\x00", 0),
        ("empty with a body", b"\x00\x01\x00\x05\x00", 0),
        ("head cut off", b"\x00\x03\x00", 0),
        ("body cut off", b"\x00\x03\x00\x00\x00\x01", 0),
        ("little-endian size", b"\x03\x00\x00\x00\x00\x01\x00", 0),
        ("middle without a start", b"\x00\x01\x00\x02\x00", 0),
        ("end without a start", b"\x00\x01\x00\x03\x00", 0),
        (
            "whole within a row",
            b"\x00\x01\x00\x01\x00\x00\x03\x00\x00\x00\x01\x00",
            1,
        ),
        (
            "start within a row",
            b"\x00\x01\x00\x01\x00\x00\x01\x00\x01\x00",
            1,
        ),
        (
            "end of stream within a row",
            b"\x00\x01\x00\x01\x00\x00\x00\x00\x04",
            1,
        ),
        (
            "whole behind the end of stream",
            b"\x00\x00\x00\x04\x00\x03\x00\x00\x00\x01\x00",
            1,
        ),
        (
            "empty behind the end of stream",
            b"\x00\x00\x00\x04\x00\x00\x00\x05",
            1,
        ),
        (
            "a second end of stream",
            b"\x00\x00\x00\x04\x00\x00\x00\x04",
            1,
        ),
        ("no row's spelling", b"\x00\x03\x00\x00\x00\x01\x04", 0),
        (
            "a byte behind a row",
            b"\x00\x04\x00\x00\x00\x01\x00\x00",
            0,
        ),
        (
            "an end that spells no row",
            b"\x00\x00\x00\x05\x00\x01\x00\x01\x00\x00\x01\x00\x03\x02",
            2,
        ),
    ];
    for (name, payload, chunk) in faults {
        let mut joiner = Joiner::new(rt.alloc());
        assert_eq!(rt;
            fault_of(joiner.feed(rt.alloc(), payload)),
            Some(chunk),
            "{name}"
        );
        assert_eq!(rt;
            rows_of(joiner.feed(rt.alloc(), NULL_ROW)),
            Some(1),
            "{name}, then a row"
        );
    }
}

#[test]
fn a_row_comes_with_the_payload_that_ends_it(rt: HostRuntime) -> Result<(), Fail> {
    let mut joiner = Joiner::new(rt.alloc());
    let fed = joiner.feed(
        rt.alloc(),
        b"\x00\x03\x00\x00\x00\x01\x00\x00\x02\x00\x01\x00\x01",
    )?;
    assert_eq!(rt; fed.rows.len(), 1);
    let fed = joiner.feed(rt.alloc(), b"\x00\x01\x00\x02\x01\x00\x00\x00\x05")?;
    assert_eq!(rt; fed.rows.len(), 0);
    let fed = joiner.feed(
        rt.alloc(),
        b"\x00\x08\x00\x03\x00\x00\x00\x00\x00\x00\x00\x0a\x00\x00\x00\x04",
    )?;
    assert!(rt; fed.ended);
    assert_eq!(rt; fed.rows.len(), 1);
    for row in fed.rows.as_slice() {
        assert!(rt; matches!(row.as_slice(), [Value::Int(10)]));
    }
    Ok(())
}

/// How many starts, middles and ends of these sizes a spelling is cut into, and how many other chunks.
fn counts(alloc: Global, spelling: &[u8], packet: u32, last: u8) -> Result<[u32; 4], Fail>
    requires least { 128 ≤ packet }
    requires greatest { packet ≤ 65507 }
{
    let mut splitter = Splitter::new(Bytes::from_slice(alloc, spelling)?, packet);
    let mut counts = [0u32; 4];
    for _ in 0..1000 {
        let mut out = Vec::new(alloc);
        if !splitter.next(&mut out)? {
            break;
        }
        let place = match out.as_slice() {
            [0, 56, 0, 1, ..] => 0,
            [0, 56, 0, 2, ..] => 1,
            [0, size, 0, 3, ..] if *size == last => 2,
            _ => 3,
        };
        counts[place] = counts[place].wrapping_add(1);
    }
    Ok(counts)
}

#[test]
fn a_row_of_20007_bytes_is_a_start_356_middles_and_an_end_of_15(
    rt: HostRuntime,
) -> Result<(), Fail> {
    let spelling = vec![in rt.alloc(); 0u8; 20007]?;
    assert_eq!(rt;
        counts(rt.alloc(), spelling.as_slice(), 128, 15)?,
        [1, 356, 1, 0]
    );
    Ok(())
}

#[test]
fn a_stream_ends_with_four_bytes(rt: HostRuntime) -> Result<(), Fail> {
    let mut payload = Vec::new(rt.alloc());
    push_end_of_stream(&mut payload)?;
    assert_eq!(rt; payload.as_slice(), [0, 0, 0, 4].as_slice());
    Ok(())
}
