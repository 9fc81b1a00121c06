// Worked payloads.
use crate::{count_more, rows_ended};

#[test]
fn rows_end_with_whole_chunks_and_ends(rt: HostRuntime) {
    let payloads: [(&str, &[u8], usize); 8] = [
        ("nothing", b"", 0),
        ("a whole row", b"\x00\x03\x00\x00\x00\x01\x00", 1),
        ("a start", b"\x00\x01\x00\x01\x00", 0),
        ("a middle", b"\x00\x01\x00\x02\x00", 0),
        ("an end", b"\x00\x01\x00\x03\x00", 1),
        ("the end of stream", b"\x00\x00\x00\x04", 0),
        ("an empty chunk", b"\x00\x00\x00\x05", 0),
        (
            "an end, two whole rows and a start",
            b"\x00\x01\x00\x03\x00\x00\x02\x00\x00\x00\x01\x00\x01\x00\x00\x07\x00\x01\x00\x01\x09",
            3,
        ),
    ];
    for (what, payload, rows) in payloads {
        assert_eq!(rt; (what, rows_ended(payload)), (what, rows));
    }
}
