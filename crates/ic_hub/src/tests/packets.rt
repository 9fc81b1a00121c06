// Datagrams that come, made by hand.
ghost use Rattle.std.specs.Prelude.{◌≡◌, IfOk};

use ic_base::{Bytes, Datagram, SegId};
use ic_header::{Flags, Header, write};
use std::alloc::Global;
use std::test::Fail;

/// Rows 10 and 12 and the end of stream, as packet 1 of motion 1 of query 1 of session 7, from segment 0 to the dispatcher.
pub const GOOD: [u8; 98] = [
    0, 0, 0, 1, 0, 0, 0, 0, 0, 0, 0, 0, 0, 0, 0, 0, // motion, pids and ports
    0, 0, 0, 0, 0, 0, 0, 7, 0, 0, 0, 1, 0, 0, 0, 0, // port, session, query, receiving slice
    0, 0, 0, 1, 0, 0, 0, 0, 255, 255, 255, 255, 0, 0, 0, 0, // sending slice, content ids, crc
    0, 0, 0, 8, 0, 0, 0, 98, 0, 0, 0, 1, 0, 0, 0, 0, // kind, length, number, extra one
    0, 11, 0, 0, 0, 1, 1, 0, 0, 0, 0, 0, 0, 0, 10, // row 10
    0, 11, 0, 0, 0, 1, 1, 0, 0, 0, 0, 0, 0, 0, 12, // row 12
    0, 0, 0, 4, // the end of stream
];

/// What answers that packet once its query has ended: its header with another kind, and nothing in it.
pub const STOP: [u8; 64] = [
    0, 0, 0, 1, 0, 0, 0, 0, 0, 0, 0, 0, 0, 0, 0, 0, 0, 0, 0, 0, 0, 0, 0, 7, 0, 0, 0, 1, 0, 0, 0, 0,
    0, 0, 0, 1, 0, 0, 0, 0, 255, 255, 255, 255, 0, 0, 0, 0, 0, 0, 0, 5, 0, 0, 0, 64, 0, 0, 0, 1, 0,
    0, 0, 0,
];

/// The segment of this number.
pub fn segment(number: i32) -> Result<SegId, Fail>
    ensures { IfOk result (λ s. s ≡ number) }
{
    Ok(SegId::new(number).ok_or("no segment")?)
}

/// All of the gather of query 1 from segment 0.
pub fn good(alloc: Global) -> Result<Datagram, Fail> {
    Ok(Datagram {
        from: segment(0)?,
        to: SegId::DISPATCHER,
        bytes: Bytes::from_slice(alloc, &GOOD)?,
    })
}

/// The dispatcher's answer that packet 1 of it came.
pub fn ack(alloc: Global) -> Result<Datagram, Fail> {
    let header = Header {
        motion: 1,
        src_pid: 0,
        src_port: 0,
        dst_pid: 0,
        dst_port: 0,
        session: 7,
        query: 1,
        recv_slice: 0,
        send_slice: 1,
        src_content: 0,
        dst_content: -1,
        flags: Flags::Ack,
        len: 64,
        seq: 1,
        extra: 0,
    };
    let mut bytes = [0; 64];
    write(&header, &mut bytes);
    Ok(Datagram {
        from: SegId::DISPATCHER,
        to: segment(0)?,
        bytes: Bytes::from_slice(alloc, bytes.as_slice())?,
    })
}
