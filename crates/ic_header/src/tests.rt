use super::*;
use ic_base::{ConnEnd, ConnKey, Datagram, SegId};
use std::test::*;

/// The only packet of a stream of two rows, from segment 0 to the dispatcher. `vectors/header.txt` explains each word.
const LAST: [u8; 98] = [
    0, 0, 0, 1, 0, 0, 0, 0, 0, 0, 0, 0, 0, 0, 0, 0, 0, 0, 0, 0, 0, 0, 0, 7, 0, 0, 0, 1, 0, 0, 0, 0,
    0, 0, 0, 1, 0, 0, 0, 0, 255, 255, 255, 255, 0, 0, 0, 0, 0, 0, 0, 8, 0, 0, 0, 98, 0, 0, 0, 1, 0,
    0, 0, 0, 0, 11, 0, 0, 0, 1, 1, 0, 0, 0, 0, 0, 0, 0, 10, 0, 11, 0, 0, 0, 1, 1, 0, 0, 0, 0, 0, 0,
    0, 12, 0, 0, 0, 4,
];

const LAST_HEADER: Header = Header {
    motion: 1,
    src_pid: 0,
    src_port: 0,
    dst_pid: 0,
    dst_port: 0,
    session: 7,
    query: 1,
    recv_slice: 0,
    send_slice: 1,
    src_content: 0,
    dst_content: -1,
    flags: Flags::LastRows,
    len: 98,
    seq: 1,
    extra: 0,
};

/// An answer in which no two words are the same. The content ids are the least one and -2, one below the dispatcher.
const ACK: [u8; 64] = [
    1, 2, 3, 4, 5, 6, 7, 8, 9, 10, 11, 12, 13, 14, 15, 16, 17, 18, 19, 20, 21, 22, 23, 24, 25, 26,
    27, 28, 29, 30, 31, 32, 33, 34, 35, 36, 128, 0, 0, 0, 255, 255, 255, 254, 0, 0, 0, 0, 0, 0, 0,
    3, 0, 0, 0, 64, 254, 253, 252, 251, 250, 249, 248, 247,
];

const ACK_HEADER: Header = Header {
    motion: 0x0102_0304,
    src_pid: 0x0506_0708,
    src_port: 0x090a_0b0c,
    dst_pid: 0x0d0e_0f10,
    dst_port: 0x1112_1314,
    session: 0x1516_1718,
    query: 0x191a_1b1c,
    recv_slice: 0x1d1e_1f20,
    send_slice: 0x2122_2324,
    src_content: i32::MIN,
    dst_content: -2,
    flags: Flags::Ack,
    len: 64,
    seq: 0xfefd_fcfb,
    extra: 0xfaf9_f8f7,
};

#[test]
fn the_last_packet_of_a_stream_is_read_with_its_body(rt: HostRuntime) -> Result<(), Fail> {
    let (header, body) = read(&LAST).ok().ok_or("it is a datagram")?;
    assert_eq!(rt; header, LAST_HEADER);
    assert_eq!(rt; body, LAST.split_at(64).1);
    Ok(())
}

#[test]
fn each_word_has_its_own_place(rt: HostRuntime) -> Result<(), Fail> {
    let (header, body) = read(&ACK).ok().ok_or("it is a datagram")?;
    assert_eq!(rt; header, ACK_HEADER);
    assert_eq!(rt; body.len(), 0);
    let mut out = [7; 64];
    write(&ACK_HEADER, &mut out);
    assert_eq!(rt; out, ACK);
    write(&LAST_HEADER, &mut out);
    assert_eq!(rt; out.as_slice(), LAST.split_at(64).0);
    Ok(())
}

/// The sending end of the connection of `LAST`.
fn end() -> Result<ConnEnd, Fail> {
    let from = SegId::new(0).ok_or("a segment")?;
    let to = SegId::DISPATCHER;
    let key = ConnKey {
        session: 7,
        query: 1,
        motion: 1,
        from,
        to,
    };
    Ok(ConnEnd {
        key,
        sending: true,
        send_slice: 1,
        recv_slice: 0,
    })
}

#[test]
fn rows_go_in_the_packet_of_the_vectors(rt: HostRuntime) -> Result<(), Fail> {
    let packet = rows_packet(rt.alloc(), &end()?, 1, LAST.split_at(64).1, true)?;
    assert_eq!(rt; packet.bytes.as_slice(), LAST.as_slice());
    Ok(())
}

/// The word of the kind, and the number of bytes.
fn kind_and_len(packet: &Datagram) -> Option<(u8, usize)> {
    let bytes = packet.bytes.as_slice();
    Some((*bytes.get(51)?, bytes.len()))
}

#[test]
fn a_status_query_is_made(rt: HostRuntime) -> Result<(), Fail> {
    let packet = query_packet(rt.alloc(), &end()?, 1)?;
    assert_eq!(rt; kind_and_len(&packet), Some((128, 64)));
    Ok(())
}

#[test]
fn an_answer_is_made(rt: HostRuntime) -> Result<(), Fail> {
    let packet = answer_packet(rt.alloc(), &end()?, Flags::Ack, 1, 0)?;
    assert_eq!(rt; kind_and_len(&packet), Some((3, 64)));
    Ok(())
}

#[test]
fn an_answer_that_lists_numbers_is_made(rt: HostRuntime) -> Result<(), Fail> {
    let packet = listing_packet(rt.alloc(), &end()?, Flags::Disorder, 4, 4, &[2, 3])?;
    assert_eq!(rt; kind_and_len(&packet), Some((33, 72)));
    Ok(())
}

#[test]
fn a_packet_is_turned_back(rt: HostRuntime) -> Result<(), Fail> {
    let here = SegId::DISPATCHER;
    let packet = turned_packet(rt.alloc(), here, here, &LAST_HEADER, Flags::Nak)?;
    assert_eq!(rt; kind_and_len(&packet), Some((17, 64)));
    Ok(())
}
