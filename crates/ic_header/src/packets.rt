// The datagrams that hubs and the ends of connections emit.
ghost use Rattle.std.specs.Prelude.{◌≡◌, ℕ, List, ◌+◌, ◌*◌, ◌≤◌, [], ◌++◌, length, IfOk, OnOk};
ghost use Rattle.ic_header.specs.Spelling.{AllowsBody, Heads, written};
ghost use Rattle.ic_header.specs.Packets.{rows_flags, header_for, row_datagram, query_datagram, listing, IsAnswer, turned_header, IsTurned};

use crate::flags::Flags;
use crate::header::Header;
use crate::writing::write;
use ic_base::{Bytes, ConnEnd, Datagram, SegId};
use std::alloc::{AllocError, Global};

/// The length of a header in bytes.
pub const HEADER: usize = 64;

fn flags_of(last: bool) -> Flags
    ensures { result ≡ rows_flags last }
{
    if last { Flags::LastRows } else { Flags::Rows }
}

/// The header of a packet whose body has this many bytes.
fn header_of(end: &ConnEnd, flags: Flags, size: usize, seq: u32, extra: u32) -> Header
    requires { size ≤ 65536 }
    ensures { result ≡ header_for end.now flags size seq extra }
{
    Header {
        motion: end.key.motion,
        src_pid: 0,
        src_port: 0,
        dst_pid: 0,
        dst_port: 0,
        session: end.key.session,
        query: end.key.query,
        recv_slice: end.recv_slice,
        send_slice: end.send_slice,
        src_content: end.key.from.number(),
        dst_content: end.key.to.number(),
        flags,
        len: (HEADER + size) as u32,
        seq,
        extra,
    }
}

/// A header and then its body, in a datagram between two segments. Copies the body once.
fn datagram(
    alloc: Global,
    from: SegId,
    to: SegId,
    header: &Header,
    body: &[u8],
) -> Result<Datagram, AllocError>
    requires { length body.now ≤ 65536 }
    ensures is { IfOk result (λ d. d ≡ record { from = from; to = to; bytes = written header.now ++ body.now }) }
    ensures heads { header.now.len ≡ 64 + length body.now → AllowsBody header.now.flags (length body.now)
        → Heads header.now body.now (written header.now ++ body.now) }
{
    let mut head = [0; HEADER];
    write(header, &mut head);
    let mut bytes = Vec::with_capacity(alloc, HEADER + body.len())?;
    bytes.extend_from_slice(&head)?;
    bytes.extend_from_slice(body)?;
    Ok(Datagram {
        from,
        to,
        bytes: Bytes::from_vec(alloc, bytes)?,
    })
}

/// A packet of rows from a sending end: its number, from 1; a payload of 4..=65443 bytes; and whether the stream ends
/// with it. Copies the payload once. Fails only if out of memory.
pub fn rows_packet(
    alloc: Global,
    end: &ConnEnd,
    seq: u32,
    payload: &[u8],
    last: bool,
) -> Result<Datagram, AllocError>
    requires { length payload.now ≤ 65507 }
    ensures { IfOk result (λ d. d ≡ row_datagram end.now (record { seq = seq; payload = payload.now; last = last })) }
{
    let header = header_of(end, flags_of(last), payload.len(), seq, 0);
    datagram(alloc, end.key.from, end.key.to, &header, payload)
}

/// A status query from a sending end. `seq` is the number of the last packet before it. Fails only if out of memory.
pub fn query_packet(alloc: Global, end: &ConnEnd, seq: u32) -> Result<Datagram, AllocError>
    ensures { IfOk result (λ d. d ≡ query_datagram end.now seq) }
{
    let header = header_of(end, Flags::Query, 0, seq, 0);
    datagram(alloc, end.key.from, end.key.to, &header, &[])
}

/// An answer from a receiving end that has no body. Fails only if out of memory.
pub fn answer_packet(
    alloc: Global,
    end: &ConnEnd,
    flags: Flags,
    seq: u32,
    extra: u32,
) -> Result<Datagram, AllocError>
    requires allowed { AllowsBody flags 0 }
    ensures { IfOk result (λ d. IsAnswer end.now flags seq extra [] d) }
{
    let header = header_of(end, flags, 0, seq, extra);
    datagram(alloc, end.key.to, end.key.from, &header, &[])
}

/// The numbers as bytes, four each, in a buffer of exactly that length.
fn listed(alloc: Global, numbers: &[u32]) -> Result<Vec<u8>, AllocError>
    requires few { length numbers.now ≤ 16384 }
    ensures { IfOk result (λ bytes. bytes.items ≡ listing numbers.now) }
{
    let mut bytes = Vec::with_capacity(alloc, 4 * numbers.len())?;
    for n in numbers {
        bytes.extend_from_slice(&n.to_be_bytes())?;
    }
    Ok(bytes)
}

/// An answer from a receiving end whose body lists numbers. Fails only if out of memory.
pub fn listing_packet(
    alloc: Global,
    end: &ConnEnd,
    flags: Flags,
    seq: u32,
    extra: u32,
    numbers: &[u32],
) -> Result<Datagram, AllocError>
    requires few { length numbers.now ≤ 16384 }
    requires allowed { AllowsBody flags (4 * length numbers.now) }
    ensures { IfOk result (λ d. IsAnswer end.now flags seq extra (listing numbers.now) d) }
{
    let body = listed(alloc, numbers)?;
    let header = header_of(end, flags, 4 * numbers.len(), seq, extra);
    datagram(alloc, end.key.to, end.key.from, &header, body.as_slice())
}

/// The answer to a packet of an unknown connection, to whoever sent it. It repeats the packet's key, slices and number.
/// Fails only if out of memory.
pub fn turned_packet(
    alloc: Global,
    from: SegId,
    to: SegId,
    head: &Header,
    flags: Flags,
) -> Result<Datagram, AllocError>
    requires allowed { AllowsBody flags 0 }
    ensures { IfOk result (IsTurned from to head.now flags) }
{
    let header = Header {
        flags,
        src_pid: 0,
        src_port: 0,
        dst_pid: 0,
        dst_port: 0,
        len: 64,
        extra: 0,
        ..*head
    };
    datagram(alloc, from, to, &header, &[])
}
