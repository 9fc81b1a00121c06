use crate::flags::Flags;

/// The header of a datagram without the crc word, which is always 0. The fields are in the order of the words. The
/// content ids are signed: -1 is the dispatcher. Only `flags` and `len` are restricted; every other field may hold any
/// number.
#[derive(Clone, Copy, Debug, PartialEq, Eq)]
pub struct Header {
    /// The motion of the plan (motNodeId).
    pub motion: u32,
    /// This project writes 0 here, and in both ports and in the other process id.
    pub src_pid: u32,
    pub src_port: u32,
    pub dst_pid: u32,
    pub dst_port: u32,
    pub session: u32,
    /// The number of the query in its session (icId).
    pub query: u32,
    pub recv_slice: u32,
    pub send_slice: u32,
    /// The segment that sends the connection's rows, whichever way the packet goes.
    pub src_content: i32,
    /// The segment that receives the connection's rows, whichever way the packet goes.
    pub dst_content: i32,
    pub flags: Flags,
    /// The length of the whole datagram in bytes, with these 64.
    pub len: u32,
    /// The number of a packet, from 1. In an answer its meaning depends on the kind.
    pub seq: u32,
    /// The second number of an answer. 0 in rows and queries.
    pub extra: u32,
}
