//! One receiving connection: it keeps the packets that came, hands them over in order and answers the sender. No
//! socket, no clock, no lock, and no judgement of whose datagram it is.
//!
//! A hub makes one [`Receiver`] for each connection that ends at its segment, and owns it while the query lives.
//! Events are `on_packet` and `on_query`, once the hub has found that a datagram is a packet of rows or a status query
//! of this connection. Commands of the slice are `take`, which hands over the next packet's payload, for two
//! owners, and `halt`, which says that no more is wanted. Each gives the datagram that the hub then emits. `is_over` looks whether anything can
//! still be taken, `is_whole` whether all was, and `rows` how many rows were. There is nothing to do at a tick: what a
//! receiver answers is lost or not, and the sender asks again.
//!
//! Read first: `specs/Receiving.antt`, what each call does; then `specs/Standing.antt`, what a connection has to do with
//! the history of its hub. Below: `ic_recvring`, which keeps the packets, `ic_chunk`, which counts rows, and `ic_law`,
//! the law of histories. Above: the hub.
#![tactic(auto)]

mod hearing;
mod laws;
mod receiver;
mod shared_parcel;
mod take_no;
#[cfg(test)]
mod tests;

pub use laws::{keeps_law, memory_passes, others_pass};
pub use receiver::Receiver;
pub use shared_parcel::SharedParcel;
pub use take_no::TakeNo;
