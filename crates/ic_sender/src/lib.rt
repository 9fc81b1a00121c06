//! One sending connection: it fills packets with chunks, emits them in order while there is room, and again until they
//! are answered. No socket, no clock, no lock, and no judgement of whose datagram it is.
//!
//! [`Sender`] is what a hub has for each connection that sends from its segment, with an `Expiry` for what waits for an
//! answer, under the connection's number, and the tick: the caller hands both to each call. Commands of the slice are
//! `put` and `finish`. Events are `on_ack`, `on_duplicate`, `on_disorder`, `on_nak` and `on_stop`, once the hub has found
//! that a datagram is such an answer. Each gives the datagrams that the hub then emits. A tick has two phases, so that a
//! refused one changes nothing: `due_gives` and `query_gives` look, for all connections first, and then `due_done` and
//! `query_done` make the change. `is_over`, `is_stopped`, `is_finished`, `unacked`, `sent`, `resent` and `query_due` look.
//!
//! Read first: `specs/Sending.antt`, what each event makes of a connection; `specs/Calls.antt`, what each call answers;
//! then `specs/Standing.antt`, what a connection has to do with the history of its hub. Below: `ic_sendring`, `ic_window`,
//! `ic_expire` and `ic_law`. Above: `ic_timed_sender`, which keeps a queue and the tick beside it, and the hub.
#![tactic(auto)]

mod answers;
mod flight;
mod laws;
mod listing;
mod numbers;
mod planning;
mod put;
mod send_no;
mod sender;
mod ticks;
mod waiting;

pub use laws::{
    keeps_law, new_stands, others_pass, others_wait, over_tells, stays_armed, ticks_stand,
};
pub use send_no::SendNo;
pub use sender::Sender;
