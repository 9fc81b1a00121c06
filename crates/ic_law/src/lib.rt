//! Histories of hubs, and the laws on them. No hub, no ring and no clock.
//!
//! A history is the list of a hub's entries, each a call (ask) with its reply. Everything is read from it: what was
//! sent, taken, emitted and heard. A hub's law is a fact about its history: `specs/History.antt`, `specs/Hub.antt`.
//! `streams_follow` is the main law: if the network delivers only what was emitted, and each hub obeys its law, then
//! the rows taken on a connection are a prefix of the rows sent.
//!
//! A worker over a port speaks only of its own calls with their replies. `specs/Logs.antt` reads that log from the
//! history of the worker's hub.
//!
//! Below: `ic_base`, `ic_row`, `ic_header`, `ic_chunk`, `ic_window`. Above: the ends of connections, and the hub.
#![tactic(auto)]

mod history;
mod laws;
mod log_laws;
mod parting;

pub use history::{
    Arrived, DropCause, Entry, Histories, History, HubAsk, HubNo, HubReply, LeaveNo, TickNo,
    Unclear,
};
pub use laws::streams_follow;
pub use log_laws::{log_grows, none_yet, others_pass};

#[cfg(test)]
mod tests;
