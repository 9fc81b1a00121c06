//! The packets that wait for an answer, by the tick at which their time is over. No packet's bytes, no sending and no
//! clock: the caller says which tick it is.
//!
//! Each sending connection has an [`Expiry`]. A sender `put`s each packet that it emits, and `cut`s those that an
//! answer frees. Each tick asks for what is `due`: these packets are taken out, and whoever emits them again `put`s
//! them again. If a tick may still be refused it first looks, with `due_at`, and then lets the time `pass`. Ticks are
//! the caller's count, from 0.
//!
//! Below: std alone. Above: senders and the hub.
#![tactic(auto)]

mod dues;
mod expiry;
mod item;
mod laws;

pub use dues::{Due, Dues};
pub use expiry::Expiry;
pub use laws::{cut_keeps_others, due_gives, due_takes, put_holds, put_keeps_others, rest_holds};

#[cfg(test)]
mod tests;
