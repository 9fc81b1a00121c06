//! All connections of one segment, in every live query of a session: what is put, taken and halted on them, what comes
//! for them and what they emit. No socket, no clock and no lock: the caller carries datagrams and says when a tick is over.
//!
//! Drive it so. `begin` a query with the ends that it has at this segment. Commands of the slices are `put`, `finish`,
//! `take`, `take_from` and `halt`. Events are `arrive`, for each datagram that the network hands over, and `tick`. Each
//! gives datagrams, and the caller sends them. `clear` says whether a query could be left, and `leave` ends it; from then
//! on a late packet of it is answered Stop, and its number never begins again. `dropped`, `counts`, `is_live`, `session`, `at` and
//! `settings` look. Who keeps a history of the calls makes its replies by the functions
//! of `replies`, and its entries by `note`.
//!
//! Read first: `specs/Standing.antt`, which histories a hub stands for; then `specs/Hubbing.antt`, what it is. Below:
//! `ic_conntab`, which finds a query's connections and their ends, `ic_timed_sender` and
//! `ic_receiver`, which are they, and `ic_hub_laws`, why what each of them keeps is the law of the hub.
#![tactic(auto)]

mod arrive;
mod begin;
mod counting;
mod counts;
mod entry;
mod finding;
mod hub;
mod laws;
mod leave;
mod put;
mod puttable;
mod query;
mod refusals;
pub mod replies;
mod take;
mod tick;

pub use counts::Counts;
pub use entry::note;
pub use hub::Hub;
pub use ic_receiver::SharedParcel;
pub use laws::{ends_tell, keeps_law, live_tells, stays_armed};
pub use puttable::is_puttable;

#[cfg(test)]
mod tests;
