//! Which connections a segment has now, which queries have ended, and an index of a live query's connection ends. No
//! packet, no clock and no state of a connection.
//!
//! A hub keeps one [`ConnTable`] for its session and asks it first about each datagram. `begin` adds a query with its
//! connections, `leave` removes it for good, and `find` says of a datagram's key whether its query is live, and at
//! which position the connection is. No list of ended queries is kept: query numbers rise, so the greatest ended one
//! and the live ones are enough.
//!
//! For each query the hub makes one [`Places`] of the ends, in the order of `begin`, and keeps the sending and the
//! receiving ends in two lists. It asks `sides` for each datagram, and `motion` and `receivers` for each call that
//! takes rows; it walks `order` for what all ends do. A `Places` never changes.
//!
//! Below: `ic_base` for keys, ends and refusals, and the kit's `indexmap`. Above: the hub of a segment.
#![tactic(auto)]

mod answer;
mod finding;
mod keys;
mod laws;
mod live;
mod place_laws;
mod places;
mod row;
mod slots;
mod table;

pub use answer::{Find, NotLive};
pub use laws::{begun_is_found, ended_for_good, left_is_ended, place_is_its_own, top_never_falls};
pub use place_laws::{
    ends_have_their_sides, keys_are_of_ends, motions_are_received, receivers_have_the_motion,
    sides_are_found, slots_are_their_ends,
};
pub use places::Places;
pub use slots::{Sides, Slot};
pub use table::ConnTable;

#[cfg(test)]
mod tests;
