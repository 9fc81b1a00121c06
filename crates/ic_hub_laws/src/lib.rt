//! What the ends of one segment's connections make together of one hub's history. No end, no hub and no socket: nothing
//! here runs.
//!
//! An entry of a hub's history is about one end, about none, or a tick. It leaves every other end standing, and the
//! points of all ends, with what the ask itself says, are the points of the hub. A hub calls nothing here: its proofs
//! cite the laws, by the modules of `proofs/`. For each call it has, in turn: the kind of its entry, of
//! `specs/Entries.antt`; that each end stands with the entry, the one that was asked by its own clause and the others
//! by `nought_passes` and its like; from that `Holds` of `specs/Laws.antt`; and then `goes_on`, which gives the law of
//! the hub, the law of emission, and that nothing was of ends to come.
//!
//! Below: `ic_sender` and `ic_receiver`, the ends, and `ic_law`. Above: the hub.
#![tactic(auto)]

mod laws;

pub use laws::{
    ahead_goes_on, answers_formed, clock_moves, concerned_passes, concerned_point,
    emission_goes_on, goes_first, goes_on, law_goes_on, left_tops, live_are_there, live_once,
    lives_from, lives_on, lives_until, nothing_spent, nought_passes, nought_point, old_upto,
    packet_spent_first, query_spent_first, served_before, served_nobody, served_now, side_is_here,
    stays_ahead, tick_passes, tick_point, turned_formed,
};
