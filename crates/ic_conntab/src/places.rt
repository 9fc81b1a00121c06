// The index of a query's ends.
ghost use Rattle.std.specs.Prelude.{◌≡◌, ◌==◌, ℕ, ◌<◌, length, position, slice_get, Some, All, IfSome, IfOk};
ghost use Rattle.std.specs.List.{IsDistinct};
ghost use Rattle.ic_base.specs.Keys.{key_eq};
ghost use Rattle.ic_base.specs.declared.keys.ConnKey.{ConnKey};
ghost use Rattle.ic_conntab.specs.Ends.{sending_ends, receiving_ends, keys_of, sender_at, receiver_at, motions_of, receivers_of};
ghost use Rattle.ic_conntab.specs.Slots.{slots_of, IsWithin};

use crate::finding::{
    first_places, keys_in, motions_in, receiving_keys, rows_in, sending_keys, sides_in, slots_in,
};
use crate::row::Row;
use crate::slots::{Sides, Slot};
use ic_base::{ConnEnd, ConnKey};
use indexmap::IndexSet;
use std::alloc::{AllocError, Global};
use std::marker::Model;

/// An index of one query's connection ends, by key and side and by motion. Seen as the list of the ends.
///
/// It is made once and then only read: [`sides`](Places::sides) for the key of a datagram; [`motion`](Places::motion)
/// and [`receivers`](Places::receivers) for a call that takes rows of a motion; [`order`](Places::order) for what all
/// ends do in their order.
#[derive(Drop)]
pub struct Places {
    ends: Vec<ConnEnd>,
    keys: IndexSet<ConnKey>,
    /// For each key, the positions of its ends.
    sides: Vec<Sides>,
    motions: IndexSet<u32>,
    /// For each motion, the positions of its receiving ends.
    rows: Vec<Row>,
    order: Vec<Slot>,
}

impl Model for Places {
    ghost use Rattle.std.specs.Prelude.{List};
    ghost use Rattle.ic_base.specs.declared.keys.ConnEnd.{ConnEnd};
    ghost use Rattle.ic_conntab.specs.Kept.{AreOf};

    ghost Value = { List ConnEnd };

    ghost view = { λ p. p.ends.items };

    ghost invariant = { λ p. AreOf p.ends.items p.keys.keys p.sides.items p.motions.keys p.rows.items p.order.items };
}

impl Places {
    /// Hashes each end's key a few times, and walks the receiving ends once for each motion. The ends may come in any
    /// order and number. If several ends of a side have the same key, the first is found. Fails only if out of memory.
    pub fn new(alloc: Global, ends: &[ConnEnd]) -> Result<Places, AllocError>
        ensures { IfOk result (λ p. p ≡ ends.now) }
    {
        let sending = sending_keys(alloc, ends)?;
        let receiving = receiving_keys(alloc, ends)?;
        let senders = first_places(alloc, &sending)?;
        let receivers = first_places(alloc, &receiving)?;
        let keys = keys_in(alloc, ends)?;
        let sides = sides_in(alloc, keys.as_slice(), &senders, &receivers)?;
        let motions = motions_in(alloc, &receiving)?;
        let rows = rows_in(alloc, &receiving, motions.as_slice())?;
        let order = slots_in(alloc, ends)?;
        Ok(Places {
            ends: Vec::from_slice(alloc, ends)?,
            keys,
            sides,
            motions,
            rows,
            order,
        })
    }

    /// The ends, in the order in which they were given.
    pub fn ends(&self) -> &[ConnEnd]
        ensures { result.now ≡ self.now }
    {
        self.ends.as_slice()
    }

    /// The keys of the ends, each once, in the order of their first ends.
    pub fn keys(&self) -> &[ConnKey]
        ensures value { result.now ≡ keys_of self.now }
        ensures distinct { IsDistinct key_eq result.now }
    {
        self.keys.as_slice()
    }

    /// The positions of the ends of the key at this position of `keys`. Takes one step.
    pub fn sides(&self, place: usize) -> Sides
        requires { place < length (keys_of self.now) }
        ensures sender { (key : ConnKey) → slice_get (keys_of self.now) place ≡ Some key → result.sender ≡ sender_at self.now key }
        ensures receiver { (key : ConnKey) → slice_get (keys_of self.now) place ≡ Some key → result.receiver ≡ receiver_at self.now key }
        ensures sender_within { IfSome result.sender (λ i. i < length (sending_ends self.now)) }
        ensures receiver_within { IfSome result.receiver (λ i. i < length (receiving_ends self.now)) }
    {
        self.sides[place]
    }

    /// The position of a motion among those of the receiving ends, or `None` if no receiving end has it. One look-up by
    /// hash.
    pub fn motion(&self, number: u32) -> Option<usize>
        ensures value { result ≡ position (λ m. m == number) (motions_of self.now) }
        ensures within { IfSome result (λ i. i < length (motions_of self.now)) }
    {
        self.motions.get_index_of(&number)
    }

    /// How many different motions the receiving ends have.
    pub fn motions(&self) -> usize
        ensures { result ≡ length (motions_of self.now) }
    {
        self.motions.len()
    }

    /// The positions of a motion's receiving ends among all receiving ends, in rising order. Takes one step.
    pub fn receivers(&self, motion: usize) -> &[usize]
        requires { motion < length (motions_of self.now) }
        ensures value { (number : ℕ) → slice_get (motions_of self.now) motion ≡ Some number → result.now ≡ receivers_of self.now number }
        ensures within { All (λ place. place < length (receiving_ends self.now)) result.now }
    {
        self.rows[motion].as_slice()
    }

    /// Each end's position among those of its side, in the order of the ends.
    pub fn order(&self) -> &[Slot]
        ensures value { result.now ≡ slots_of self.now }
        ensures within { All (IsWithin self.now) result.now }
    {
        self.order.as_slice()
    }
}
