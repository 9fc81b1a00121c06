// What is computed from a query's ends when the query begins.
ghost use Rattle.std.specs.Prelude.{◌≡◌, ◌==◌, ℕ, map, filter, position, not, cond, None, Some, IfOk, OnOk};
ghost use Rattle.std.specs.HashMap.{get};
ghost use Rattle.ic_base.specs.Keys.{key_eq};
ghost use Rattle.ic_base.specs.declared.keys.ConnKey.{ConnKey};
ghost use Rattle.ic_conntab.specs.Ends.{keys_of, distinct, places_where};
ghost use Rattle.ic_conntab.specs.Slots.{slots_of};
ghost use Rattle.ic_conntab.specs.declared.slots.Sides.{Sides};

use crate::row::Row;
use crate::slots::{Sides, Slot};
use ic_base::{ConnEnd, ConnKey};
use indexmap::IndexSet;
use std::alloc::{AllocError, Global};
use std::collections::HashMap;

/// The keys of the ends that send.
pub fn sending_keys(alloc: Global, ends: &[ConnEnd]) -> Result<Vec<ConnKey>, AllocError>
    ensures { IfOk result (λ v. v.items ≡ map (λ e. e.key) (filter (λ e. e.sending) ends.now)) }
{
    ends.iter()
        .filter(|e| e.sending)
        .map(|e| e.key)
        .collect(alloc)
}

/// The keys of the ends that receive.
pub fn receiving_keys(alloc: Global, ends: &[ConnEnd]) -> Result<Vec<ConnKey>, AllocError>
    ensures { IfOk result (λ v. v.items ≡ map (λ e. e.key) (filter (λ e. not e.sending) ends.now)) }
{
    ends.iter()
        .filter(|e| !e.sending)
        .map(|e| e.key)
        .collect(alloc)
}

/// The keys of ends, each once. Hashes each key once.
pub fn keys_in(alloc: Global, ends: &[ConnEnd]) -> Result<IndexSet<ConnKey>, AllocError>
    ensures { IfOk result (λ s. s.keys ≡ keys_of ends.now) }
{
    let mut keys = IndexSet::with_capacity(alloc, ends.len())?;
    for end in ends {
        keys.insert(end.key)?;
    }
    Ok(keys)
}

/// The motions of these keys, each once.
pub fn motions_in(alloc: Global, keys: &[ConnKey]) -> Result<IndexSet<u32>, AllocError>
    ensures { IfOk result (λ s. s.keys ≡ distinct (λ m n. m == n) (map (λ k. k.motion) keys.now)) }
{
    let mut motions = IndexSet::new(alloc);
    for key in keys {
        motions.insert(key.motion)?;
    }
    Ok(motions)
}

/// The first position of each key. Hashes each key twice.
pub fn first_places(alloc: Global, keys: &[ConnKey]) -> Result<HashMap<ConnKey, usize>, AllocError>
    ensures { IfOk result (λ m. (key : ConnKey) → get key_eq m key ≡ position (key_eq key) keys.now) }
{
    let mut places = HashMap::with_capacity(alloc, keys.len())?;
    for (place, key) in keys.iter().enumerate() {
        put_first(&mut places, key, place)?;
    }
    Ok(places)
}

/// Puts a key's position, unless the key has one already.
fn put_first(
    places: &mut HashMap<ConnKey, usize>,
    key: &ConnKey,
    place: usize,
) -> Result<(), AllocError>
    ensures had { OnOk result ((q : ConnKey) (at : ℕ) → get key_eq places.old q ≡ Some at → get key_eq places.new q ≡ Some at) }
    ensures had_not { OnOk result ((q : ConnKey) → get key_eq places.old q ≡ None → get key_eq places.new q ≡ cond (key_eq q key.now) (Some place) None) }
{
    if places.contains_key(key) {
        return Ok(());
    }
    places.insert(*key, place)?;
    Ok(())
}

/// For each key, the positions of its two ends.
pub fn sides_in(
    alloc: Global,
    keys: &[ConnKey],
    senders: &HashMap<ConnKey, usize>,
    receivers: &HashMap<ConnKey, usize>,
) -> Result<Vec<Sides>, AllocError>
    ensures { IfOk result (λ v. v.items ≡ map (λ k. record { sender = get key_eq senders.now k; receiver = get key_eq receivers.now k }) keys.now) }
{
    let mut sides = Vec::with_capacity(alloc, keys.len())?;
    for key in keys {
        sides.push(Sides {
            sender: senders.get(key).copied(),
            receiver: receivers.get(key).copied(),
        })?;
    }
    Ok(sides)
}

/// The positions of the keys of one motion.
fn places_of(alloc: Global, keys: &[ConnKey], motion: u32) -> Result<Vec<usize>, AllocError>
    ensures { IfOk result (λ v. v.items ≡ places_where (λ k. k.motion == motion) keys.now) }
{
    keys.iter()
        .enumerate()
        .filter(|(_, key)| key.motion == motion)
        .map(|(place, _)| place)
        .collect(alloc)
}

/// For each motion, the positions of its keys. Walks the keys once for each motion.
pub fn rows_in(alloc: Global, keys: &[ConnKey], motions: &[u32]) -> Result<Vec<Row>, AllocError>
    ensures { IfOk result (λ v. v.items ≡ map (λ m. places_where (λ k. k.motion == m) keys.now) motions.now) }
{
    let mut rows = Vec::with_capacity(alloc, motions.len())?;
    for motion in motions {
        rows.push(Row::from_vec(places_of(alloc, keys, *motion)?))?;
    }
    Ok(rows)
}

/// For each end, its position among those of its side.
pub fn slots_in(alloc: Global, ends: &[ConnEnd]) -> Result<Vec<Slot>, AllocError>
    ensures { IfOk result (λ v. v.items ≡ slots_of ends.now) }
{
    let mut slots = Vec::with_capacity(alloc, ends.len())?;
    let mut senders = 0;
    let mut receivers = 0;
    for end in ends {
        if end.sending {
            slots.push(Slot::Sender(senders))?;
            senders += 1;
        } else {
            slots.push(Slot::Receiver(receivers))?;
            receivers += 1;
        }
    }
    Ok(slots)
}
