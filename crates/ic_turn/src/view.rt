// What the rule of a turn speaks of. No value of these types is made, but for the bench in the slot and what the table is told.
use crate::entry::Entry;
use std::collections::LinkedList;
use std::snapshot::Snapshot;

/// The machine in its slot, with the last ask and reply once there is one.
#[derive(Drop)]
pub struct Bench<M, Ask, Reply> {
    pub machine: M,
    pub last: Option<(Snapshot<Ask>, Snapshot<Reply>)>,
}

/// An entry with its place in the list, from 0.
pub struct Placed<Ask, Reply> {
    pub place: u64,
    pub entry: Entry<Ask, Reply>,
}

/// An entry with the number of its pass.
pub struct Numbered<Ask, Reply> {
    pub number: u64,
    pub entry: Entry<Ask, Reply>,
}

/// The entries of one number.
pub struct Part<Ask, Reply> {
    pub number: u64,
    pub entries: LinkedList<Placed<Ask, Reply>>,
}

/// Where a pass is in its call.
pub enum Stage<Ask, Reply, State> {
    Idle,
    /// It noted this number of entries.
    Noted(u64),
    /// It has this ticket, and took the machine in this state.
    Holding(u64, State),
    /// It read off the whole list.
    Ended(LinkedList<Numbered<Ask, Reply>>),
}

/// What a seat at the table knows. The view of a pass that was joined away has no part.
pub struct View<Ask, Reply, Kept, State> {
    pub stage: Stage<Ask, Reply, State>,
    pub kept: Option<Kept>,
    pub passes: u64,
    pub met: u64,
    /// It may still give the numbers from 1 to this one.
    pub spare: u64,
    /// Its own part, and then the parts that the passes held that were joined into it.
    pub parts: LinkedList<Part<Ask, Reply>>,
}

/// What the table is told once.
#[derive(Drop)]
pub struct About<M> {
    pub first: Snapshot<M>,
    pub passes: u64,
}
