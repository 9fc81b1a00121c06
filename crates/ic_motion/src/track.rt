// One sender of a motion.
ghost use Rattle.std.specs.Prelude.{◌≡◌, ◌++◌, ◌||◌, true, OnOk, IfErr, option_map};
ghost use Rattle.ic_motion.specs.declared.answers.MotionNo.TheVariants as why;
ghost use Rattle.ic_motion.specs.Hearing.{fresh_lane};
ghost use Rattle.ic_motion.specs.Picking.{first_in, without_first};
ghost use Rattle.ic_motion.specs.Feeding.{Fills};
ghost use Rattle.ic_motion.specs.Halting.{is_heard};

use crate::answers::{MotionEnd, MotionNo};
use crate::kinds::rows_have;
use ic_base::{Parcel, SegId};
use ic_chunk::{FeedNo, Joiner};
use ic_row::{Kind, Row, Rows};
use std::alloc::Global;
use std::collections::VecDeque;
use std::marker::Model;

/// One sender: what is held of its stream, and its rows that weren't given yet.
#[derive(Drop)]
pub(crate) struct Track {
    sender: SegId,
    joiner: Joiner,
    held: VecDeque<Row>,
    over: bool,
    halted: bool,
}

impl Model for Track {
    ghost use Rattle.ic_motion.specs.Hearing.{Lane};

    ghost Value = { Lane };

    ghost view = { λ t. record { sender = t.sender; stream = t.joiner; rows = t.held.items; over = t.over; halted = t.halted } };
}

impl Track {
    /// A sender of which nothing was heard. Takes no memory.
    pub(crate) fn new(alloc: Global, sender: SegId) -> Track
        ensures { result ≡ fresh_lane sender }
    {
        Track {
            sender,
            joiner: Joiner::new(alloc),
            held: VecDeque::new(alloc),
            over: false,
            halted: false,
        }
    }

    pub(crate) fn sender(&self) -> SegId
        ensures { result ≡ self.now.sender }
    {
        self.sender
    }

    /// Whether nothing more comes.
    pub(crate) fn is_over(&self) -> bool
        ensures { result ≡ self.now.over }
    {
        self.over
    }

    /// Whether nothing more comes, or is wanted.
    pub(crate) fn is_heard(&self) -> bool
        ensures { result ≡ is_heard self.now }
    {
        self.over || self.halted
    }

    /// Its first row, which stays.
    pub(crate) fn first(&self) -> Option<&Row>
        ensures { option_map (λ row. row.now) result ≡ first_in self.now.rows }
    {
        self.held.get(0)
    }

    /// Its first row, which goes.
    pub(crate) fn pop(&mut self) -> Option<Row>
        ensures row { result ≡ first_in self.old.rows }
        ensures left { self.new ≡ record self.old { rows = without_first self.old.rows } }
    {
        self.held.pop_front()
    }

    /// No more is wanted.
    pub(crate) fn halt(&mut self)
        ensures { self.new ≡ record self.old { halted = true } }
    {
        self.halted = true;
    }

    /// Takes over a parcel. Moves the rows that it completes, and copies what the joiner copies.
    pub(crate) fn feed(
        &mut self,
        alloc: Global,
        end: &MotionEnd,
        kinds: &[Kind],
        parcel: &Parcel,
    ) -> Result<(), MotionNo>
        ensures { Fills end.now kinds.now self.old self.new parcel.now result }
    {
        match self.joiner.feed(alloc, parcel.payload.as_slice()) {
            Ok(fed) => {
                if fed.ended != parcel.last {
                    return Err(MotionNo::Malformed(end.key_from(parcel.from)));
                }
                if !rows_have(kinds, fed.rows.as_slice()) {
                    return Err(MotionNo::Malformed(end.key_from(parcel.from)));
                }
                self.over = either(self.over, fed.ended);
                append(&mut self.held, fed.rows)
            }
            Err(FeedNo::ChunkFault { .. }) => {
                Err(MotionNo::Malformed(end.key_from(parcel.from)))
            }
            Err(FeedNo::Memory) => Err(MotionNo::Memory),
        }
    }
}

fn either(a: bool, b: bool) -> bool
    ensures { result ≡ (a || b) }
{
    a || b
}

/// Moves rows to the end of others.
fn append(held: &mut VecDeque<Row>, rows: Rows) -> Result<(), MotionNo>
    ensures ok { OnOk result (held.new.items ≡ held.old.items ++ rows) }
    ensures err { IfErr result (λ no_. no_ ≡ why.Memory) }
{
    for row in rows.into_vec() {
        if held.push_back(row).is_err() {
            return Err(MotionNo::Memory);
        }
    }
    Ok(())
}
