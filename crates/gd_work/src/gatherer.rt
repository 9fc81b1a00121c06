// The worker that takes the rows of every sender.
ghost use Rattle.std.specs.Prelude.{◌≡◌, ℕ, ◌<◌, ◌++◌, List, Result, [], length, IfOk, OnOk, Some};
ghost use Rattle.ic_base.specs.declared.port.PortEntry.{PortEntry};
ghost use Rattle.ic_base.specs.Ports.{Hears};
ghost use Rattle.gd_work.specs.declared.course.Course.TheVariants.{Going};
ghost use Rattle.gd_work.specs.declared.course.Turned.{Turned};
ghost use Rattle.gd_work.specs.declared.course.WorkNo.{WorkNo};
ghost use Rattle.gd_work.specs.Turns.{course_behind, settled, WaitsBusy, StepsOnce};
ghost use Rattle.gd_work.specs.Taking.{place_of, fresh, IsUntaken, Gathers, Takes, Gains, refused, fresh_streams, sender_at};

use crate::course::{Course, Turned, WorkNo};
use ic_base::{Parcel, Port, PortNo, SegId};
use ic_chunk::{FeedNo, Joiner};
use ic_row::Rows;
use std::alloc::{AllocError, Global};
use std::marker::Model;

/// One for each segment number, -1..=63.
const SENDERS: usize = 65;

/// Takes the parcels of a motion from any sender, and lets out the rows that they complete, in the order in which the
/// parcels were taken.
///
/// It keeps the rows let out, and the bytes of an unfinished row for each sender. A row in one chunk is read from the
/// parcel itself.
#[derive(Drop)]
pub struct Gatherer {
    motion: u32,
    /// The dispatcher's joiner first, then segment 0's and so on.
    joiners: Vec<Joiner>,
    rows: Rows,
    course: Course,
}

impl Model for Gatherer {
    ghost use Rattle.std.specs.Prelude.{◌≡◌, length};
    ghost use Rattle.gd_work.specs.Taking.{Gathering};

    ghost Value = { Gathering };

    ghost view = { λ g. record { motion = g.motion; streams = g.joiners.items; rows = g.rows; course = g.course } };

    ghost invariant = { λ g. length g.joiners.items ≡ 65 };
}

impl Gatherer {
    /// A gatherer for a motion, which has taken nothing. Allocates a joiner for each segment number. Fails only if out
    /// of memory.
    pub fn new(alloc: Global, motion: u32) -> Result<Gatherer, AllocError>
        ensures value { IfOk result (λ gatherer. gatherer ≡ fresh motion) }
        ensures gathers { IfOk result (λ gatherer. (log : List PortEntry) → IsUntaken motion log → Gathers gatherer log) }
    {
        Ok(Gatherer {
            motion,
            joiners: joiners(alloc)?,
            rows: Rows::new(alloc),
            course: Course::Going,
        })
    }

    /// Takes the next parcel, and lets out the rows that it completes.
    ///
    /// It is done once a take is answered `Ended`. If a take is answered `Empty` or `Busy`, the next turn takes again.
    /// If it gives up for `Memory`, a parcel may have been taken and only some of its rows let out.
    pub fn turn<P: Port>(&mut self, alloc: Global, port: &mut P) -> Result<Turned, WorkNo>
        requires hears { Hears (P.keys port.old) self.old.motion }
        ensures motion { self.new.motion ≡ self.old.motion }
        ensures keys { P.keys port.new ≡ P.keys port.old }
        ensures busy { WaitsBusy (P.busy port.old) (P.busy port.new) result }
        ensures steps { StepsOnce P.steps port.old port.new }
        ensures course { self.new.course ≡ course_behind result }

        // Which call it made, what the log has of it, and what it answers. Once its course is settled, it makes no
        // call.
        ensures takes { self.old.course ≡ Going
            → Takes (P.keys port.old) self.old.motion (P.log port.old) (P.log port.new) self.old.streams self.new.streams self.old.rows self.new.rows result }
        ensures again { (answer : Result Turned WorkNo) → settled self.old.course ≡ Some answer
            → (result ≡ answer) × (self.new ≡ self.old) × (port.new ≡ port.old) }

        // So the rows let out are those that the parcels complete, in the order in which they were taken.
        ensures gathers { Gathers self.old (P.log port.old) → Gathers self.new (P.log port.new) }
    {
        if let Some(answer) = self.course.settled() {
            return answer;
        }
        let answer = take(alloc, port, self.motion, &mut self.joiners, &mut self.rows);
        self.course = Course::behind(&answer);
        answer
    }

    /// The rows let out so far.
    pub fn rows(&self) -> &Rows
        ensures { result.now ≡ self.now.rows }
    {
        &self.rows
    }

    /// The rows let out. Copies nothing.
    pub fn into_rows(self) -> Rows
        ensures { result ≡ self.rows }
    {
        self.rows
    }

    /// How far it has come.
    pub fn course(&self) -> Course
        ensures { result ≡ self.now.course }
    {
        self.course
    }
}

/// A joiner for each segment number, none of which has taken anything.
fn joiners(alloc: Global) -> Result<Vec<Joiner>, AllocError>
    ensures { IfOk result (λ joiners. joiners.items ≡ fresh_streams 65) }
{
    let mut joiners = Vec::with_capacity(alloc, SENDERS)?;
    for _ in 0..SENDERS {
        joiners.push(Joiner::new(alloc))?;
    }
    Ok(joiners)
}

/// Makes the next take.
fn take<P: Port>(
    alloc: Global,
    port: &mut P,
    motion: u32,
    joiners: &mut Vec<Joiner>,
    rows: &mut Rows,
) -> Result<Turned, WorkNo>
    requires hears { Hears (P.keys port.old) motion }
    requires many { length joiners.old.items ≡ 65 }
    ensures many { length joiners.new.items ≡ 65 }
    ensures keys { P.keys port.new ≡ P.keys port.old }
    ensures busy { WaitsBusy (P.busy port.old) (P.busy port.new) result }
    ensures steps { StepsOnce P.steps port.old port.new }
    ensures takes { Takes (P.keys port.old) motion (P.log port.old) (P.log port.new) joiners.old.items joiners.new.items rows.old rows.new result }
{
    match port.take(alloc, motion) {
        Ok(parcel) => gain(alloc, joiners, rows, &parcel),
        Err(no) => refused(no),
    }
}

/// Feeds a parcel to its sender's joiner, and lets out the rows.
fn gain(
    alloc: Global,
    joiners: &mut Vec<Joiner>,
    rows: &mut Rows,
    parcel: &Parcel,
) -> Result<Turned, WorkNo>
    requires many { length joiners.old.items ≡ 65 }
    ensures many { length joiners.new.items ≡ 65 }
    ensures gains { Gains parcel.now joiners.old.items joiners.new.items rows.old rows.new result }
{
    let joiner = &mut joiners[place_of(parcel.from)];
    match joiner.feed(alloc, parcel.payload.as_slice()) {
        Ok(fed) => {
            append(rows, fed.rows)?;
            Ok(Turned::Moved)
        }
        Err(FeedNo::ChunkFault { .. }) => Err(WorkNo::Malformed(parcel.from)),
        Err(FeedNo::Memory) => Err(WorkNo::Memory),
    }
}

/// Moves rows to the end of others.
fn append(rows: &mut Rows, more: Rows) -> Result<(), AllocError>
    ensures { OnOk result (rows.new ≡ rows.old ++ more) }
{
    for row in more.into_vec() {
        rows.push(row)?;
    }
    Ok(())
}

/// The position of a sender among the joiners: the dispatcher is 0.
fn place_of(id: SegId) -> usize
    ensures value { result ≡ place_of id }
    ensures below { result < 65 }
    ensures sender { id ≡ sender_at result }
{
    (id.number() + 1) as usize
}

/// What a turn answers if its take was refused for this reason.
fn refused(no: PortNo) -> Result<Turned, WorkNo>
    ensures { result ≡ refused no }
{
    match no {
        PortNo::Empty | PortNo::Busy => Ok(Turned::Waiting(no)),
        PortNo::Ended => Ok(Turned::Done),
        // A take is never refused so.
        PortNo::Full | PortNo::Stopped | PortNo::TooLong(_) => Err(WorkNo::Memory),
        PortNo::Memory => Err(WorkNo::Memory),
    }
}
