// The world of one query.
ghost use Rattle.std.specs.Prelude.{◌≡◌, ◌<◌, ◌++◌, ◌∷◌, [], List, length, slice_get, Some, None, IfOk, MatchOption, ℕ};
ghost use Rattle.ic_law.specs.Streams.{node_of};
ghost use Rattle.gd_world.specs.declared.seat.Seat.{Seat as OneSeat};
ghost use Rattle.gd_world.specs.Events.{Event, has_left};
ghost use Rattle.gd_world.specs.Turns.{is_done};
ghost use Rattle.gd_world.specs.Workers.{seats_in};
ghost use Rattle.gd_world.specs.Worlds.{Account, Starts, Stands, Closes, begun_with};
ghost use Rattle.gd_world.specs.Steps.{IsNodeOf};
ghost use Rattle.gd_world.specs.Inside.{marked};
ghost use Rattle.gd_world.specs.Laws.{AreRows};
ghost use Rattle.pl_runs.specs.Distributed.{Query};

use crate::making::{no_marks, seats_of, slices_of};
use crate::seat::Seat;
use crate::session::{Session, place_of};
use ex_slice::Slice;
use ic_base::SegId;
use ic_law::Entry;
use ic_row::Row;
use pl_ops::Loaded;
use pl_plan::SoundPlan;
use std::alloc::{AllocError, Global};

/// A query that runs over the nodes of a session.
#[derive(Drop)]
pub struct World<'a> {
    pub(crate) plan: &'a SoundPlan,
    /// The number of the query.
    pub(crate) query: u32,
    pub(crate) session: Session,
    /// One for each worker of the plan, in the order of turns.
    pub(crate) seats: Vec<Seat>,
    /// The slice at each seat.
    pub(crate) slices: Vec<Slice<'a>>,
    /// For each node whether it has left the query.
    pub(crate) left: Vec<bool>,
}

/// The place of a seat in a list.
fn place_of_seat(seats: &[Seat], seat: &Seat) -> Option<usize>
    ensures { MatchOption result ((k : ℕ) → slice_get seats.now k ≡ Some seat.now → ⊥) (λ k. slice_get seats.now k ≡ Some seat.now) }
{
    for k in 0..seats.len() {
        if seats[k] == *seat {
            return Some(k);
        }
    }
    None
}

impl<'a> World<'a> {
    /// A query of this number and plan over the nodes of a session and the rows of its tables. Makes a fresh slice for each
    /// worker of the plan. No step was done in it yet. If memory runs out, the session is lost.
    ///
    /// The session has the plan's segments and settings, and its nodes have begun only queries with lesser numbers.
    pub fn new(
        alloc: Global,
        plan: &'a SoundPlan,
        loaded: &'a Loaded,
        query: u32,
        session: Session,
    ) -> Result<World<'a>, AllocError>
        ensures { IfOk result (λ w. (q : Query) (es : List Event) → Starts q es plan.now loaded.now query session → Stands q (begun_with es) w) }
    {
        plan.is_judged();
        ic_desk::a_query_begins_with_no_log();
        session.lawful();
        let seats = seats_of(alloc, plan)?;
        let number = session.number();
        let slices = slices_of(alloc, plan, loaded, number, query, seats.as_slice())?;
        let left = no_marks(alloc, session.nodes.len())?;
        Ok(World {
            plan,
            query,
            session,
            seats,
            slices,
            left,
        })
    }

    /// The session so far.
    pub fn session(&self) -> &Session
        ensures { result.now ≡ self.now.session }
    {
        &self.session
    }

    /// The number of the query.
    pub fn query(&self) -> u32
        ensures { result ≡ self.now.query }
    {
        self.query
    }

    /// How many segments there are, the dispatcher not among them.
    pub fn segments(&self) -> u32
        ensures { (q : Query) (x : Account) → Stands q x self.now → result ≡ q.site.segments }
    {
        self.plan.segments()
    }

    /// How many workers the plan has.
    pub fn workers(&self) -> usize
        ensures { (q : Query) (x : Account) → Stands q x self.now → result ≡ length (seats_in q) }
    {
        self.seats.len()
    }

    /// Where the workers of the plan sit, in the order of turns: from the greatest slice to slice 0, and within a slice by
    /// segment.
    pub fn seats(&self) -> &[Seat]
        ensures { (q : Query) (x : Account) → Stands q x self.now → result.now ≡ seats_in q }
    {
        self.seats.as_slice()
    }

    /// Whether the worker at this place of the seats is done.
    pub fn is_done_at(&self, k: usize) -> bool
        ensures { (q : Query) (x : Account) (seat : OneSeat) → Stands q x self.now → slice_get (seats_in q) k ≡ Some seat → result ≡ is_done seat.slice seat.at x.events }
    {
        match self.slices.get(k) {
            Some(slice) => slice.is_done(),
            None => false,
        }
    }

    /// The mark of a segment's node.
    pub(crate) fn is_marked(&self, at: SegId) -> bool
        ensures { result ≡ marked (slice_get self.now.left.items (node_of at)) }
    {
        match self.left.get(place_of(at)) {
            Some(gone) => *gone,
            None => false,
        }
    }

    /// Whether this node has left the query.
    pub fn has_left(&self, at: SegId) -> bool
        ensures { (q : Query) (x : Account) → Stands q x self.now → IsNodeOf q at → result ≡ has_left at x.events }
    {
        let _place = place_of(at);
        self.is_marked(at)
    }

    /// The entry of the last step, if it has one. It tells which datagrams were emitted with it, and what the hub refused.
    pub fn last_entry(&self) -> Option<&Entry>
        ensures { (q : Query) (x : Account) (es : List Event) (e : Event) → Stands q x self.now → x.events ≡ es ++ e ∷ []
            → MatchOption result (e.entry ≡ None) (λ entry. e.entry ≡ Some entry.now) }
    {
        self.session.last_entry()
    }

    /// The place in the list of the worker of a slice at this segment.
    pub(crate) fn seat_of(&self, slice: u32, at: SegId) -> Option<usize>
        ensures { MatchOption result ((k : ℕ) → slice_get self.now.seats.items k ≡ Some (record { slice = slice; at = at }) → ⊥) (λ k. slice_get self.now.seats.items k ≡ Some (record { slice = slice; at = at })) }
    {
        place_of_seat(self.seats.as_slice(), &Seat { slice, at })
    }

    /// The rows that slice 0 has let out, in order.
    pub fn rows(&self) -> &[Row]
        ensures { (q : Query) (x : Account) → Stands q x self.now → AreRows self.now result.now }
    {
        match self.seat_of(0, SegId::DISPATCHER) {
            Some(k) => match self.slices.get(k) {
                Some(slice) => slice.rows(),
                None => &[],
            },
            None => &[],
        }
    }

    /// The session, for the next query. This one goes on no further.
    pub fn close(self) -> Session
        ensures session { result ≡ self.entry.session }
        ensures closes { (q : Query) (x : Account) → Stands q x self.entry → Closes q x result }
    {
        self.session
    }
}
