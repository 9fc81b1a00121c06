// The queue.
ghost use Rattle.std.specs.Prelude.{◌≡◌, ◌+◌, ◌<◌, ◌≤◌, [], ◌∷◌, ◌++◌, length, map, filter, take, drop, vec_len, vec_capacity, IfOk, OnOk, OnErr};
ghost use Rattle.std.specs.Ordering.{is_lt};
ghost use Rattle.ic_expire.specs.Items.{item_cmp, IsBefore, packet_of, is_due, is_upto};
ghost use Rattle.ic_expire.specs.Queue.{EachLater, without, with_item, has_due, dues_of, IsHeld, IsQueue};

use crate::dues::{Due, Dues};
use crate::item::Item;
use std::alloc::{AllocError, Global};
use std::marker::Model;

/// The packets that wait for an answer: QUIC's and TCP's retransmission queue, Greenplum's unack queue ring.
///
/// A packet is a number in a connection, and waits once. The room for all of them is taken at the beginning.
#[derive(Drop)]
pub struct Expiry {
    /// What waits, in order.
    items: Vec<Item>,
    /// The tick of the last question for what is due.
    asked: u64,
    /// How many items fit.
    room: u32,
}

impl Model for Expiry {
    ghost use Rattle.std.specs.Prelude.{◌≤◌, vec_capacity};
    ghost use Rattle.ic_expire.specs.Queue.{Queue, IsQueue};

    ghost Value = { Queue };

    ghost view = { λ e. record { held = e.items.items; asked = e.asked; room = e.room } };

    ghost invariant = { λ e. IsQueue (record { held = e.items.items; asked = e.asked; room = e.room }) × (e.room ≤ vec_capacity e.items) };
}

/// The place of an item among items in order.
fn place_of(items: &[Item], item: &Item) -> usize
    requires { EachLater IsBefore items.now }
    ensures within { result ≤ length items.now }
    ensures before { filter (λ y. is_lt (item_cmp y item.now)) items.now ≡ take result items.now }
    ensures behind { without (λ y. is_lt (item_cmp y item.now)) items.now ≡ drop result items.now }
{
    items.partition_point(|held| held < item)
}

/// How many items, of items in order, have had their time at this tick.
fn count_due(items: &[Item], now: u64) -> usize
    requires { EachLater IsBefore items.now }
    ensures within { result ≤ length items.now }
    ensures due { filter (is_due now) items.now ≡ take result items.now }
    ensures later { without (is_due now) items.now ≡ drop result items.now }
{
    items.partition_point(|held| held.due <= now)
}

/// Whether any item, of items in order, has had its time at this tick.
fn is_first_due(items: &[Item], now: u64) -> bool
    requires { EachLater IsBefore items.now }
    ensures { result ≡ has_due now items.now }
{
    match items.first() {
        Some(first) => first.due <= now,
        None => false,
    }
}

/// Inserts an item if there is room.
fn insert(items: &mut Vec<Item>, place: usize, item: Item)
    requires place { place ≤ vec_len items.old }
    requires room { vec_len items.old < vec_capacity items.old }
    ensures items { items.new.items ≡ take place items.old.items ++ item ∷ drop place items.old.items }
    ensures capacity { vec_capacity items.old ≤ vec_capacity items.new }
{
    let _inserted = items.insert(place, item);
}

fn remove_upto(items: &mut Vec<Item>, conn: u32, upto: u32)
    ensures items { items.new.items ≡ without (is_upto conn upto) items.old.items }
    ensures capacity { vec_capacity items.new ≡ vec_capacity items.old }
{
    items.retain(|item| !(item.conn == conn && item.seq <= upto));
}

fn remove_front(items: &mut Vec<Item>, count: usize)
    requires { count ≤ vec_len items.old }
    ensures items { items.new.items ≡ drop count items.old.items }
    ensures capacity { vec_capacity items.new ≡ vec_capacity items.old }
{
    items.drain(..count);
}

fn packets(alloc: Global, items: &[Item]) -> Result<Vec<Due>, AllocError>
    ensures { IfOk result (λ dues. dues.items ≡ map packet_of items.now) }
{
    items
        .iter()
        .map(|item| Due {
            conn: item.conn,
            seq: item.seq,
        })
        .collect(alloc)
}

impl Expiry {
    /// An empty queue with room for this many packets, asked at tick 0. Allocates once.
    pub fn with_room(alloc: Global, items: u32) -> Result<Expiry, AllocError>
        ensures ok { IfOk result (λ q. q ≡ record { held = []; asked = 0; room = items }) }
        ensures stands { IfOk result IsQueue }
    {
        Ok(Expiry {
            items: Vec::with_capacity(alloc, items as usize)?,
            asked: 0,
            room: items,
        })
    }

    /// A packet was emitted, and waits until tick `due`: from the last question's tick, 0 before the first, to 64 ticks
    /// after it. Takes no memory, and moves what is due later.
    pub fn put(&mut self, conn: u32, seq: u32, due: u64)
        requires room { length self.old.held < self.old.room }
        requires absent { IsHeld conn seq self.old.held → ⊥ }
        requires from { self.old.asked ≤ due }
        requires upto { due ≤ self.old.asked + 64 }
        ensures ok { self.new ≡ record self.old { held = with_item (record { due = due; conn = conn; seq = seq }) self.old.held } }
        ensures stands { IsQueue self.new }
    {
        let item = Item { due, conn, seq };
        let place = place_of(self.items.as_slice(), &item);
        insert(&mut self.items, place, item);
    }

    /// The connection's packets up to number `upto` were answered, and wait no more. Takes no memory, and looks at each
    /// item once.
    pub fn cut(&mut self, conn: u32, upto: u32)
        ensures ok { self.new ≡ record self.old { held = without (is_upto conn upto) self.old.held } }
        ensures stands { IsQueue self.new }
    {
        remove_upto(&mut self.items, conn, upto);
    }

    /// How many packets wait. Takes no memory.
    pub fn len(&self) -> usize
        ensures value { result ≡ length self.now.held }
        ensures stands { IsQueue self.now }
    {
        self.items.len()
    }

    /// Whether anything is due by tick `now`. Looks at the first item alone, and takes no memory.
    pub fn is_due(&self, now: u64) -> bool
        ensures value { result ≡ has_due now self.now.held }
        ensures stands { IsQueue self.now }
    {
        is_first_due(self.items.as_slice(), now)
    }

    /// Looks for what is due by tick `now`: by due tick, then connection, then number. All of it waits on. Allocates
    /// once, and not at all if nothing is due.
    pub fn due_at(&self, alloc: Global, now: u64) -> Result<Dues, AllocError>
        ensures ok { IfOk result (λ dues. dues ≡ dues_of now self.now.held) }
        ensures stands { IsQueue self.now }
    {
        let items = self.items.as_slice();
        let (front, _later) = items.split_at(count_due(items, now));
        Ok(Dues::from_vec(packets(alloc, front)?))
    }

    /// The clock is at tick `now`, the last question's or a later one: what is due by then waits no more. Takes no memory.
    pub fn pass(&mut self, now: u64)
        requires { self.old.asked ≤ now }
        ensures ok { self.new ≡ record self.old { held = without (is_due now) self.old.held; asked = now } }
        ensures stands { IsQueue self.new }
    {
        let count = count_due(self.items.as_slice(), now);
        remove_front(&mut self.items, count);
        self.asked = now;
    }

    /// Asks at tick `now`, the last question's or a later one, for what is due by then, and takes it out: by due tick,
    /// then connection, then number. Allocates once, and not at all if nothing is due.
    pub fn due(&mut self, alloc: Global, now: u64) -> Result<Dues, AllocError>
        requires { self.old.asked ≤ now }
        ensures ok { IfOk result (λ dues. dues ≡ dues_of now self.old.held) }
        ensures left { OnOk result (self.new ≡ record self.old { held = without (is_due now) self.old.held; asked = now }) }
        ensures memory { OnErr result (self.new ≡ self.old) }
        ensures stands { IsQueue self.new }
    {
        let dues = self.due_at(alloc, now)?;
        self.pass(now);
        Ok(dues)
    }
}
