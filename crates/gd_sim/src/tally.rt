// What a connection did, counted in the histories of its ends.
ghost use Rattle.std.specs.Prelude.{◌≡◌, ◌≤◌, ◌<◌, ◌+◌, ◌-◌, ◌^◌, ◌||◌, max, pos, length, map, flat_map, option_map, IfOk, IfSome, IfNone};
ghost use Rattle.std.specs.List.{list_any};
ghost use Rattle.std.specs.Option.{option_to_list};
ghost use Rattle.ic_base.specs.declared.keys.ConnKey.{ConnKey};
ghost use Rattle.ic_base.specs.Keys.{key_eq};
ghost use Rattle.ic_header.specs.Packets.{key_of, is_rows, IsSegment};
ghost use Rattle.ic_law.specs.History.{rows_in, number_of, rows_emitted_of, sent_upto, greatest};
ghost use Rattle.ic_law.specs.Putting.{puts, was_given, chunks_put_of};
ghost use Rattle.ic_law.specs.Taking.{takes, parcels_in, parcels_from, payloads_of, payload_in, is_last_parcel, whole_of};
ghost use Rattle.ic_law.specs.Streams.{history_of};
ghost use Rattle.ic_chunk.specs.Counts.{HaveEnded};
ghost use Rattle.gd_sim.specs.Tallying.{IsTallyOf, AreTallies};

use ic_base::{ConnKey, Datagram, Parcel, SegId};
use ic_chunk::rows_ended;
use ic_header::{Flags, Header, read};
use ic_law::{Entry, Histories, HubAsk, HubReply};
use std::alloc::{AllocError, Global};
use std::marker::Model;

/// What one connection did, as the histories of its ends tell.
#[derive(Clone, Copy, Debug, PartialEq, Eq)]
pub struct Tally {
    pub key: ConnKey,
    /// Rows that the sending end put.
    pub sent: u128,
    /// Rows in the parcels that were taken.
    pub taken: u128,
    /// The greatest number of a packet of rows that was emitted, from 1; 0 if none was.
    pub packets: u32,
    /// Emissions of such packets beyond that.
    pub resent: u128,
    /// Whether the end of stream was taken.
    pub whole: bool,
}

/// Tallies, seen as a list.
#[derive(Drop, Debug)]
pub struct Tallies {
    items: Vec<Tally>,
}

impl Model for Tallies {
    ghost use Rattle.std.specs.Prelude.{List};
    ghost use Rattle.gd_sim.specs.declared.tally.Tally.{Tally};

    ghost Value = { List Tally };

    ghost view = { λ t. t.items.items };
}

impl Tallies {
    ghost use Rattle.std.specs.Prelude.{◌≡◌};

    pub fn as_slice(&self) -> &[Tally]
        ensures { result.now ≡ self.now }
    {
        self.items.as_slice()
    }
}

// ---- one entry

#[tactic(auto, unfolding(ic_base::specs::Keys::key_eq))]
fn same_key(a: &ConnKey, b: &ConnKey) -> bool
    ensures { result ≡ key_eq a.now b.now }
{
    *a == *b
}

/// Whether a reply gives datagrams.
fn was_given(reply: &HubReply) -> bool
    ensures { result ≡ was_given reply.now }
{
    match reply {
        HubReply::Gave(Ok(_)) => true,
        _ => false,
    }
}

/// The chunk that an entry puts on the connection, if it puts one there.
fn put_on<'e>(entry: &'e Entry, key: &ConnKey) -> Option<&'e [u8]>
    ensures { option_to_list (option_map (λ chunk. chunk.now) result) ≡ puts key.now entry.now }
{
    match &entry.ask {
        HubAsk::Put { key: on, chunk } => {
            if same_key(on, key) && was_given(&entry.reply) {
                Some(chunk.as_slice())
            } else {
                None
            }
        }
        _ => None,
    }
}

/// The parcel that a reply hands over.
fn parcel_in(reply: &HubReply) -> Option<&Parcel>
    ensures { option_to_list (option_map (λ parcel. parcel.now) result) ≡ parcels_in reply.now }
{
    match reply {
        HubReply::Took(Ok((parcel, _))) => Some(parcel),
        _ => None,
    }
}

/// The parcel, if it is from this segment.
fn parcel_from(parcel: Option<&Parcel>, from: SegId) -> Option<&Parcel>
    ensures { option_to_list (option_map (λ parcel. parcel.now) result)
        ≡ parcels_from from (option_to_list (option_map (λ parcel. parcel.now) parcel.entry)) }
{
    match parcel {
        Some(parcel) if parcel.from == from => Some(parcel),
        _ => None,
    }
}

/// The parcel of the connection that an entry takes, if it takes one.
fn taken_of<'e>(entry: &'e Entry, key: &ConnKey) -> Option<&'e Parcel>
    ensures { option_to_list (option_map (λ parcel. parcel.now) result) ≡ takes key.now entry.now }
{
    match &entry.ask {
        HubAsk::Take { query, motion } => {
            if *query == key.query && *motion == key.motion {
                parcel_from(parcel_in(&entry.reply), key.from)
            } else {
                None
            }
        }
        HubAsk::TakeFrom { key: of } => {
            if same_key(of, key) {
                parcel_in(&entry.reply)
            } else {
                None
            }
        }
        _ => None,
    }
}

/// The connection that a header speaks of, if its content ids are segments.
fn key_in(head: &Header) -> Option<ConnKey>
    ensures some { IfSome result (λ key. key ≡ key_of head.now) }
    ensures none { IfNone result ((key : ConnKey) → IsSegment key.from → IsSegment key.to → key_of head.now ≡ key → ⊥) }
{
    Some(ConnKey {
        session: head.session,
        query: head.query,
        motion: head.motion,
        from: SegId::new(head.src_content)?,
        to: SegId::new(head.dst_content)?,
    })
}

/// Whether a header speaks of the connection.
fn is_of(head: &Header, key: &ConnKey) -> bool
    ensures { result ≡ key_eq (key_of head.now) key.now }
{
    let _ends = (key.from.number(), key.to.number());
    match key_in(head) {
        Some(of) => same_key(&of, key),
        None => false,
    }
}

fn is_rows(flags: Flags) -> bool
    ensures { result ≡ is_rows flags }
{
    matches!(flags, Flags::Rows | Flags::LastRows)
}

/// The number of the packet of rows of the connection that a datagram is, if it is one.
#[tactic(auto, unfolding(ic_header::specs::Packets::packet_of))]
fn number_in(datagram: &Datagram, key: &ConnKey) -> Option<u32>
    ensures { option_to_list result ≡ map number_of (rows_in key.now datagram.now) }
{
    match read(datagram.bytes.as_slice()) {
        Ok((head, _)) => {
            if is_rows(head.flags) && is_of(&head, key) {
                Some(head.seq)
            } else {
                None
            }
        }
        Err(_) => None,
    }
}

// ---- rows in payloads

/// How many rows end in the chunk that an entry puts on the connection.
fn sent_by(entry: &Entry, key: &ConnKey) -> usize
    ensures { HaveEnded (puts key.now entry.now) result }
{
    match put_on(entry, key) {
        Some(chunk) => rows_ended(chunk),
        None => 0,
    }
}

/// How many rows ended in chunks that were put on the connection.
fn rows_sent(history: &[Entry], key: &ConnKey) -> u128
    ensures { HaveEnded (chunks_put_of key.now history.now) result }
{
    let mut count = 0;
    for entry in history {
        count += sent_by(entry, key) as u128;
    }
    count
}

/// How many rows end in the parcel of the connection that an entry takes, and whether it is the last one.
fn taken_by(entry: &Entry, key: &ConnKey) -> (usize, bool)
    ensures rows { HaveEnded (map payload_in (takes key.now entry.now)) result.0 }
    ensures last { result.1 ≡ list_any is_last_parcel (takes key.now entry.now) }
{
    match taken_of(entry, key) {
        Some(parcel) => (rows_ended(parcel.payload.as_slice()), parcel.last),
        None => (0, false),
    }
}

fn either(a: bool, b: bool) -> bool
    ensures { result ≡ a || b }
{
    a || b
}

/// How many rows ended in parcels that were taken of the connection, and whether its end of stream was.
fn rows_taken(history: &[Entry], key: &ConnKey) -> (u128, bool)
    ensures rows { HaveEnded (payloads_of key.now history.now) result.0 }
    ensures whole { result.1 ≡ whole_of key.now history.now }
{
    let mut count = 0;
    let mut whole = false;
    for entry in history {
        let (more, last) = taken_by(entry, key);
        count += more as u128;
        whole = either(whole, last);
    }
    (count, whole)
}

// ---- packets of rows

/// One packet more, if there is one.
fn with_number(count: usize, upto: u32, number: Option<u32>) -> (usize, u32)
    requires { count < 2 ^ 64 - 1 }
    ensures count { result.0 ≡ count + length (option_to_list number) }
    ensures upto { result.1 ≡ max upto (greatest (option_to_list number)) }
{
    match number {
        Some(number) => (count + 1, upto.max(number)),
        None => (count, upto),
    }
}

/// How many packets of rows of the connection are among datagrams, and the greatest of their numbers, or 0.
fn emitted_in(datagrams: &[Datagram], key: &ConnKey) -> (usize, u32)
    ensures count { result.0 ≡ length (flat_map (rows_in key.now) datagrams.now) }
    ensures upto { result.1 ≡ greatest (map number_of (flat_map (rows_in key.now) datagrams.now)) }
{
    let mut count = 0;
    let mut upto = 0;
    for datagram in datagrams {
        (count, upto) = with_number(count, upto, number_in(datagram, key));
    }
    (count, upto)
}

fn greater(a: u32, b: u32) -> u32
    ensures { result ≡ max a b }
{
    a.max(b)
}

/// The same of all that a hub emitted.
fn rows_emitted(history: &[Entry], key: &ConnKey) -> (u128, u32)
    ensures count { result.0 ≡ length (rows_emitted_of key.now history.now) }
    ensures upto { result.1 ≡ sent_upto key.now history.now }
{
    let mut count = 0;
    let mut upto = 0;
    for entry in history {
        let (more, number) = emitted_in(entry.reply.datagrams(), key);
        count += more as u128;
        upto = greater(upto, number);
    }
    (count, upto)
}

// ---- connections

fn history_at(histories: &Histories, at: SegId) -> &[Entry]
    ensures { result.now ≡ history_of histories.now at }
{
    match histories.as_slice().get((at.number() + 1) as usize) {
        Some(history) => history.as_slice(),
        None => &[],
    }
}

/// What the histories tell of a connection. Goes once over that of each end, and takes no memory.
pub fn tally_of(histories: &Histories, key: ConnKey) -> Tally
    ensures { IsTallyOf histories.now key result }
{
    let sender = history_at(histories, key.from);
    let receiver = history_at(histories, key.to);
    let (emitted, packets) = rows_emitted(sender, &key);
    let (taken, whole) = rows_taken(receiver, &key);
    Tally {
        key,
        sent: rows_sent(sender, &key),
        taken,
        packets,
        resent: emitted.saturating_sub(u128::from(packets)),
        whole,
    }
}

fn segment(number: u32) -> SegId
    requires { number < 64 }
    ensures { result ≡ pos number }
{
    match SegId::new(number as i32) {
        Some(segment) => segment,
        None => SegId::DISPATCHER,
    }
}

/// What they tell of each connection of a query's gather, by the segment that sends. Goes over the dispatcher's history once
/// for each of them.
pub fn tallies_of(
    alloc: Global,
    histories: &Histories,
    session: u32,
    query: u32,
    senders: u32,
) -> Result<Tallies, AllocError>
    requires { senders ≤ 64 }
    ensures { IfOk result (AreTallies session query senders histories.now) }
{
    let mut items = Vec::with_capacity(alloc, senders as usize)?;
    for number in 0..senders {
        let key = ConnKey {
            session,
            query,
            motion: 1,
            from: segment(number),
            to: SegId::DISPATCHER,
        };
        items.push(tally_of(histories, key))?;
    }
    Ok(Tallies { items })
}
