// The packets that go out with an event, made before it changes anything.
ghost use Rattle.std.specs.Prelude.{◌≡◌, ℕ, ◌+◌, ◌-◌, ◌<◌, ◌≤◌, [], ◌∷◌, ◌++◌, map, length, IfOk, IfSome, OnOk};
ghost use Rattle.std.specs.Option.{option_map};
ghost use Rattle.ic_sendring.specs.Ring.{IsRing};
ghost use Rattle.ic_law.specs.Clock.{last_tick};
ghost use Rattle.ic_law.specs.Timing.{numbers_behind};
ghost use Rattle.ic_sender.specs.Sending.{row_of, kept_at, rows_kept, flight_of};
ghost use Rattle.ic_sender.specs.Views.{asked_of, with_newest, newest_of, one_of, Plans};

use crate::flight::{Flight, push_datagrams};
use crate::numbers::{Asked, Numbers};
use ic_base::{ConnEnd, Datagram};
use ic_header::rows_packet;
use ic_sendring::{Sealed, SendRing};
use ic_window::Window;
use std::alloc::{AllocError, Global};

/// Adds a packet that goes out at this tick.
fn push_row(
    alloc: Global,
    end: &ConnEnd,
    packet: Sealed<'_>,
    now: u64,
    out: &mut Vec<Flight>,
) -> Result<(), AllocError>
    requires { length packet.payload.now ≤ 65507 }
    ensures { OnOk result (out.new.items ≡ out.old.items ++ flight_of end.now now (record { seq = packet.entry.seq; payload = packet.entry.payload.now; last = packet.entry.last }) ∷ []) }
{
    let datagram = rows_packet(alloc, end, packet.seq, packet.payload, packet.last)?;
    out.push(Flight {
        seq: packet.seq,
        tries: 0,
        since: now,
        resent: false,
        datagram,
    })?;
    Ok(())
}

/// The packet that is sealed with the event, if it has this number.
fn newest_at<'a>(newest: Option<Sealed<'a>>, seq: u32) -> Option<Sealed<'a>>
    requires { IfSome newest (λ n. length n.payload.now ≤ 65507) }
    ensures value { row_of (option_map newest_of result) ≡ row_of (kept_at (one_of newest.entry) seq) }
    ensures fits { IfSome result (λ n. length n.payload.now ≤ 65507) }
{
    match newest {
        Some(packet) if packet.seq == seq => Some(packet),
        _ => None,
    }
}

/// The packet of this number: one that is kept, or the one that is sealed with the event.
fn packet_at<'a>(ring: &'a SendRing, newest: Option<Sealed<'a>>, seq: u32) -> Option<Sealed<'a>>
    requires packet { ring.now.packet ≤ 65507 }
    requires newest { IfSome newest (λ n. length n.payload.now ≤ 65507) }
    ensures value { row_of (option_map newest_of result) ≡ row_of (kept_at (with_newest ring.now newest.entry) seq) }
    ensures fits { IfSome result (λ n. length n.payload.now ≤ 65507) }
{
    let kept = ring.packet(seq);
    if kept.is_some() {
        return kept;
    }
    newest_at(newest, seq)
}

/// Adds the packet of this number, if there is one.
fn push_at(
    alloc: Global,
    end: &ConnEnd,
    ring: &SendRing,
    newest: Option<Sealed<'_>>,
    seq: u32,
    now: u64,
    out: &mut Vec<Flight>,
) -> Result<(), AllocError>
    requires packet { ring.now.packet ≤ 65507 }
    requires newest { IfSome newest (λ n. length n.payload.now ≤ 65507) }
    ensures { OnOk result (out.new.items ≡ out.old.items ++ map (flight_of end.now now) (row_of (kept_at (with_newest ring.now newest.entry) seq))) }
{
    let Some(packet) = packet_at(ring, newest, seq) else {
        return Ok(());
    };
    push_row(alloc, end, packet, now, out)
}

/// The next `count` packets after number `sent`, as they go out at this tick. Each takes the memory of its datagram.
pub(crate) fn going(
    alloc: Global,
    end: &ConnEnd,
    ring: &SendRing,
    newest: Option<Sealed<'_>>,
    sent: u32,
    count: u32,
    now: u64,
) -> Result<Vec<Flight>, AllocError>
    requires packet { ring.now.packet ≤ 65507 }
    requires newest { IfSome newest (λ n. length n.payload.now ≤ 65507) }
    requires number { sent + count ≤ 4294967295 }
    ensures { IfOk result (λ v. v.items ≡ map (flight_of end.now now) (rows_kept (with_newest ring.now newest.entry) (numbers_behind sent count))) }
{
    let mut out = Vec::new(alloc);
    for behind in 0..count {
        push_at(alloc, end, ring, newest, sent + 1 + behind, now, &mut out)?;
    }
    Ok(out)
}

/// What goes out at the end of an event.
#[derive(Drop)]
pub(crate) struct Plan {
    /// How many packets more will have been emitted.
    pub count: u32,
    pub flights: Vec<Flight>,
    /// The status query that stands then.
    pub asked: Option<Asked>,
    /// The tick until which the packets wait.
    pub due: u64,
}

/// Plans the end of an event, for a connection as the event makes it: emits what there is room for. The one place
/// where that is decided. Adds the datagrams that go out.
#[tactic(auto, unfolding(ic_law::specs::Clock::last_tick))]
pub(crate) fn plan_end(
    alloc: Global,
    end: &ConnEnd,
    ring: &SendRing,
    newest: Option<Sealed<'_>>,
    numbers: &Numbers,
    window: &Window,
    depth: u32,
    asked: Option<Asked>,
    now: u64,
    out: &mut Vec<Datagram>,
) -> Result<Plan, AllocError>
    requires packet { ring.now.packet ≤ 65507 }
    requires newest { IfSome newest (λ n. length n.payload.now ≤ 65507) }
    requires now { now ≤ last_tick }
    ensures plans { IfOk result (λ p. Plans end.now (with_newest ring.now newest.entry) numbers.now window.now depth (option_map asked_of asked) now p) }
    ensures adds { IfOk result (λ p. out.new.items ≡ out.old.items ++ map (λ f. f.datagram) p.flights.items) }
{
    let count = numbers.next(depth, window);
    let flights = going(alloc, end, ring, newest, numbers.sent, count, now)?;
    push_datagrams(flights.as_slice(), out)?;
    let after = Numbers {
        sealed: numbers.sealed,
        sent: numbers.sent + count,
        acked: numbers.acked,
        consumed: numbers.consumed,
    };
    let asked = after.asks(depth, window, asked, now);
    Ok(Plan {
        count,
        flights,
        asked,
        due: now + window.wait(0),
    })
}
