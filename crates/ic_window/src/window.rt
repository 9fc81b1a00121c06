// The congestion window and the waiting time.
ghost use Rattle.std.specs.Prelude.{◌≡◌, ℕ, ◌*◌, ◌/◌, ◌-◌, ◌≤◌, min};
ghost use Rattle.ic_window.specs.Window.{times, widest, wider, halved, room_of};
ghost use Rattle.ic_window.specs.Waiting.{time_of, wait_of};
ghost use Rattle.ic_window.specs.State.{fresh, grown, lost, sampled, IsWindow};

use crate::round_trip::{LONGEST, RoundTrip};
use ic_base::Flow;
use std::marker::Model;

/// One packet, in the unit of windows. The unit is fine enough to grow by less than a packet.
const PACKET: u32 = 256;

/// How long to wait before the first sample, in ticks.
const UNKNOWN: u64 = 4;

/// How often the shortest wait, 2 ticks, is doubled until it is the longest, 64.
const DOUBLINGS: u32 = 5;

/// A sender's congestion window and its waiting time.
///
/// The window follows RFC 5681, sections 3.1 and 3.2, counted in packets: slow start below the threshold, and
/// congestion avoidance from there on. It differs in three ways. It starts at one packet, and each loss puts it back to
/// one. The threshold after a loss is half the window, not half of what is in flight, and at least one packet. There is
/// no fast recovery. With `Flow::Capacity` the window is always the receive depth.
///
/// The waiting time is the RTO of RFC 6298 with its backoff, in the integer form of Jacobson 1988, appendix A. It
/// differs in three ways. It is kept within 2..=64 ticks. It is 4 ticks before the first sample. A sample counts as at
/// most 64 ticks.
#[derive(Clone, Copy, Debug)]
pub struct Window {
    /// The receive depth in packets, 1..=256.
    depth: u32,
    flow: Flow,
    /// In 1/256 packet, from one packet to the depth.
    window: u32,
    /// Slow start ends here. In 1/256 packet.
    threshold: u32,
    /// `None` before the first sample.
    round_trip: Option<RoundTrip>,
}

impl Model for Window {
    ghost use Rattle.ic_window.specs.State.{WindowState, IsWindow};

    ghost Value = { WindowState };

    ghost view = { λ w. record { depth = w.depth; flow = w.flow; window = w.window; threshold = w.threshold; round_trip = w.round_trip } };

    ghost invariant = { λ w. IsWindow (record { depth = w.depth; flow = w.flow; window = w.window; threshold = w.threshold; round_trip = w.round_trip }) };

    ghost inverse = { λ w. record { depth = w.depth; flow = w.flow; window = w.window; threshold = w.threshold; round_trip = w.round_trip } };
}

/// A window after one more packet was freed.
fn wider(depth: u32, threshold: u32, window: u32) -> u32
    requires most { depth ≤ 256 }
    requires least { 256 ≤ window }
    requires greatest { window ≤ widest depth }
    ensures { result ≡ wider depth threshold window }
{
    let more = if window < threshold {
        PACKET
    } else {
        PACKET * PACKET / window
    };
    (window + more).min(PACKET * depth)
}

/// A window after this many more packets were freed.
fn widened(depth: u32, threshold: u32, window: u32, packets: u32) -> u32
    requires most { depth ≤ 256 }
    requires least { 256 ≤ window }
    requires greatest { window ≤ widest depth }
    ensures value { result ≡ times packets (wider depth threshold) window }
    ensures least { 256 ≤ result }
    ensures greatest { result ≤ widest depth }
{
    let mut window = window;
    let mut left = packets;
    while left > 0 && window < PACKET * depth {
        window = wider(depth, threshold, window);
        left -= 1;
    }
    window
}

/// A time of 2..=64 ticks, doubled this many times, but at most the longest.
fn backed_off(time: u64, tries: u32) -> u64
    requires least { 2 ≤ time }
    requires greatest { time ≤ 64 }
    ensures value { result ≡ min 64 (times tries (λ n. 2 * n) time) }
    ensures least { 2 ≤ result }
    ensures greatest { result ≤ 64 }
{
    (time << tries.min(DOUBLINGS)).min(LONGEST)
}

impl Window {
    /// The first window for a receiver that keeps `depth` packets, 1..=256: one packet, or the depth with
    /// `Flow::Capacity`.
    pub fn new(depth: u32, flow: Flow) -> Window
        requires least { 1 ≤ depth }
        requires most { depth ≤ 256 }
        ensures value { result ≡ fresh depth flow }
        ensures stands { IsWindow result }
    {
        Window {
            depth,
            flow,
            window: match flow {
                Flow::Loss => PACKET,
                Flow::Capacity => PACKET * depth,
            },
            threshold: PACKET * depth,
            round_trip: None,
        }
    }

    /// An answer freed this many packets. Takes one step a packet until the window is at the depth: at most about
    /// 42,000, with a depth of 256.
    pub fn grown(&mut self, packets: u32)
        ensures value { self.new ≡ grown packets self.old }
        ensures stands { IsWindow self.new }
    {
        if self.flow == Flow::Loss {
            self.window = widened(self.depth, self.threshold, self.window, packets);
        }
    }

    /// Packets were lost. Call it once for all losses that one answer or one tick found. RFC 5681, section 3.1, after a
    /// timeout.
    pub fn lost(&mut self)
        ensures value { self.new ≡ lost self.old }
        ensures stands { IsWindow self.new }
    {
        if self.flow == Flow::Capacity {
            return;
        }
        self.threshold = (self.window / 2).max(PACKET);
        self.window = PACKET;
    }

    /// A packet was answered this many ticks after it was emitted. Give no sample for a packet that was resent (Karn's
    /// rule, RFC 6298, section 3).
    pub fn sample(&mut self, ticks: u64)
        ensures value { self.new ≡ sampled ticks self.old }
        ensures stands { IsWindow self.new }
    {
        let ticks = ticks.min(LONGEST);
        let next = match self.round_trip {
            None => RoundTrip::first(ticks),
            Some(round_trip) => round_trip.later(ticks),
        };
        self.round_trip = Some(next);
    }

    /// How many more packets may be emitted now, at most `capacity`, the receiver's credit. `in_flight` counts packets
    /// emitted and not yet freed; a packet that was resent counts once.
    pub fn room(&self, in_flight: u32, capacity: u32) -> u32
        ensures { result ≡ room_of self.now.window in_flight capacity }
    {
        (self.window / PACKET)
            .saturating_sub(in_flight)
            .min(capacity)
    }

    /// How long to wait for an answer, in ticks.
    fn time(&self) -> u64
        ensures value { result ≡ time_of self.now.round_trip }
        ensures least { 2 ≤ result }
        ensures greatest { result ≤ 64 }
    {
        match self.round_trip {
            None => UNKNOWN,
            Some(round_trip) => round_trip.time(),
        }
    }

    /// How long to wait for the answer to a packet that was resent `tries` times, in ticks: doubled for each (RFC 6298,
    /// section 5.5).
    pub fn wait(&self, tries: u32) -> u64
        ensures value { result ≡ wait_of tries self.now.round_trip }
        ensures least { 2 ≤ result }
        ensures greatest { result ≤ 64 }
    {
        backed_off(self.time(), tries)
    }
}
