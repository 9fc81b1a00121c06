// How many connections and workers a plan has, and how many it may have.
ghost use Rattle.std.specs.Prelude.{◌≡◌, ◌≤◌, length};
ghost use Rattle.ic_base.specs.Settings.{AreChecked};
ghost use Rattle.pl_plan.specs.Motions.{links_of};
ghost use Rattle.pl_plan.specs.Layout.{members, motion_in};
ghost use Rattle.pl_plan.specs.Limits as spec;

use crate::layout::MotionRow;
use crate::rule::Rule;
use ic_base::Settings;

/// The most bytes that the rings of a query's connections may hold: what still fits beside the rest in a process of
/// ordinary size, and less than a signed 32-bit length.
const MOST_BYTES: u64 = 2147483648;

/// The most workers of a query: each is a thread.
const MOST_WORKERS: u64 = 1024;

/// How many connections a motion has, at most 4096.
#[tactic(auto, using(crate::proofs::SumLemmas::links_long, crate::proofs::SumLemmas::row_most))]
fn links_of(motion: &MotionRow, segments: u32) -> u64
    requires { segments ≤ 64 }
    ensures value { result ≡ length (links_of (motion_in segments motion.now)) }
    ensures most { result ≤ 4096 }
{
    u64::from(motion.senders.size(segments)) * u64::from(motion.receivers.size(segments))
}

#[tactic(auto, using(crate::proofs::SumLemmas::next_links, crate::proofs::SumLemmas::links_most))]
fn link_count(motions: &[MotionRow], segments: u32) -> u64
    requires segments { segments ≤ 64 }
    requires motions { length motions.now ≤ 64 }
    ensures value { result ≡ length (spec.links_in_rows segments motions.now) }
    ensures most { result ≤ 262144 }
{
    let mut count = 0;
    for motion in motions {
        count += links_of(motion, segments);
    }
    count
}

/// The bytes that the rings of all connections may hold.
fn ring_room(motions: &[MotionRow], segments: u32, settings: &Settings) -> u64
    requires segments { segments ≤ 64 }
    requires motions { length motions.now ≤ 64 }
    requires settings { AreChecked settings.now }
    ensures { result ≡ spec.room_of segments settings.now motions.now }
{
    let packets = u64::from(settings.receive_depth) + u64::from(settings.send_depth) + 1;
    link_count(motions, segments) * packets * u64::from(settings.packet)
}

/// How many segments send of a motion, at most 64.
#[tactic(auto, using(crate::proofs::SumLemmas::size_most))]
fn senders_of(motion: &MotionRow, segments: u32) -> u64
    requires { segments ≤ 64 }
    ensures value { result ≡ length (members segments motion.now.senders) }
    ensures most { result ≤ 64 }
{
    u64::from(motion.senders.size(segments))
}

/// The gang members of all slices, a receiving worker of each segment, and the dispatcher's.
#[tactic(auto, using(crate::proofs::SumLemmas::next_senders, crate::proofs::SumLemmas::senders_most))]
fn worker_count(motions: &[MotionRow], segments: u32) -> u64
    requires segments { segments ≤ 64 }
    requires motions { length motions.now ≤ 64 }
    ensures { result ≡ spec.workers_of segments motions.now }
{
    let mut count = 0;
    for motion in motions {
        count += senders_of(motion, segments);
    }
    1 + count + u64::from(segments) + 1
}

/// The rule that the room and the workers break.
fn limit_rule(bytes: u64, workers: u64) -> Option<Rule>
    ensures { result ≡ spec.limit_rule bytes workers }
{
    if bytes > MOST_BYTES {
        return Some(Rule::TooWide(bytes));
    }
    if workers > MOST_WORKERS {
        return Some(Rule::TooMany(workers));
    }
    None
}

/// The rule that a plan with these motions breaks at its root.
pub fn broken_limit(motions: &[MotionRow], segments: u32, settings: &Settings) -> Option<Rule>
    requires segments { segments ≤ 64 }
    requires motions { length motions.now ≤ 64 }
    requires settings { AreChecked settings.now }
    ensures { result ≡ spec.limit_rule (spec.room_of segments settings.now motions.now) (spec.workers_of segments motions.now) }
{
    limit_rule(
        ring_room(motions, segments, settings),
        worker_count(motions, segments),
    )
}
