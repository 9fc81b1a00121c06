// Which row is given next, or which sender is asked.
ghost use Rattle.std.specs.Prelude.{◌≡◌, ◌+◌, ◌<◌, length};
ghost use Rattle.pl_ops.specs.Merging.{sorts_before};
ghost use Rattle.ic_motion.specs.Hearing.{streams_of};
ghost use Rattle.ic_motion.specs.Picking.{any_beside, pick_any, first_at, goes_before, row_beside, least_beside, pick_least, pick_of, later, IsBelow, pop_at, row_or_more, answer_of, kept_by};

use crate::answers::Got;
use crate::track::Track;
use ic_row::{Key, Row, compare};
use pl_tree::Keys;
use std::cmp::Ordering;

/// What comes next. Senders are named by their places, from 0.
#[derive(Clone, Copy)]
pub(crate) enum Pick {
    /// The first row that is held of this sender.
    Row(usize),
    /// A take from any sender.
    Any,
    /// A take from this sender.
    One(usize),
    /// Nothing: no sender has more.
    Nothing,
}

/// The pick among all senders.
pub(crate) fn next_pick(order: &Option<Keys>, tracks: &[Track]) -> Pick
    ensures value { result ≡ pick_of order.now (streams_of tracks.now) }
    ensures below { IsBelow result (length tracks.now) }
{
    match order {
        None => pick_any(tracks),
        Some(keys) => pick_least(keys.as_slice(), tracks),
    }
}

fn pick_any(tracks: &[Track]) -> Pick
    ensures value { result ≡ pick_any (streams_of tracks.now) }
    ensures below { IsBelow result (length tracks.now) }
{
    match tracks.split_first() {
        None => Pick::Nothing,
        Some((track, tracks)) => any_beside(track, tracks, pick_any(tracks)),
    }
}

fn any_beside(track: &Track, tracks: &[Track], pick: Pick) -> Pick
    requires { IsBelow pick (length tracks.now) }
    ensures value { result ≡ any_beside track.now.rows track.now.over pick }
    ensures below { IsBelow result (length tracks.now + 1) }
{
    if track.first().is_some() {
        return Pick::Row(0);
    }
    match pick {
        Pick::Row(place) => Pick::Row(place + 1),
        Pick::Any | Pick::One(_) => Pick::Any,
        Pick::Nothing => {
            if track.is_over() {
                Pick::Nothing
            } else {
                Pick::Any
            }
        }
    }
}

fn pick_least(keys: &[Key], tracks: &[Track]) -> Pick
    ensures value { result ≡ pick_least (sorts_before keys.now) (streams_of tracks.now) }
    ensures below { IsBelow result (length tracks.now) }
{
    match tracks.split_first() {
        None => Pick::Nothing,
        Some((track, tracks)) => { least_beside(keys, track, tracks, pick_least(keys, tracks)) }
    }
}

fn least_beside(keys: &[Key], track: &Track, tracks: &[Track], pick: Pick) -> Pick
    requires { IsBelow pick (length tracks.now) }
    ensures value { result ≡ least_beside (sorts_before keys.now) track.now.rows track.now.over (streams_of tracks.now) pick }
    ensures below { IsBelow result (length tracks.now + 1) }
{
    match track.first() {
        Some(row) => row_beside(keys, row, tracks, pick),
        None => {
            if track.is_over() {
                later(tracks, pick)
            } else {
                Pick::One(0)
            }
        }
    }
}

fn row_beside(keys: &[Key], row: &Row, tracks: &[Track], pick: Pick) -> Pick
    requires { IsBelow pick (length tracks.now) }
    ensures value { result ≡ row_beside (sorts_before keys.now) row.now (streams_of tracks.now) pick }
    ensures below { IsBelow result (length tracks.now + 1) }
{
    match pick {
        Pick::Row(place) => {
            if goes_before(keys, tracks, place, row) {
                Pick::Row(place + 1)
            } else {
                Pick::Row(0)
            }
        }
        Pick::Any => Pick::Any,
        Pick::One(place) => Pick::One(place + 1),
        Pick::Nothing => Pick::Row(0),
    }
}

fn later(tracks: &[Track], pick: Pick) -> Pick
    requires { IsBelow pick (length tracks.now) }
    ensures value { result ≡ later pick }
    ensures below { IsBelow result (length tracks.now + 1) }
{
    match pick {
        Pick::Row(place) => Pick::Row(place + 1),
        Pick::One(place) => Pick::One(place + 1),
        Pick::Any => Pick::Any,
        Pick::Nothing => Pick::Nothing,
    }
}

/// Whether the first row of the sender at a place sorts before this one.
fn goes_before(keys: &[Key], tracks: &[Track], place: usize, row: &Row) -> bool
    requires { place < length tracks.now }
    ensures { result ≡ goes_before (sorts_before keys.now) (first_at place (streams_of tracks.now)) row.now }
{
    match tracks[place].first() {
        None => false,
        Some(other) => sorts_before(keys, other, row),
    }
}

/// Whether the first row sorts before the second.
#[tactic(auto, unfolding(pl_ops::specs::Merging::sorts_before))]
fn sorts_before(keys: &[Key], a: &Row, b: &Row) -> bool
    ensures { result ≡ sorts_before keys.now a.now b.now }
{
    compare(keys, a, b) == Ordering::Less
}

/// Gives the first row of the sender at a place.
fn give(tracks: &mut Vec<Track>, place: usize) -> Got
    requires { place < length tracks.old.items }
    ensures got { result ≡ row_or_more (first_at place (streams_of tracks.old.items)) }
    ensures left { tracks.new.items ≡ pop_at place tracks.old.items }
{
    match tracks[place].pop() {
        Some(row) => Got::Row(row),
        None => Got::More,
    }
}

/// Gives the next row if it is known.
pub(crate) fn show(order: &Option<Keys>, tracks: &mut Vec<Track>) -> Got
    ensures got { result ≡ answer_of (pick_of order.now (streams_of tracks.old.items)) tracks.old.items }
    ensures left { tracks.new.items ≡ kept_by (pick_of order.now (streams_of tracks.old.items)) tracks.old.items }
{
    match next_pick(order, tracks.as_slice()) {
        Pick::Row(place) => give(tracks, place),
        Pick::Any | Pick::One(_) => Got::More,
        Pick::Nothing => Got::End,
    }
}
