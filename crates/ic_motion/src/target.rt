// The receivers of a motion.
ghost use Rattle.std.specs.Prelude.{◌≡◌, true, false, IfOk, map};
ghost use Rattle.ic_motion.specs.Sending.{fresh_target, all_stopped, all_over, is_over};
ghost use Rattle.ic_motion.specs.Putting.{IsOpen, IsNextOpen, IsNextUnfinished};

use ic_base::SegId;
use std::alloc::{AllocError, Global};
use std::marker::Model;

/// A receiver.
#[derive(Drop)]
pub(crate) struct Target {
    to: SegId,
    stopped: bool,
    finished: bool,
}

impl Model for Target {
    ghost use Rattle.ic_motion.specs.Sending as spec;

    ghost Value = { spec.Target };

    ghost view = { λ t. record { to = t.to; stopped = t.stopped; finished = t.finished } };
}

impl Target {
    pub(crate) fn to(&self) -> SegId
        ensures { result ≡ self.now.to }
    {
        self.to
    }

    pub(crate) fn is_stopped(&self) -> bool
        ensures { result ≡ self.now.stopped }
    {
        self.stopped
    }

    /// Whether nothing more is to be done for it.
    pub(crate) fn is_over(&self) -> bool
        ensures { result ≡ is_over self.now }
    {
        self.finished || self.stopped
    }

    /// It wants no more.
    pub(crate) fn stop(&mut self)
        ensures { self.new ≡ record self.old { stopped = true } }
    {
        self.stopped = true;
    }

    /// Its stream was finished.
    pub(crate) fn finish(&mut self)
        ensures { self.new ≡ record self.old { finished = true } }
    {
        self.finished = true;
    }
}

/// One for each receiver.
pub(crate) fn targets(alloc: Global, receivers: &[SegId]) -> Result<Vec<Target>, AllocError>
    ensures { IfOk result (λ targets. targets.items ≡ map fresh_target receivers.now) }
{
    let mut targets = Vec::new(alloc);
    for to in receivers.iter().copied() {
        targets.push(Target {
            to,
            stopped: false,
            finished: false,
        })?;
    }
    Ok(targets)
}

/// Whether no receiver wants more.
pub(crate) fn all_stopped(targets: &[Target]) -> bool
    ensures { result ≡ all_stopped targets.now }
{
    for target in targets {
        if !target.is_stopped() {
            return false;
        }
    }
    true
}

/// Whether nothing more is to be done for any receiver.
pub(crate) fn all_over(targets: &[Target]) -> bool
    ensures { result ≡ all_over targets.now }
{
    for target in targets {
        if !target.is_over() {
            return false;
        }
    }
    true
}

/// The first place from `at` on and below `end` of a receiver that wants more, or else `end`, or `at` if that is greater.
pub(crate) fn next_open(targets: &[Target], at: usize, end: usize) -> usize
    ensures { IsNextOpen targets.now at end result }
{
    let mut place = at;
    while place < end {
        if is_open(targets, place) {
            return place;
        }
        place += 1;
    }
    place
}

/// Whether there is a receiver at a place, and it wants more.
fn is_open(targets: &[Target], place: usize) -> bool
    ensures yes { result ≡ true → IsOpen targets.now place }
    ensures no_ { result ≡ false → IsOpen targets.now place → ⊥ }
{
    if place >= targets.len() {
        return false;
    }
    !targets[place].is_stopped()
}

/// The first place of a receiver for which something is to be done, or else their number.
pub(crate) fn next_unfinished(targets: &[Target]) -> usize
    ensures { IsNextUnfinished targets.now result }
{
    let mut place = 0;
    while place < targets.len() {
        if !targets[place].is_over() {
            return place;
        }
        place += 1;
    }
    place
}
