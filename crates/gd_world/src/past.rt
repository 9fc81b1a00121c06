// What was done.
ghost use Rattle.std.specs.Prelude.{◌≡◌, ◌<◌, ◌++◌, ◌∷◌, [], vec_len, vec_capacity};

use crate::step::Step;
use ex_slice::{SliceNo, Turned};
use std::marker::Model;

/// A step that was done, for a turn its answer, and the place of the entry that it added to its node's history, from 0, if
/// it added one.
#[derive(Drop)]
pub struct Did {
    step: Step,
    turned: Option<Result<Turned, SliceNo>>,
    entry: Option<usize>,
}

impl Model for Did {
    ghost use Rattle.gd_world.specs.Doings.{Doing};

    ghost Value = { Doing };

    ghost view = { λ d. record { step = d.step; turned = d.turned; entry = d.entry } };
}

impl Did {
    ghost use Rattle.std.specs.Prelude.{◌≡◌};

    pub(crate) fn new(
        step: Step,
        turned: Option<Result<Turned, SliceNo>>,
        entry: Option<usize>,
    ) -> Did
        ensures { result ≡ record { step = step; turned = turned; entry = entry } }
    {
        Did {
            step,
            turned,
            entry,
        }
    }

    pub fn step(&self) -> Step
        ensures { result ≡ self.now.step }
    {
        self.step
    }

    /// What a turn was answered, and `None` for any other step.
    pub fn turned(&self) -> Option<Result<Turned, SliceNo>>
        ensures { result ≡ self.now.turned }
    {
        self.turned
    }

    /// The place of its entry in the history of its node, from 0. Only a turn may add none.
    pub fn entry(&self) -> Option<usize>
        ensures { result ≡ self.now.entry }
    {
        self.entry
    }
}

/// Puts a step at the end of a past that has room for it.
pub(crate) fn note(past: &mut Vec<Did>, did: Did)
    requires { vec_len past.old < vec_capacity past.old }
    ensures { past.new.items ≡ past.old.items ++ did ∷ [] }
{
    let _pushed = past.push(did);
}
