// What each step on the table tells.
use crate::machine::Machine;
use crate::view::{About, Bench, View};
use atomic_table::{Join, Play, Seat, Split, Table, TableRule};
use std::alloc::Global;
use std::marker::PhantomData;

pub type Slot<M> = Option<Bench<M, <M as Machine>::Ask, <M as Machine>::Reply>>;

pub type Knows<M> = View<
    <M as Machine>::Ask,
    <M as Machine>::Reply,
    <M as Machine>::Kept,
    <M as Machine>::State,
>;

/// The rule of a turn.
pub struct Law<M> {
    machine: PhantomData<M>,
}

impl<M: Machine> TableRule<Slot<M>, Knows<M>, About<M>> for Law<M> {
    ghost use Rattle.ic_turn.specs.Rule.{IsKept};
    ghost use Rattle.ic_turn.specs.Views.{opening_view};

    ghost holds = { λ key. IsKept M.kept M.state M.stands (M.kept key.first.value) key.passes };

    ghost first = { λ key. opening_view (M.kept key.first.value) key.passes };
}

pub type Board<M> = Table<Slot<M>, Knows<M>, About<M>, Law<M>, Global>;

pub type Place<M> = Seat<Slot<M>, Knows<M>>;

/// The number of entries is noted.
pub struct Note;

impl<M, A, R, K, S> Play<Option<Bench<M, A, R>>, View<A, R, K, S>> for Note {
    ghost use Rattle.ic_turn.specs.Steps.{noted};

    ghost then = { noted };
}

/// A ticket is drawn.
pub struct Draw<M> {
    machine: PhantomData<M>,
}

impl<M: Machine> Play<Slot<M>, Knows<M>> for Draw<M> {
    ghost use Rattle.ic_turn.specs.Steps.{drew};

    ghost then = { drew M.kept M.state };
}

/// An entry is added, and the next ticket is served.
pub struct Serve;

impl<M, A, R, K, S> Play<Option<Bench<M, A, R>>, View<A, R, K, S>> for Serve {
    ghost use Rattle.ic_turn.specs.Steps.{served};

    ghost then = { served };
}

/// The whole list is read off.
pub struct End<M> {
    machine: PhantomData<M>,
}

impl<M: Machine> Play<Slot<M>, Knows<M>> for End<M> {
    ghost use Rattle.ic_turn.specs.Steps.{ended};

    ghost then = { ended M.lawful };
}

/// The greatest spare number is given.
pub struct Cut;

impl<A, R, K, S> Split<View<A, R, K, S>> for Cut {
    ghost use Rattle.ic_turn.specs.Views.{giver_view, given_view};

    ghost left = { giver_view };

    ghost right = { given_view };
}

/// What the other holds is taken in.
pub struct Glue;

impl<A, R, K, S> Join<View<A, R, K, S>> for Glue {
    ghost use Rattle.ic_turn.specs.Views.{both_views, gone};

    ghost both = { both_views };

    ghost spent = { gone };
}
