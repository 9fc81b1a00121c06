// The passes of a turn.
ghost use Rattle.std.specs.Prelude.{◌≡◌};

use crate::machine::Machine;
use crate::plays::Place;
use crate::turn::Turn;
use std::marker::Model;
use std::snapshot::Snapshot;

/// What a caller calls a [`Turn`](crate::Turn) with. It has a number, and its calls are the entries of that number.
///
/// A thread has a pass of its own: [`split`](crate::Turn::split) makes more of one, and
/// [`join`](crate::Turn::join) puts two together again. The pass that holds all numbers closes the turn. A pass
/// that is dropped is lost, and its turn can no longer be closed.
#[derive(Drop)]
pub struct Pass<M: Machine> {
    pub(crate) number: u32,
    pub(crate) spare: u32,
    pub(crate) turn: Snapshot<Turn<M>>,
    pub(crate) seat: Place<M>,
}

impl<M: Machine> Model for Pass<M> {
    ghost use Rattle.ic_turn.specs.Passes.{Passing, passing, IsPass};

    ghost Value = { Passing M.Ask M.Reply M.Kept };

    ghost view = { λ p. passing p.turn.value p.seat.me.0 };

    ghost invariant = { λ p. IsPass p.number p.spare p.turn.value p.seat.table_id p.seat.me };
}

impl<M: Machine> Pass<M> {
    /// Its number, from 0.
    pub fn number(&self) -> u32
        ensures { result ≡ self.now.number }
    {
        self.number
    }
}
