// The end of a turn.
ghost use Rattle.std.specs.Prelude.{◌≡◌, length};
ghost use Rattle.ic_turn.specs.Parts.{unnumbered, total, AreBelow, ArePartsOf};
ghost use Rattle.ic_turn.specs.Passes.{held, HoldsAll};

use crate::board::{end, taken_out};
use crate::machine::Machine;
use crate::pass::Pass;
use crate::plays::Place;
use crate::turn::Turn;
use std::marker::Model;
use std::snapshot::Snapshot;

/// The whole list of a turn's entries, each with the number of its pass. It is there for contracts alone, and takes no
/// memory.
#[derive(Drop)]
pub struct Closed<M: Machine> {
    list: Snapshot<Place<M>>,
}

impl<M: Machine> Model for Closed<M> {
    ghost use Rattle.std.specs.Prelude.{List};
    ghost use Rattle.ic_turn.specs.declared.view.Numbered.{Numbered};
    ghost use Rattle.ic_turn.specs.Views.{list_of};

    ghost Value = { List (Numbered M.Ask M.Reply) };

    ghost view = { λ c. list_of c.list.value.me.0.stage };
}

impl<M: Machine> Turn<M> {
    /// The whole list, by the pass that holds all numbers. The machine stays in the turn: this serves a turn that is
    /// shared to its end. One load.
    pub fn read_off(&self, pass: Pass<M>) -> Closed<M>
        requires of { pass.turn ≡ self.now }
        requires all { HoldsAll pass }
        ensures lawful { M.lawful self.now.kept (unnumbered result) }
        ensures below { AreBelow self.now.passes result }
        ensures parts { ArePartsOf result (held pass) }
        ensures total { length result ≡ total (held pass) }
    {
        let Pass {
            number: _,
            spare: _,
            turn: _,
            seat: mut place,
        } = pass;
        end(&self.table, &mut place);
        Closed {
            list: Snapshot::of(&place),
        }
    }

    /// The machine, and the whole list, for which it stands. The table's memory is given back.
    pub fn close(self, pass: Pass<M>) -> (M, Closed<M>)
        requires of { pass.turn ≡ self }
        requires all { HoldsAll pass }
        ensures kept { M.kept result.0 ≡ self.kept }
        ensures stands { M.stands self.kept (M.state result.0) (unnumbered result.1) }
        ensures lawful { M.lawful self.kept (unnumbered result.1) }
        ensures below { AreBelow self.passes result.1 }
        ensures parts { ArePartsOf result.1 (held pass) }
        ensures total { length result.1 ≡ total (held pass) }
    {
        let Pass {
            number: _,
            spare: _,
            turn: _,
            mut seat,
        } = pass;
        end(&self.table, &mut seat);
        let list = Snapshot::of(&seat);
        let Turn {
            table,
            alloc: _,
            about: _,
        } = self;
        (taken_out(table, seat), Closed { list })
    }
}
