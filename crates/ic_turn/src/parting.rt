// How passes are made of one, and put together.
ghost use Rattle.std.specs.Prelude.{◌≡◌, ◌<◌, IfOk, IfErr};
ghost use Rattle.ic_turn.specs.Passes.{giver, given, joined_with};

use crate::machine::Machine;
use crate::pass::Pass;
use crate::plays::{Cut, Glue};
use crate::turn::Turn;
use std::snapshot::Snapshot;

impl<M: Machine> Turn<M> {
    /// Cuts a pass off, the second one, which has the greatest number that this one may still give. If there is none,
    /// the pass comes back. One load.
    pub fn split(&self, pass: Pass<M>) -> Result<(Pass<M>, Pass<M>), Pass<M>>
        requires of { pass.turn ≡ self.now }
        ensures ok { IfOk result (λ p. (0 < pass.spare) × (p.0 ≡ giver pass) × (p.1 ≡ given pass)) }
        ensures err { IfErr result (λ p. (p ≡ pass) × (pass.spare ≡ 0)) }
    {
        if pass.spare == 0 {
            return Err(pass);
        }
        let Pass {
            number,
            spare,
            turn,
            mut seat,
        } = pass;
        let given = Pass {
            number: spare,
            spare: 0,
            turn: Snapshot::of(self),
            seat: self.table.shared.split_seat::<Cut>(&mut seat),
        };
        let giver = Pass {
            number,
            spare: spare - 1,
            turn,
            seat,
        };
        Ok((giver, given))
    }

    /// One pass that keeps the number, the calls and the spare numbers of `a`, and holds what both held. One load.
    pub fn join(&self, a: Pass<M>, b: Pass<M>) -> Pass<M>
        requires of { (a.turn ≡ self.now) × (b.turn ≡ self.now) }
        ensures { result ≡ joined_with a b }
    {
        let Pass {
            number,
            spare,
            turn,
            mut seat,
        } = a;
        let Pass {
            number: _,
            spare: _,
            turn: _,
            seat: other,
        } = b;
        self.table.shared.join_seat::<Glue>(&mut seat, other);
        Pass {
            number,
            spare,
            turn,
            seat,
        }
    }
}
