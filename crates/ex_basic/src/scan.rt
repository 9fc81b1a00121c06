// The rows of a table.
ghost use Rattle.std.specs.Prelude.{◌≡◌, ◌<◌, true, false, length, IfOk, IfErr, Err};
ghost use Rattle.pl_ops.specs.declared.words.OpNo.TheVariants.{Memory};
ghost use Rattle.pl_ops.specs.Giving.{NextFalls};
ghost use Rattle.ex_basic.specs.Single.{Remembers};
ghost use Rattle.ex_basic.specs.Scans.{Answers, work};

use ic_row::Row;
use pl_ops::{Next, OpNo};
use std::alloc::Global;
use std::marker::Model;

/// A scan: answers rows that it has from the start, in their order. It shares them with its caller, and copies each row
/// when it answers it.
#[derive(Drop)]
pub struct Scan<'a> {
    /// The rows that it still has to answer.
    rows: &'a [Row],
    /// Whether it was refused memory.
    failed: bool,
}

impl<'a> Model for Scan<'a> {
    ghost use Rattle.ex_basic.specs.Single.{Remembers};
    ghost use Rattle.ex_basic.specs.Scans.{Scanning};

    ghost Value = { Scanning };

    ghost view = { λ s. record { pending = s.rows.now; failed = s.failed } };
}

impl<'a> Scan<'a> {
    /// A scan of these rows. Takes no memory.
    pub fn new(rows: &'a [Row]) -> Scan<'a>
        ensures { result ≡ record { pending = rows.now; failed = false } }
    {
        Scan {
            rows,
            failed: false,
        }
    }

    /// The next row, or the end. A row takes memory for its values, and for the bytes of each text.
    ///
    /// Fails only if out of memory, and then each time.
    pub fn next(&mut self, alloc: Global) -> Result<Next, OpNo>
        ensures answers { IfOk result (Answers self.old self.new) }
        ensures falls { IfOk result (λ next. NextFalls next (work self.old) (work self.new)) }
        ensures refused { Remembers result self.new.failed }
        // The end takes no memory.
        ensures takes { IfErr result (λ _. self.old.failed ≡ false → 0 < length self.old.pending) }
        ensures again { self.old.failed ≡ true → (result ≡ Err Memory) × (self.new ≡ self.old) }
    {
        if self.failed {
            return Err(OpNo::Memory);
        }
        let Some((row, rest)) = self.rows.split_first() else {
            return Ok(Next::End);
        };
        match row.copy(alloc) {
            Ok(copy) => {
                self.rows = rest;
                Ok(Next::Row(copy))
            }
            Err(_) => {
                self.failed = true;
                Err(OpNo::Memory)
            }
        }
    }
}
