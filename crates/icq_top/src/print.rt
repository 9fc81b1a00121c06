// Lines handed to a sink, each in writes of its own.
ghost use Rattle.std.specs.Prelude.{◌≡◌, ◌≤◌, OnOk, IsErrOf, map, flat_map};
ghost use Rattle.std.specs.List.{concat};
ghost use Rattle.std.specs.Io.KnownBytes.{Appends};
ghost use Rattle.ic_edge.specs.Causes.{Rose, TakesAFront};
ghost use Rattle.icq_top.specs.Print.{WroteLines, answer_lines};
ghost use Rattle.icq_top.specs.declared.print.PrintNo.TheVariants.{Memory};

use crate::line::Line;
use gd_sim::Tallies;
use ic_edge::{Failed, Sink, write_all};
use ic_row::Row;
use std::alloc::AllocError;

/// Why not all lines were written.
#[derive(Clone, Copy, Debug, PartialEq, Eq)]
pub enum PrintNo {
    /// The sink failed. It may have taken a front of the line.
    Failed,
    /// Out of memory, between two lines.
    Memory,
}

impl From<AllocError> for PrintNo {
    ghost from_gives = { λ _ e. e ≡ Memory };

    fn from(_: AllocError) -> Self {
        PrintNo::Memory
    }
}

/// Writes lines, each in writes of its own. One buffer serves all of them.
pub fn print_lines<K: Sink, L: Line>(
    sink: &mut K,
    buffer: &mut String,
    lines: &[L],
) -> Result<(), PrintNo>
    ensures ok { OnOk result (Appends (K.wrote sink.old) (K.wrote sink.new) (concat (map L.text lines.now))) }
    ensures failed { IsErrOf result PrintNo.Failed → TakesAFront (K.wrote sink.old) (K.wrote sink.new) (concat (map L.text lines.now)) }
    ensures memory { IsErrOf result PrintNo.Memory → WroteLines (K.wrote sink.old) (K.wrote sink.new) (map L.text lines.now) }
    ensures cause { IsErrOf result PrintNo.Failed → Rose (K.count sink.old) (K.count sink.new) }
    ensures later { K.count sink.old ≤ K.count sink.new }
{
    for item in lines {
        buffer.clear();
        item.push_line(buffer)?;
        match write_all(sink, buffer.as_bytes()) {
            Ok(()) => {}
            Err(Failed) => return Err(PrintNo::Failed),
        }
    }
    Ok(())
}

/// The rows of a query that is over, and what its connections did.
#[derive(Drop)]
pub struct Answer<'r> {
    pub rows: &'r [Row],
    pub tallies: Tallies,
}

/// Writes the rows of a query and then its tallies.
fn print_answer<K: Sink>(
    sink: &mut K,
    buffer: &mut String,
    answer: &Answer<'_>,
) -> Result<(), PrintNo>
    ensures ok { OnOk result (Appends (K.wrote sink.old) (K.wrote sink.new) (concat (answer_lines answer.now))) }
    ensures failed { IsErrOf result PrintNo.Failed → TakesAFront (K.wrote sink.old) (K.wrote sink.new) (concat (answer_lines answer.now)) }
    ensures memory { IsErrOf result PrintNo.Memory → WroteLines (K.wrote sink.old) (K.wrote sink.new) (answer_lines answer.now) }
    ensures cause { IsErrOf result PrintNo.Failed → Rose (K.count sink.old) (K.count sink.new) }
    ensures later { K.count sink.old ≤ K.count sink.new }
{
    match print_lines(sink, buffer, answer.rows) {
        Ok(()) => print_lines(sink, buffer, answer.tallies.as_slice()),
        Err(no) => Err(no),
    }
}

/// Writes the rows and tallies of each query, one query after the other.
pub fn print_answers<K: Sink>(
    sink: &mut K,
    buffer: &mut String,
    answers: &[Answer<'_>],
) -> Result<(), PrintNo>
    ensures ok { OnOk result (Appends (K.wrote sink.old) (K.wrote sink.new) (concat (flat_map answer_lines answers.now))) }
    ensures failed { IsErrOf result PrintNo.Failed → TakesAFront (K.wrote sink.old) (K.wrote sink.new) (concat (flat_map answer_lines answers.now)) }
    ensures memory { IsErrOf result PrintNo.Memory → WroteLines (K.wrote sink.old) (K.wrote sink.new) (flat_map answer_lines answers.now) }
    ensures cause { IsErrOf result PrintNo.Failed → Rose (K.count sink.old) (K.count sink.new) }
    ensures later { K.count sink.old ≤ K.count sink.new }
{
    for answer in answers {
        match print_answer(sink, buffer, answer) {
            Ok(()) => {}
            Err(no) => return Err(no),
        }
    }
    Ok(())
}
