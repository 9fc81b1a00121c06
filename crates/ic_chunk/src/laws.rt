// Laws of chunks. Each is the contract of a function with an empty body.
ghost use Rattle.ic_chunk.specs.Laws.{OneAssembly, FrontAssembles, CutAssembles};

/// Payloads assemble in at most one way: to one list of rows, one unfinished row and one end.
pub fn one_assembly()
    ensures { OneAssembly }
{}

/// The first payloads of a stream are the front of a stream, and their rows are the first of its rows.
pub fn front_assembles()
    ensures { FrontAssembles }
{}

/// The chunks that a [`crate::Splitter`] makes of rows assemble to these rows, with or without the end of stream after
/// them, however the chunks are distributed over payloads.
pub fn cut_assembles()
    ensures { CutAssembles }
{}
