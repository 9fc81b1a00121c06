// Laws of rows that stand at segments, each carried by a function that has nothing to run.
ghost use Rattle.tb_load.specs.Laws.{FittingRows, PlacedOnce};

/// Of rows that fit a plan's tables, those at each segment have the kinds of their columns, and no text too long to be
/// spelled.
pub fn fitting_rows()
    ensures { FittingRows }
{}

/// Over all segments, the rows that are placed by key or by number are the rows of the table, each once.
pub fn placed_once()
    ensures { PlacedOnce }
{}
