// Worked runs that are lawful, each carried by a function that has nothing to run.
ghost use Rattle.pl_runs.specs.Lawful.{LimitRuns, EmptyLimitRuns, MergeRuns, JoinRuns};

/// Does nothing. Its clauses: a limit that is satisfied halts each sender, and a segment may learn of it as it finishes; a
/// limit of none halts before any take.
pub fn a_limit_runs()
    ensures two { LimitRuns }
    ensures none { EmptyLimitRuns }
{}

/// Does nothing. Its clause: an ordered gather takes from the least sender whose head it doesn't know.
pub fn a_merge_runs()
    ensures { MergeRuns }
{}

/// Does nothing. Its clause: the three slices of a join over a redistribute, at one segment each.
pub fn a_join_runs()
    ensures { JoinRuns }
{}
