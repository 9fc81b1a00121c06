// Laws of logs. Each is the contract of a function with an empty body.
ghost use Rattle.ic_law.specs.LogLaws.{LogGrows, NoneYet, OthersPass};

/// Entries added to a history add their own log.
pub fn log_grows()
    ensures { LogGrows }
{}

/// If all calls of workers are for earlier queries, a query has no log.
pub fn none_yet()
    ensures { NoneYet }
{}

/// Calls of another query's worker add nothing to a query's log.
pub fn others_pass()
    ensures { OthersPass }
{}
