// Laws of runs and logs, each carried by a function that has nothing to run.
ghost use Rattle.std.specs.Prelude.{◌≡◌, true};
ghost use Rattle.pl_runs.specs.Slices.{Worker};
ghost use Rattle.pl_runs.specs.Runs.{Course, SliceRun};
ghost use Rattle.pl_runs.specs.Checking.{is_run};
ghost use Rattle.pl_runs.specs.Laws.{LogGrows, RunsGiveTheOutput};
ghost use Rattle.pl_runs.specs.Apart.{SlicesAreApart};
ghost use Rattle.pl_runs.specs.WorkedLogs.{WorkersApart};

/// Does nothing. Its clauses: a run of a slice passes the check, and what passes it is a run.
pub fn the_check_is_the_run()
    ensures follows { (w : Worker) (c : Course) → SliceRun w c → is_run w c ≡ true }
    ensures gives { (w : Worker) (c : Course) → is_run w c ≡ true → SliceRun w c }
{}

/// Does nothing. Its clauses: entries added to a history add their own log; of two workers at one node each has the log
/// of its own calls.
pub fn logs_are_of_workers()
    ensures grows { LogGrows }
    ensures apart { WorkersApart }
{}

/// Does nothing. Its clause: the workers of two slices at one node have no connection end in common.
pub fn slices_are_apart()
    ensures { SlicesAreApart }
{}

/// Does nothing. Its clause: if the run of a query over all nodes is over, its rows are all of the root's output.
pub fn runs_give_the_output()
    ensures { RunsGiveTheOutput }
{}
