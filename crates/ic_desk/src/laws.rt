// What desks serve, and what adds to a worker's log.
ghost use Rattle.ic_desk.specs.Laws.{OwnAreThePlans, NoneHasALog, DriversLogNone};

/// Does nothing. Its clause: at a node that has the ends of a plan, a desk serves the ends of the slice's worker.
pub fn the_ends_are_the_plans()
    ensures { OwnAreThePlans }
{}

/// Does nothing. Its clause: while no call was made for a query, none of its workers has a log.
pub fn a_query_begins_with_no_log()
    ensures { NoneHasALog }
{}

/// Does nothing. Its clause: what comes, ticks, and what begins and leaves a query adds to no worker's log.
pub fn only_workers_log()
    ensures { DriversLogNone }
{}
