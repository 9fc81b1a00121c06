// Worked runs that are unlawful, each carried by a function that has nothing to run.
ghost use Rattle.pl_runs.specs.Unlawful.{DoneAtOnce, LimitGoesOn, HaltsEarly, AsksAgain, PutsOtherRows, FinishesEarly, LeavesOut, RoutesByGang, GivesOnEmpty, TakesUnwanted, TakesEarly};

/// Does nothing. Its clauses: no run is done at once, goes on after a limit, halts while rows are wanted, or repeats a
/// call that was answered for good.
pub fn ends_are_judged()
    ensures at_once { DoneAtOnce }
    ensures limit { LimitGoesOn }
    ensures halts { HaltsEarly }
    ensures again { AsksAgain }
{}

/// Does nothing. Its clauses: no run sends a row twice or out of turn, finishes early, leaves a row out for a receiver
/// that didn't stop, or routes a row by anything but its key over all segments.
pub fn sends_are_judged()
    ensures rows { PutsOtherRows }
    ensures end { FinishesEarly }
    ensures left_out { LeavesOut }
    ensures routed { RoutesByGang }
{}

/// Does nothing. Its clauses: no run lets a row out of a merge while a head isn't known, takes what isn't wanted, or takes
/// before all that it gave was put.
pub fn takes_are_judged()
    ensures heads { GivesOnEmpty }
    ensures wanted { TakesUnwanted }
    ensures early { TakesEarly }
{}
