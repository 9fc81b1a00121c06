// Worked plans, each carried by a function that has nothing to run.
ghost use Rattle.pl_mean.specs.Worked.{JoinMeans, JoinIsRouted, CountMeans, WaitsForHeads, GivesLeast, TiesFromLeast, GivesAsTaken, IsMerged, OrderCounts, AreAnyTwo, TwoAreTwo, AreTopTwo, LeastIsThere};

/// Does nothing. Its clause: a join over a redistribute means the matches of whole tables.
pub fn a_join_means_its_matches()
    ensures { JoinMeans }
{}

/// Does nothing. Its clause: a row is routed by its key over all segments, and none to the dispatcher.
pub fn rows_go_where_they_hash()
    ensures { JoinIsRouted }
{}

/// Does nothing. Its clause: a final over a gather over a partial means one aggregate over all rows, and gives it.
pub fn two_stages_mean_one()
    ensures { CountMeans }
{}

/// Does nothing. Its clauses: an ordered gather gives no row while the head of a sender isn't known, and then the least
/// head, of equal ones that of the least sender; a gather without an order gives each row as it was taken.
pub fn an_ordered_gather_waits()
    ensures waits { WaitsForHeads }
    ensures least { GivesLeast }
    ensures ties { TiesFromLeast }
    ensures unordered { GivesAsTaken }
{}

/// Does nothing. Its clauses: the merged rows are a lawful answer, and in another order they aren't.
pub fn sorted_rows_answer_a_merge()
    ensures lawful { IsMerged }
    ensures unlawful { OrderCounts }
{}

/// Does nothing. Its clauses: any two rows answer a limit of two, and neither fewer nor more do.
pub fn any_rows_answer_a_limit()
    ensures lawful { AreAnyTwo }
    ensures unlawful { TwoAreTwo }
{}

/// Does nothing. Its clauses: under a limit with an order the first rows are a lawful answer, of equal ones any; and no
/// row is left out that sorts before one that is there.
pub fn first_rows_answer_a_top()
    ensures lawful { AreTopTwo }
    ensures unlawful { LeastIsThere }
{}
