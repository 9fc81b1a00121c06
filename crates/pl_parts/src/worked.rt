// Worked plans, each carried by a function that has nothing to run.
ghost use Rattle.pl_parts.specs.Worked.{GroupsAreWhole, BroadcastsReachAll, CopiesAreSentOnce, RowsMeet};

/// Does nothing. Its clause: the groups of a final over the partials of two segments are those of all rows, also of groups
/// that one segment alone has.
pub fn a_final_joins_groups()
    ensures { GroupsAreWhole }
{}

/// Does nothing. Its clause: a join over a broadcast has the matches of whole tables, since each segment gets all rows.
pub fn a_broadcast_reaches_all()
    ensures { BroadcastsReachAll }
{}

/// Does nothing. Its clause: of a table that is everywhere one segment sends its rows, and they are the table's.
pub fn copies_are_sent_once()
    ensures { CopiesAreSentOnce }
{}

/// Does nothing. Its clause: a join over a redistribute by the join's columns has the matches of whole tables.
pub fn rows_meet_where_they_hash()
    ensures { RowsMeet }
{}
