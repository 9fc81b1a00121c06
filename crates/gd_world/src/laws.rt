// What holds of every world, carried by functions that have nothing to run.
ghost use Rattle.gd_world.specs.Laws.{PlansHaveEnds, SessionsGoOn, WorldsRunCleanly, RowsAreLetOut};

/// Does nothing. Its clause: the ends that a segment has of a plan may begin there: they are at the segment, no two have the
/// same key and side, and a connection of the segment with itself has both its ends.
pub fn plans_have_ends()
    ensures { PlansHaveEnds }
{}

/// Does nothing. Its clause: whatever steps were done, the histories are those of a session: each datagram that came was
/// emitted for its node, each hub kept its laws, and each connection the stream law.
pub fn sessions_go_on()
    ensures { SessionsGoOn }
{}

/// Does nothing. Its clauses: whatever steps were done, if each worker has read what it took, the workers run their slices; while
/// slice 0 isn't refused, the rows of this run are those that it has let out. What follows for the answer, `gd_answer` says.
pub fn worlds_run_cleanly()
    ensures runs { WorldsRunCleanly }
    ensures rows { RowsAreLetOut }
{}
