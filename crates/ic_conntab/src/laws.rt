// Laws of tables. Each is the contract of a function with an empty body.
ghost use Rattle.ic_conntab.specs.Laws.{PlaceIsItsOwn, BegunIsFound, LeftIsEnded, TopNeverFalls, EndedForGood};

/// If a key is found at a position, it is there among its query's connections. If these are distinct, each is found at
/// its position.
pub fn place_is_its_own()
    ensures { PlaceIsItsOwn }
{}

/// After `begin` the query's own keys are found at their positions, and every other key is found as before.
pub fn begun_is_found()
    ensures { BegunIsFound }
{}

/// After `leave` every key of the query has ended, and the keys of each other live query are found as before.
pub fn left_is_ended()
    ensures { LeftIsEnded }
{}

/// The greatest query number that has ended never falls, however queries begin and are left.
pub fn top_never_falls()
    ensures { TopNeverFalls }
{}

/// A connection that has ended stays ended, however queries begin and are left.
pub fn ended_for_good()
    ensures { EndedForGood }
{}
