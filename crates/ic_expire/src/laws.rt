// Laws of the queue, each carried by a function that has nothing to run.
ghost use Rattle.ic_expire.specs.Laws.{PutHolds, RestHolds, DueGives, DueTakes, PutKeepsOthers, CutKeepsOthers};

/// With one more item a queue holds this one and what it held.
pub fn put_holds()
    ensures { PutHolds }
{}

/// Without the items of a test a queue holds what it held that doesn't pass it.
pub fn rest_holds()
    ensures { RestHolds }
{}

/// The packets that a question gives are those whose time is over.
pub fn due_gives()
    ensures { DueGives }
{}

/// A question gives a packet once, and it waits no more.
pub fn due_takes()
    ensures { DueTakes }
{}

/// A put for one connection leaves what waits for every other.
pub fn put_keeps_others()
    ensures { PutKeepsOthers }
{}

/// A cut of one connection leaves what waits for every other.
pub fn cut_keeps_others()
    ensures { CutKeepsOthers }
{}
