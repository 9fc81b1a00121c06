// Laws of the ends of one segment, each carried by a function that has nothing to run.
ghost use Rattle.ic_hub_laws.specs.Clocks.{ClockMoves, NothingSpent, PacketSpentFirst, QuerySpentFirst};
ghost use Rattle.ic_hub_laws.specs.Serving.{ServedBefore, ServedNow, ServedNobody};
ghost use Rattle.ic_hub_laws.specs.Formed.{AnswersAreFormed, TurnedIsFormed};
ghost use Rattle.ic_hub_laws.specs.Living.{LiveAreThere, SideIsHere, OldUpto, LeftTops, OthersLiveOn, BegunIsLive, LeftIsNotLive, LiveOnce};
ghost use Rattle.ic_hub_laws.specs.Laws.{GoesFirst, GoesOn, ConcernedPasses, NoughtPasses, TickPasses, ConcernedPoint, NoughtPoint, TickPoint, LawGoesOn};
ghost use Rattle.ic_hub_laws.specs.Laws.{EmissionGoesOn, StaysAhead, AheadGoesOn};

/// An entry about one end leaves every other end standing.
pub fn concerned_passes()
    ensures { ConcernedPasses }
{}

/// An entry of no end leaves each end standing.
pub fn nought_passes()
    ensures { NoughtPasses }
{}

/// A tick leaves each receiving end standing, and is nothing to an end that isn't here.
pub fn tick_passes()
    ensures { TickPasses }
{}

/// An entry about an end that is here has the points of a hub, if each end keeps its own.
pub fn concerned_point()
    ensures { ConcernedPoint }
{}

/// An entry of no end has the points of a hub.
pub fn nought_point()
    ensures { NoughtPoint }
{}

/// A tick has the points of a hub.
pub fn tick_point()
    ensures { TickPoint }
{}

/// The law of a hub goes on with an entry that has its points.
pub fn law_goes_on()
    ensures { LawGoesOn }
{}

/// The law of emission goes on with an entry at which each end keeps its points.
pub fn emission_goes_on()
    ensures { EmissionGoesOn }
{}

/// An entry that neither begins nor leaves a query leaves the same queries live, with the same ends.
pub fn lives_on()
    ensures { OthersLiveOn }
{}

/// A query that begins is live with its ends, and the others are as before.
pub fn lives_from()
    ensures { BegunIsLive }
{}

/// A query that is left isn't live, and the others are as before.
pub fn lives_until()
    ensures { LeftIsNotLive }
{}

/// A live query has one list of ends.
pub fn live_once()
    ensures { LiveOnce }
{}

/// Of an end whose query isn't live nothing comes with one more entry.
pub fn stays_ahead()
    ensures { StaysAhead }
{}

/// Of the ends whose queries were never begun, nothing was.
pub fn ahead_goes_on()
    ensures { AheadGoesOn }
{}

/// An empty history has all that a hub keeps of it.
pub fn goes_first()
    ensures { GoesFirst }
{}

/// All that a hub keeps of its history goes on with an entry at which each end keeps its points.
pub fn goes_on()
    ensures { GoesOn }
{}

/// An entry that serves no sender of a motion leaves the one served last.
pub fn served_before()
    ensures { ServedBefore }
{}

/// An entry that serves a sender has served it last.
pub fn served_now()
    ensures { ServedNow }
{}

/// Of a query that was never begun no sender was served.
pub fn served_nobody()
    ensures { ServedNobody }
{}

/// An answer of a receiving end is of its connection, and has the form of what a hub may emit.
pub fn answers_formed()
    ensures { AnswersAreFormed }
{}

/// So has what is turned back to a datagram of no connection that isn't foreign.
pub fn turned_formed()
    ensures { TurnedIsFormed }
{}

/// The ends of a live query are such as may begin here, and of their query they alone are here.
pub fn live_are_there()
    ensures { LiveAreThere }
{}

/// A query is old exactly up to the greatest that was left.
pub fn old_upto()
    ensures { OldUpto }
{}

/// With one more query left, the greatest that was left is the greater.
pub fn left_tops()
    ensures { LeftTops }
{}

/// The clock stands still with an entry that isn't a tick, and goes on with a tick.
pub fn clock_moves()
    ensures { ClockMoves }
{}

/// If no packet and no status query of these ends is given up, nothing is.
pub fn nothing_spent()
    ensures { NothingSpent }
{}

/// What a query gives up first is the first packet of the first end with one.
pub fn packet_spent_first()
    ensures { PacketSpentFirst }
{}

/// If none has one, it is the status query of the first end with one.
pub fn query_spent_first()
    ensures { QuerySpentFirst }
{}

/// A datagram to this segment, on a connection that has an end here, has the end that it is for.
pub fn side_is_here()
    ensures { SideIsHere }
{}
