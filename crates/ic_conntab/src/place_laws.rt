// Laws of places. Each is the contract of a function with an empty body.
ghost use Rattle.ic_conntab.specs.PlaceLaws.{EndsHaveTheirSides, KeysAreOfEnds, KeysDiffer, SidesAreFound, MotionsAreReceived, MotionsDiffer, ReceiversHaveTheMotion, ReceiversRise, SlotsAreTheirEnds, SlotsComeOnce};

/// Each end is among those of its own side, and not among those of the other.
pub fn ends_have_their_sides()
    ensures { EndsHaveTheirSides }
{}

/// The keys are those of the ends, each once.
pub fn keys_are_of_ends()
    ensures has { KeysAreOfEnds }
    ensures distinct { KeysDiffer }
{}

/// The end at a key's position has that key. A key has no position exactly if no end of the side has it.
pub fn sides_are_found()
    ensures { SidesAreFound }
{}

/// The motions are those of the receiving ends, each once.
pub fn motions_are_received()
    ensures has { MotionsAreReceived }
    ensures distinct { MotionsDiffer }
{}

/// The receivers of a motion are the positions of the receiving ends that have it, in rising order.
pub fn receivers_have_the_motion()
    ensures has { ReceiversHaveTheMotion }
    ensures rise { ReceiversRise }
{}

/// Walking the slots in order meets each end once, in the order of the ends.
pub fn slots_are_their_ends()
    ensures ends { SlotsAreTheirEnds }
    ensures once { SlotsComeOnce }
{}
