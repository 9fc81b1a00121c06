// Laws of sending connections, each carried by a function that has nothing to run.
ghost use Rattle.std.specs.Prelude.{◌≡◌};
ghost use Rattle.ic_sender.specs.Laws.{NewStands, TicksStand, OthersPass, OthersWait, KeepsLaw, StaysArmed, OverTells};

/// A connection of which nothing was put stands for each history in which nothing of it is.
pub fn new_stands()
    ensures { NewStands }
{}

/// A tick, of which the four calls are one entry, leaves a connection standing.
pub fn ticks_stand()
    ensures { TicksStand }
{}

/// What doesn't concern a connection leaves it standing.
pub fn others_pass()
    ensures { OthersPass }
{}

/// What waits for other connections leaves it standing.
pub fn others_wait()
    ensures { OthersWait }
{}

/// Each entry of a history for which a connection stands keeps the points of its end: what is emitted, which packets are
/// what was put, and what is refused.
pub fn keeps_law()
    ensures { KeepsLaw }
{}

/// Each packet on its way is due soon; if none is and a packet is unsent, a status query is.
pub fn stays_armed()
    ensures { StaysArmed }
{}

/// A connection is over exactly if its history says so.
pub fn over_tells()
    ensures { OverTells }
{}
