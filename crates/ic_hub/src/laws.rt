// Laws of hubs, each carried by a function that has nothing to run.
ghost use Rattle.ic_hub.specs.Laws.{KeepsLaw, StaysArmed, LiveTells, EndsTell};

/// Each history for which a hub stands keeps the law of hubs and the law of emission.
pub fn keeps_law()
    ensures { KeepsLaw }
{}

/// Each packet on its way is due soon; if none is and a packet is unsent, a status query is, on each connection
/// that is sent on here.
pub fn stays_armed()
    ensures { StaysArmed }
{}

/// A query is live in a hub exactly if it is in the history.
pub fn live_tells()
    ensures { LiveTells }
{}

/// A query is live with these ends in a hub exactly if it is in the history.
pub fn ends_tell()
    ensures { EndsTell }
{}
