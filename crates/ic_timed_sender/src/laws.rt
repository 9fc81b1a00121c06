// Laws of sending connections with their clocks, each carried by a function that has nothing to run.
ghost use Rattle.ic_timed_sender.specs.Laws.{OthersPass, KeepsLaw, StaysArmed, AreFormed};

/// What doesn't concern a connection leaves it standing.
pub fn others_pass()
    ensures { OthersPass }
{}

/// Each entry of a history for which a connection stands keeps the points of its end: what is emitted, which packets are
/// what was put, and what is refused.
pub fn keeps_law()
    ensures { KeepsLaw }
{}

/// Each packet on its way is due soon; if none is and a packet is unsent, a status query is.
pub fn stays_armed()
    ensures { StaysArmed }
{}

/// The datagrams of an end have the form of what a hub at its place may emit.
pub fn are_formed()
    ensures { AreFormed }
{}
