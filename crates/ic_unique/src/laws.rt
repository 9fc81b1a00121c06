// The laws on replies, each carried by a function that has nothing to run.
ghost use Rattle.ic_unique.specs.Unique.{OneHistory, OneReply};

/// Does nothing. Its clause: two replies to one ask that keep the law of hubs and the law of emission after one
/// history, and neither of which is Memory, are the same reply.
pub fn one_reply()
    ensures { OneReply }
{}

/// Does nothing. Its clause: two histories with the same asks that keep both laws, and in which no reply is Memory, are
/// the same history.
pub fn one_history()
    ensures { OneHistory }
{}
