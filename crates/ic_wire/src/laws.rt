// Laws of every list of calls of a network.
ghost use Rattle.ic_wire.specs.Laws.{KeepsWhatWasSent, KeepsInOrder};

/// What a network keeps for a node was sent to it, under the number that the copy has.
pub fn keeps_what_was_sent()
    ensures { KeepsWhatWasSent }
{}

/// What a network keeps for a node is in the order of keys, so a receive gives the copy with the least key.
pub fn keeps_in_order()
    ensures { KeepsInOrder }
{}
