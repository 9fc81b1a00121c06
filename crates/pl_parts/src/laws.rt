// The law of parts, carried by functions that have nothing to run.
ghost use Rattle.pl_parts.specs.Law.{PartsAreTheMeaning, RootPartIsTheMeaning};

/// Does nothing. Its clause: at each node of a sound plan over loaded tables the parts keep the node's locus; and if the
/// node is neither a partial nor a motion over one, they are its meaning.
pub fn parts_are_the_meaning()
    ensures { PartsAreTheMeaning }
{}

/// Does nothing. Its clause: the root's part at the dispatcher is the meaning of the plan.
pub fn the_root_part_is_the_meaning()
    ensures { RootPartIsTheMeaning }
{}
