// Laws of slices, each carried by a function that has nothing to run.
ghost use Rattle.ex_plan.specs.Spots.{TopsAreNumbered};
ghost use Rattle.ex_plan.specs.Sending.{RootSendsNothing};

/// Does nothing. Its clause: the number that a slice's top node has is its number in preorder.
pub fn tops_are_numbered()
    ensures { TopsAreNumbered }
{}

/// Does nothing. Its clause: a worker of slice 0 has no connection that sends.
pub fn slice_0_sends_nothing()
    ensures { RootSendsNothing }
{}
