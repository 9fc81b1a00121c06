// Laws of logs. Each is the contract of a function with an empty body.
ghost use Rattle.gd_work.specs.Laws.{PutsAll, LetsOutAll};

/// If a scanner finished its stream, the chunks that it put assemble to its rows.
pub fn puts_all()
    ensures { PutsAll }
{}

/// If the payloads of each sender assemble to rows, then the rows let out are those of all senders, in some order.
pub fn lets_out_all()
    ensures { LetsOutAll }
{}
