// Worked histories, each carried by a function that has nothing to run.
ghost use Rattle.ic_unique.specs.Worked.{Forces, asked, both_due, disordered, here, resent, roomy, stopped, tight};

/// Does nothing. Its clause: a packet that stays without an answer goes out again after four ticks, and the answer to
/// it frees it. The asks leave no other history.
pub fn a_loss_is_resent()
    ensures { Forces (here roomy) resent }
{}

/// Does nothing. Its clause: what a Disorder lists goes out again at once, in its order.
pub fn a_disorder_is_answered()
    ensures { Forces (here roomy) disordered }
{}

/// Does nothing. Its clause: after a Stop nothing is put, and nothing goes out again.
pub fn a_stop_ends_it()
    ensures { Forces (here roomy) stopped }
{}

/// Does nothing. Its clause: two connections that are due at one tick are served in the order of their query's list.
pub fn two_connections_are_due()
    ensures { Forces (here roomy) both_due }
{}

/// Does nothing. Its clause: if a packet and the status query of one connection are due at one tick, the packet goes
/// first.
pub fn a_query_is_due_too()
    ensures { Forces (here tight) asked }
{}
