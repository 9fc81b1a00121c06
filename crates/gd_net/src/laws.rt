// Laws of every list of calls. Each is the contract of a function with an empty body.
ghost use Rattle.gd_net.specs.Laws.{ComesInOrder, WasSent, WithoutLoss, CountsSends};

/// The datagrams that came to a node, and then those kept for it, are the ones sent to it that weren't lost, each once
/// and in order.
pub fn comes_in_order()
    ensures { ComesInOrder }
{}

/// Whatever came to a node was sent to it, and whatever is kept was sent.
pub fn was_sent()
    ensures { WasSent }
{}

/// If no send was lost, each datagram sent to a node came or is kept.
pub fn without_loss()
    ensures { WithoutLoss }
{}

/// The count is the number of sends.
pub fn counts_sends()
    ensures { CountsSends }
{}
