// The connections of one live query.
use ic_base::SegId;
use ic_conntab::Places;
use ic_receiver::Receiver;
use ic_timed_sender::TimedSender;
use std::marker::Model;

/// The connections that a live query has at this segment.
#[derive(Drop)]
pub(crate) struct Query {
    pub(crate) number: u32,
    /// Its ends, and the places of their connections below.
    pub(crate) places: Places,
    /// The connections of the sending ends, in their order.
    pub(crate) senders: Vec<TimedSender>,
    /// The connections of the receiving ends, in their order.
    pub(crate) receivers: Vec<Receiver>,
    /// For each motion that ends here, the sender that a take of any served last.
    pub(crate) served: Vec<Option<SegId>>,
}

impl Model for Query {
    ghost use Rattle.ic_hub.specs.Hubbing.{Living, IsLiving};

    ghost Value = { Living };

    ghost view = { λ q. record {
      number = q.number;
      ends = q.places;
      senders = q.senders.items;
      receivers = q.receivers.items;
      served = q.served.items;
    } };

    ghost invariant = { λ q. IsLiving (record {
      number = q.number;
      ends = q.places;
      senders = q.senders.items;
      receivers = q.receivers.items;
      served = q.served.items;
    }) };
}
