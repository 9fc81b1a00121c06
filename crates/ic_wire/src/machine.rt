// A network as a machine.
ghost use Rattle.std.specs.Prelude.{◌≡◌, [], ◌∷◌};
ghost use Rattle.ic_turn.specs.Entries.{StandsWith};
ghost use Rattle.ic_wire.specs.Law.{reply_of, MayReply, setting_of, StandsFor};

use crate::fate::Fate;
use crate::received::Received;
use crate::wire::Wire;
use ic_base::{Datagram, SegId, Segs};
use ic_turn::Machine;
use std::alloc::Global;

/// What a network keeps for good: its fate, and the segments between which it is.
#[derive(Drop)]
pub struct Setting {
    pub fate: Fate,
    pub nodes: Segs,
}

/// What a network is asked.
#[derive(Drop)]
pub enum WireAsk {
    /// To carry a datagram.
    Send(Datagram),
    /// What came for this node.
    Receive(SegId),
}

/// What a network replies.
#[derive(Drop)]
pub enum WireReply {
    /// To a send: it has its number. It may be lost.
    Taken,
    /// To a receive: the datagram with the least key. The node has it in hand until its next receive.
    Came(Datagram),
    /// To a receive: nothing is kept for this node, but something is under way.
    Idle,
    /// To a receive: nothing is kept for any node, and no other node has a datagram in hand.
    Quiet,
    /// To a send: no memory was left. It has no number, and the datagram is dropped.
    Memory,
}

fn reply_of(received: Received) -> WireReply
    ensures { result ≡ reply_of received }
{
    match received {
        Received::Came(datagram) => WireReply::Came(datagram),
        Received::Idle => WireReply::Idle,
        Received::Quiet => WireReply::Quiet,
    }
}

impl Machine for Wire {
    type Ask = WireAsk;

    type Reply = WireReply;

    type Kept = Setting;

    type State = Wire;

    ghost use Rattle.ic_wire.specs.Law.{setting_of, MayReply, IsWireLawful, StandsFor};

    ghost kept = { λ w. setting_of w };

    ghost state = { λ w. w };

    ghost answers = { λ kept ask reply. MayReply ask reply };

    ghost lawful = { λ kept entries. IsWireLawful kept entries };

    ghost stands = { λ kept w entries. StandsFor kept w entries };

    ghost stands_lawful = { λ kept w entries h. h.lawful };

    fn act(&mut self, _alloc: Global, ask: WireAsk) -> WireReply
        ensures kept { setting_of self.new ≡ setting_of self.old }
        ensures answers { MayReply ask result }
        ensures stands { StandsWith (StandsFor (setting_of self.old) self.old) (StandsFor (setting_of self.new) self.new) (record { ask = ask; reply = result } ∷ []) }
    {
        match ask {
            WireAsk::Send(datagram) => match self.send(datagram) {
                Ok(()) => WireReply::Taken,
                Err(_) => WireReply::Memory,
            },
            WireAsk::Receive(at) => reply_of(self.receive(at)),
        }
    }
}
