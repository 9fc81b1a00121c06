// How a worker of one slice calls the hub of its segment.
ghost use Rattle.std.specs.Prelude.{◌≡◌, ℕ, List, [], ◌∷◌, ◌++◌, IfOk, IfErr, OnOk, OnErr};
ghost use Rattle.ic_base.specs.declared.keys.ConnEnd.{ConnEnd};
ghost use Rattle.ic_base.specs.declared.port.PortNo.TheVariants.{Memory};
ghost use Rattle.ic_base.specs.declared.port.PortAsk.TheVariants.{Put, Finish, Take, TakeFrom, Halt};
ghost use Rattle.ic_base.specs.declared.port.PortEntry.{PortEntry};
ghost use Rattle.ic_base.specs.Ports.{SendsTo, HearsFrom, Hears, did, gave, logged, CountsBusy, MayRefusePut, MayRefuseTake, MayRefuseHalt};

use crate::bytes::Bytes;
use crate::datagram::Parcel;
use crate::keys::{ConnKey, SegId};
use std::alloc::{AllocError, Global};
use std::marker::Model;

/// Why a worker's call is refused. Each variant says whose doing it is.
#[derive(Clone, Copy, Debug, PartialEq, Eq)]
pub enum PortNo {
    /// The peer or the network: the sender has no room for another unacknowledged packet. Ask again later.
    Full,
    /// The peer or the network: the next packet hasn't come. Ask again later.
    Empty,
    /// The peer: the receiver wants no more.
    Stopped,
    /// The peer, or the worker itself by a halt: there is nothing more to take.
    Ended,
    /// The worker: it put so much on this connection that the packet numbers are used up.
    TooLong(ConnKey),
    /// Another worker: the hub is serving it just now. The call did nothing. Ask again later.
    Busy,
    /// Nobody: out of memory. The call did nothing.
    Memory,
}

impl From<AllocError> for PortNo {
    ghost from_gives = { λ _ e. e ≡ Memory };

    fn from(_e: AllocError) -> PortNo {
        PortNo::Memory
    }
}

/// One call of a worker. Each names a connection by its motion and the segment at its other end.
#[derive(Drop)]
pub enum PortAsk {
    /// Put a tuple chunk on the connection.
    Put {
        motion: u32,
        to: SegId,
        chunk: Bytes,
    },
    /// Put the end of stream on the connection.
    Finish {
        motion: u32,
        to: SegId,
    },
    /// Take the next parcel from any sender of the motion.
    Take {
        motion: u32,
    },
    /// Take the next parcel from one sender.
    TakeFrom {
        motion: u32,
        sender: SegId,
    },
    /// Want no more from one sender.
    Halt {
        motion: u32,
        sender: SegId,
    },
}

/// The answer to a call.
#[derive(Drop)]
pub enum PortReply {
    /// A put, a finish or a halt was done.
    Did,
    /// A take got this parcel.
    Gave(Parcel),
    Refused(PortNo),
}

/// One call with its reply.
#[derive(Drop)]
pub struct PortEntry {
    pub ask: PortAsk,
    pub reply: PortReply,
}

/// The calls of one worker with their replies, oldest first, seen as a list.
#[derive(Drop)]
pub struct PortEntries {
    items: Vec<PortEntry>,
}

impl Model for PortEntries {
    ghost use Rattle.std.specs.Prelude.{List};
    ghost use Rattle.ic_base.specs.declared.port.PortEntry.{PortEntry};

    ghost Value = { List PortEntry };

    ghost view = { λ e. e.items.items };
}

impl PortEntries {
    /// No entries. Takes no memory.
    pub fn new(alloc: Global) -> PortEntries
        ensures { result ≡ [] }
    {
        PortEntries {
            items: Vec::new(alloc),
        }
    }

    /// Takes no memory, and moves no entry.
    pub fn from_vec(items: Vec<PortEntry>) -> PortEntries
        ensures { result ≡ items.items }
    {
        PortEntries { items }
    }

    /// Takes no memory, and moves no entry.
    pub fn into_vec(self) -> Vec<PortEntry>
        ensures { result.items ≡ self }
    {
        self.items
    }

    pub fn as_slice(&self) -> &[PortEntry]
        ensures { result.now ≡ self.now }
    {
        self.items.as_slice()
    }

    /// Adds an entry at the end. Fails only if out of memory; then the entry is dropped.
    pub fn push(&mut self, entry: PortEntry) -> Result<(), AllocError>
        ensures ok { OnOk result (self.new ≡ self.old ++ entry ∷ []) }
        ensures err { OnErr result (self.new ≡ self.old) }
    {
        self.items.push(entry)?;
        Ok(())
    }
}

/// What a worker of one slice asks of its hub. It names connections by motion and segment alone; its own segment, its
/// session and its query belong to the port.
///
/// `put` and `finish` send. `take`, `take_from` and `halt` receive. No call waits: if the answer is `Full`, `Empty` or
/// `Busy`, the worker does something else and asks again. A hub takes less than the conditions here allow: one tuple
/// chunk that fits in a packet, and nothing after the end of stream. It may answer anything else with `Memory`.
pub trait Port {
    /// The ends of this worker's slice at this segment. They never change.
    ghost keys: { Self → List ConnEnd };

    /// The worker's calls with their replies, without those answered `Busy` or `Memory`.
    ghost log: { Self → List PortEntry };

    /// A count that each answer `Busy` raises. It never falls, and stays at the greatest number of its type.
    ghost busy: { Self → ℕ };

    /// What one call may do to the port beyond what the other ghost values say. A caller that lends its own port to
    /// code over any port learns from this what the code did to the rest.
    ghost steps: { Self → Self → Type 0 };

    /// Puts a tuple chunk on the connection of this motion to this segment.
    fn put(&mut self, alloc: Global, motion: u32, to: SegId, chunk: &[u8]) -> Result<(), PortNo>
        requires { SendsTo (keys self.old) motion to }
        ensures keys { keys self.new ≡ keys self.old }
        ensures steps { steps self.old self.new }
        ensures log { log self.new ≡ logged (Put motion to chunk.now) (did result) (log self.old) }
        ensures busy { CountsBusy (busy self.old) (busy self.new) (did result) }
        ensures refusals { IfErr result (MayRefusePut (keys self.old) motion to) };

    /// Puts the end of stream on the connection of this motion to this segment.
    fn finish(&mut self, alloc: Global, motion: u32, to: SegId) -> Result<(), PortNo>
        requires { SendsTo (keys self.old) motion to }
        ensures keys { keys self.new ≡ keys self.old }
        ensures steps { steps self.old self.new }
        ensures log { log self.new ≡ logged (Finish motion to) (did result) (log self.old) }
        ensures busy { CountsBusy (busy self.old) (busy self.new) (did result) }
        ensures refusals { IfErr result (MayRefusePut (keys self.old) motion to) };

    /// Takes the next parcel from any sender of this motion.
    fn take(&mut self, alloc: Global, motion: u32) -> Result<Parcel, PortNo>
        requires { Hears (keys self.old) motion }
        ensures keys { keys self.new ≡ keys self.old }
        ensures steps { steps self.old self.new }
        ensures log { log self.new ≡ logged (Take motion) (gave result) (log self.old) }
        ensures busy { CountsBusy (busy self.old) (busy self.new) (gave result) }
        ensures refusals { IfErr result MayRefuseTake }
        ensures from { IfOk result (λ parcel. HearsFrom (keys self.old) motion parcel.from) };

    /// Takes the next parcel from this sender.
    fn take_from(&mut self, alloc: Global, motion: u32, sender: SegId) -> Result<Parcel, PortNo>
        requires { HearsFrom (keys self.old) motion sender }
        ensures keys { keys self.new ≡ keys self.old }
        ensures steps { steps self.old self.new }
        ensures log { log self.new ≡ logged (TakeFrom motion sender) (gave result) (log self.old) }
        ensures busy { CountsBusy (busy self.old) (busy self.new) (gave result) }
        ensures refusals { IfErr result MayRefuseTake }
        ensures from { IfOk result (λ parcel. parcel.from ≡ sender) };

    /// Says that no more from this sender is wanted.
    fn halt(&mut self, alloc: Global, motion: u32, sender: SegId) -> Result<(), PortNo>
        requires { HearsFrom (keys self.old) motion sender }
        ensures keys { keys self.new ≡ keys self.old }
        ensures steps { steps self.old self.new }
        ensures log { log self.new ≡ logged (Halt motion sender) (did result) (log self.old) }
        ensures busy { CountsBusy (busy self.old) (busy self.new) (did result) }
        ensures refusals { IfErr result MayRefuseHalt };
}
