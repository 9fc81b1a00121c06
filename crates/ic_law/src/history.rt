// Calls of a hub (asks) with their replies, and lists of both.
ghost use Rattle.std.specs.Prelude.{◌≡◌, ℕ, List, [], ◌∷◌, ◌++◌, length, replicate, OnOk, OnErr, IfOk, ◌<◌};
ghost use Rattle.ic_law.specs.History.{noted, datagrams_of};

use ic_base::{BeginNo, Bytes, ConnEnds, ConnKey, Datagram, Datagrams, Parcel};
use ic_header::HeaderFault;
use std::alloc::{AllocError, Global};
use std::marker::Model;

/// A call of the hub of a segment.
#[derive(Drop)]
pub enum HubAsk {
    /// A query begins. `ends` are the ends that its connections have at this segment.
    Begin { query: u32, ends: ConnEnds },
    /// The slice puts a tuple chunk on a connection on which it sends.
    Put { key: ConnKey, chunk: Bytes },
    /// The slice puts the end of stream on a connection.
    Finish { key: ConnKey },
    /// The slice takes the next parcel from any sender of a motion.
    Take { query: u32, motion: u32 },
    /// The slice takes the next parcel from one sender.
    TakeFrom { key: ConnKey },
    /// The slice wants no more from one sender.
    Halt { key: ConnKey },
    /// The network delivers a datagram.
    Arrive { datagram: Datagram },
    /// The clock advances by one tick.
    Tick,
    /// Asks whether the query could be left now.
    Clear { query: u32 },
    /// The query ends at this segment.
    Leave { query: u32 },
}

/// Why a call of a slice is refused. Each variant says whose doing it is.
#[derive(Clone, Copy, Debug, PartialEq, Eq)]
pub enum HubNo {
    /// The peer or the network: the sender has no room for another unacknowledged packet.
    Full,
    /// The peer or the network: the next packet hasn't come.
    Empty,
    /// The peer: the receiver asked for a stop.
    Stopped,
    /// The peer, or the slice itself by a halt: there is nothing more to take.
    Ended,
    /// The slice: it put so much on this connection that the packet numbers are used up.
    TooLong(ConnKey),
    /// The slice: no live query of this hub has such a connection, or such a motion, with this side.
    Unknown { query: u32, motion: u32 },
    Memory,
}

/// Why a datagram that came is dropped.
#[derive(Clone, Copy, Debug, PartialEq, Eq)]
pub enum DropCause {
    /// The peer or the network: its bytes are no packet.
    Header(HeaderFault),
    /// A stranger, or a misrouted datagram: it is on no connection of this hub.
    Foreign,
    /// The network: an answer to a query that isn't live.
    Late,
    /// The peer: a packet of rows beyond the room of its receiver, or longer than the settings allow.
    Beyond,
    /// The peer: an answer to what wasn't emitted, or one that contradicts itself.
    Stray,
}

/// What happened to a datagram that came.
#[derive(Clone, Copy, Debug, PartialEq, Eq)]
pub enum Arrived {
    Handled,
    Dropped(DropCause),
}

/// Why a tick is refused. The clock stays.
#[derive(Clone, Copy, Debug, PartialEq, Eq)]
pub enum TickNo {
    /// The peer or the network: this packet was resent `tries` times without an answer, or the status query after it
    /// was.
    Spent { key: ConnKey, seq: u32, tries: u32 },
    Memory,
}

/// A query can't be left. Holds its first connection that isn't over.
#[derive(Clone, Copy, Debug, PartialEq, Eq)]
pub struct Unclear(pub ConnKey);

/// Why a query isn't left. Either is the caller's doing.
#[derive(Clone, Copy, Debug, PartialEq, Eq)]
pub enum LeaveNo {
    NotLive,
    /// Holds the query's first connection that isn't over.
    Unclear(ConnKey),
}

/// A hub's reply. If a call runs out of memory, the reply is `Memory`, and never a `Memory` inside another variant.
#[derive(Drop)]
pub enum HubReply {
    /// To a `Begin`.
    Begun(Result<(), BeginNo>),
    /// To a `Put`, a `Finish` or a `Halt`: the datagrams that the hub emits.
    Gave(Result<Datagrams, HubNo>),
    /// To a `Take` or a `TakeFrom`.
    Took(Result<(Parcel, Datagrams), HubNo>),
    /// To an `Arrive`.
    Came(Arrived, Datagrams),
    /// To a `Tick`.
    Ticked(Result<Datagrams, TickNo>),
    /// To a `Clear`.
    Cleared(Result<(), Unclear>),
    /// To a `Leave`.
    Left(Result<(), LeaveNo>),
    /// To any ask.
    Memory,
}

impl HubReply {
    /// The datagrams that the hub emits with this reply.
    pub fn datagrams(&self) -> &[Datagram]
        ensures { result.now ≡ datagrams_of self.now }
    {
        match self {
            HubReply::Gave(Ok(datagrams))
            | HubReply::Took(Ok((_, datagrams)))
            | HubReply::Came(_, datagrams)
            | HubReply::Ticked(Ok(datagrams)) => datagrams.as_slice(),
            _ => &[],
        }
    }
}

/// One call with its reply.
#[derive(Drop)]
pub struct Entry {
    pub ask: HubAsk,
    pub reply: HubReply,
}

/// The entries of one segment's hub, oldest first, seen as a list.
#[derive(Drop)]
pub struct History {
    entries: Vec<Entry>,
}

impl Model for History {
    ghost use Rattle.std.specs.Prelude.{List};
    ghost use Rattle.ic_law.specs.declared.history.Entry.{Entry};

    ghost Value = { List Entry };

    ghost view = { λ h. h.entries.items };
}

impl History {
    /// No entries. Takes no memory.
    pub fn new(alloc: Global) -> History
        ensures { result ≡ [] }
    {
        History {
            entries: Vec::new(alloc),
        }
    }

    /// Takes no memory.
    pub fn from_vec(entries: Vec<Entry>) -> History
        ensures { result ≡ entries.items }
    {
        History { entries }
    }

    pub fn as_slice(&self) -> &[Entry]
        ensures { result.now ≡ self.now }
    {
        self.entries.as_slice()
    }

    /// Adds an entry at the end. Fails only if out of memory; then the entry is dropped.
    pub fn push(&mut self, entry: Entry) -> Result<(), AllocError>
        ensures ok { OnOk result (self.new ≡ self.old ++ entry ∷ []) }
        ensures err { OnErr result (self.new ≡ self.old) }
    {
        self.entries.push(entry)?;
        Ok(())
    }
}

/// One history for each node: the dispatcher's first, then segment 0's and so on. Seen as a list.
#[derive(Drop)]
pub struct Histories {
    nodes: Vec<History>,
}

impl Model for Histories {
    ghost use Rattle.std.specs.Prelude.{List};
    ghost use Rattle.ic_law.specs.declared.history.Entry.{Entry};

    ghost Value = { List (List Entry) };

    ghost view = { λ h. h.nodes.items };
}

impl Histories {
    /// Empty histories of this many nodes.
    pub fn new(alloc: Global, nodes: usize) -> Result<Histories, AllocError>
        ensures { IfOk result (λ h. h ≡ replicate nodes []) }
    {
        let mut histories = Histories {
            nodes: Vec::new(alloc),
        };
        for _ in 0..nodes {
            histories.nodes.push(History::new(alloc))?;
        }
        Ok(histories)
    }

    /// Takes no memory.
    pub fn from_vec(nodes: Vec<History>) -> Histories
        ensures { result ≡ nodes.items }
    {
        Histories { nodes }
    }

    pub fn as_slice(&self) -> &[History]
        ensures { result.now ≡ self.now }
    {
        self.nodes.as_slice()
    }

    /// Adds an entry at the end of one node's history. The dispatcher is node 0, segment 0 is node 1, and so on. Fails
    /// only if out of memory; then the entry is dropped.
    pub fn note(&mut self, node: usize, ask: HubAsk, reply: HubReply) -> Result<(), AllocError>
        requires { node < length self.old }
        ensures ok { OnOk result (self.new ≡ noted self.old node (record { ask = ask; reply = reply })) }
        ensures err { OnErr result (self.new ≡ self.old) }
    {
        self.nodes[node].push(Entry { ask, reply })
    }
}
