// Chunks and the end of stream, put by the slice that sends.
ghost use Rattle.std.specs.Prelude.{◌≡◌, ◌+◌, ◌<◌, ◌≤◌, ◌++◌, [], ◌∷◌, length, List, OnErr};
ghost use Rattle.ic_law.specs.declared.history.Entry.{Entry};
ghost use Rattle.ic_law.specs.Asking.{IsPuttable};
ghost use Rattle.ic_sender.specs.Entries.{IsPutting, IsFinishing};
ghost use Rattle.ic_hub.specs.Hubbing.{place_in};
ghost use Rattle.ic_hub.specs.Entries.{put_entry, finish_entry};
ghost use Rattle.ic_hub.specs.Standing.{Stands};
ghost use Rattle.ic_hub.specs.Calls.{SamePlace, FitsAll, PutsOn};

use crate::hub::Hub;
use crate::puttable::is_puttable;
use crate::query::Query;
use crate::refusals::put_answer;
use ic_base::{ConnKey, Datagrams};
use ic_law::HubNo;
use std::alloc::Global;

impl Query {
    /// Puts a chunk on the sender at this place. After the end of stream nothing is put, and the answer is `Memory`.
    fn put(&mut self, alloc: Global, place: usize, chunk: &[u8]) -> Result<Datagrams, HubNo>
        requires here { place < length self.old.senders }
        requires least { 4 ≤ length chunk.now }
        requires most { FitsAll self.old (length chunk.now) }
        ensures { PutsOn place (λ c answer e. IsPutting c chunk.now answer e) self.old self.new result }
    {
        if self.senders[place].is_finished() {
            return Err(HubNo::Memory);
        }
        put_answer(self.senders[place].put(alloc, chunk))
    }

    /// Puts the end of stream on the sender at this place, once.
    fn finish(&mut self, alloc: Global, place: usize) -> Result<Datagrams, HubNo>
        requires here { place < length self.old.senders }
        ensures { PutsOn place (λ c answer e. IsFinishing c answer e) self.old self.new result }
    {
        if self.senders[place].is_finished() {
            return Err(HubNo::Memory);
        }
        put_answer(self.senders[place].finish(alloc))
    }
}

impl Hub {
    /// A chunk that can be put.
    fn put_chunk(&mut self, alloc: Global, key: &ConnKey, chunk: &[u8]) -> Result<Datagrams, HubNo>
        requires chunk { IsPuttable (place_in self.old) chunk.now }
        ensures err { OnErr result (self.new ≡ self.old) }
        ensures place { SamePlace self.old self.new }
        ensures count { self.new.dropped ≡ self.old.dropped }
        ensures stands { (h : List Entry) → Stands self.old h → Stands self.new (h ++ put_entry key.now chunk.now result ∷ []) }
    {
        let Some((query, place)) = self.sender_of(key) else {
            return Err(HubNo::Unknown {
                query: key.query,
                motion: key.motion,
            });
        };
        self.live[query].put(alloc, place, chunk)
    }

    /// The slice puts a tuple chunk on a connection that it sends on. Gives the packets that are emitted: the chunk is
    /// copied into the packet that is being filled; a packet is copied once when it is sealed, and once into its datagram
    /// when it first goes out. What is no tuple chunk, or longer than a packet has room for, and a chunk after the end of
    /// stream are answered `Memory`: [`is_puttable`](crate::is_puttable) tells the first two.
    pub fn put(&mut self, alloc: Global, key: &ConnKey, chunk: &[u8]) -> Result<Datagrams, HubNo>
        ensures err { OnErr result (self.new ≡ self.old) }
        ensures place { SamePlace self.old self.new }
        ensures count { self.new.dropped ≡ self.old.dropped }
        ensures stands { (h : List Entry) → Stands self.old h → Stands self.new (h ++ put_entry key.now chunk.now result ∷ []) }
    {
        if !is_puttable(&self.settings, chunk) {
            return Err(HubNo::Memory);
        }
        self.put_chunk(alloc, key, chunk)
    }

    /// The slice puts the end of stream. Gives the packets that are emitted: the last one is copied once when it is
    /// sealed, and each that first goes out once into its datagram. A second end is answered `Memory`.
    pub fn finish(&mut self, alloc: Global, key: &ConnKey) -> Result<Datagrams, HubNo>
        ensures err { OnErr result (self.new ≡ self.old) }
        ensures place { SamePlace self.old self.new }
        ensures count { self.new.dropped ≡ self.old.dropped }
        ensures stands { (h : List Entry) → Stands self.old h → Stands self.new (h ++ finish_entry key.now result ∷ []) }
    {
        let Some((query, place)) = self.sender_of(key) else {
            return Err(HubNo::Unknown {
                query: key.query,
                motion: key.motion,
            });
        };
        self.live[query].finish(alloc, place)
    }
}
