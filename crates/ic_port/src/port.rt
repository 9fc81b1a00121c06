// What a worker asks of the node.
ghost use Rattle.std.specs.Prelude.{◌≡◌, IfOk, IfErr};
ghost use Rattle.ic_base.specs.declared.port.PortAsk.TheVariants.{Put, Finish, Take, TakeFrom, Halt};
ghost use Rattle.ic_base.specs.Ports.{did, gave, logged, SendsTo, Hears, HearsFrom, MayRefusePut, MayRefuseTake, MayRefuseHalt, CountsBusy};
ghost use Rattle.ic_law.specs.Logs.{log_of};
ghost use Rattle.ic_port.specs.Calls.{Works};

use crate::node::Node;
use crate::telling::{told_halt, told_put, told_taken};
use ic_base::{Bytes, ConnKey, Parcel, Port, PortNo, SegId};
use ic_hub::note;
use ic_hub::replies::{gave, took};
use ic_law::HubAsk;
use std::alloc::Global;

impl Node {
    /// The connection of its query's motion to this segment.
    fn key_to(&self, motion: u32, to: SegId) -> ConnKey
        ensures { result ≡ record { session = self.now.hub.session; query = self.now.query; motion = motion; from = self.now.hub.at; to = to } }
    {
        ConnKey {
            session: self.hub.session(),
            query: self.query,
            motion,
            from: self.hub.at(),
            to,
        }
    }

    /// The connection of its query's motion from this segment.
    fn key_from(&self, motion: u32, from: SegId) -> ConnKey
        ensures { result ≡ record { session = self.now.hub.session; query = self.now.query; motion = motion; from = from; to = self.now.hub.at } }
    {
        ConnKey {
            session: self.hub.session(),
            query: self.query,
            motion,
            from,
            to: self.hub.at(),
        }
    }
}

/// The port of the worker of its query. It never answers `Busy`. What a hub never answers to an end that is there, and a
/// chunk that can't be put, is answered `Memory`.
impl Port for Node {
    ghost keys = { λ n. n.ends };

    ghost log = { λ n. log_of n.query n.entries };

    ghost busy = { λ n. 0 };

    ghost steps = { Works };

    fn put(&mut self, alloc: Global, motion: u32, to: SegId, chunk: &[u8]) -> Result<(), PortNo>
        requires sends { SendsTo self.old.ends motion to }
        ensures keys { self.new.ends ≡ self.old.ends }
        ensures steps { Works self.old self.new }
        ensures log { log_of self.new.query self.new.entries ≡ logged (Put motion to chunk.now) (did result) (log_of self.old.query self.old.entries) }
        ensures busy { CountsBusy 0 0 (did result) }
        ensures refusals { IfErr result (MayRefusePut self.old.ends motion to) }
    {
        let key = self.key_to(motion, to);
        let bytes = Bytes::from_slice(alloc, chunk)?;
        self.entries.reserve(1)?;
        let answer = self.hub.put(alloc, &key, chunk);
        let told = told_put(&key, &answer);
        let ask = HubAsk::Put { key, chunk: bytes };
        note(&mut self.entries, ask, gave(answer));
        told
    }

    fn finish(&mut self, alloc: Global, motion: u32, to: SegId) -> Result<(), PortNo>
        requires sends { SendsTo self.old.ends motion to }
        ensures keys { self.new.ends ≡ self.old.ends }
        ensures steps { Works self.old self.new }
        ensures log { log_of self.new.query self.new.entries ≡ logged (Finish motion to) (did result) (log_of self.old.query self.old.entries) }
        ensures busy { CountsBusy 0 0 (did result) }
        ensures refusals { IfErr result (MayRefusePut self.old.ends motion to) }
    {
        let key = self.key_to(motion, to);
        self.entries.reserve(1)?;
        let answer = self.hub.finish(alloc, &key);
        let told = told_put(&key, &answer);
        note(&mut self.entries, HubAsk::Finish { key }, gave(answer));
        told
    }

    fn take(&mut self, alloc: Global, motion: u32) -> Result<Parcel, PortNo>
        requires hears { Hears self.old.ends motion }
        ensures keys { self.new.ends ≡ self.old.ends }
        ensures steps { Works self.old self.new }
        ensures log { log_of self.new.query self.new.entries ≡ logged (Take motion) (gave result) (log_of self.old.query self.old.entries) }
        ensures busy { CountsBusy 0 0 (gave result) }
        ensures refusals { IfErr result MayRefuseTake }
        ensures from { IfOk result (λ parcel. HearsFrom self.old.ends motion parcel.from) }
    {
        self.entries.reserve(1)?;
        let query = self.query;
        let answer = self.hub.take(alloc, query, motion);
        let taken = took(answer);
        note(&mut self.entries, HubAsk::Take { query, motion }, taken.0);
        told_taken(taken.1)
    }

    fn take_from(&mut self, alloc: Global, motion: u32, sender: SegId) -> Result<Parcel, PortNo>
        requires hears { HearsFrom self.old.ends motion sender }
        ensures keys { self.new.ends ≡ self.old.ends }
        ensures steps { Works self.old self.new }
        ensures log { log_of self.new.query self.new.entries ≡ logged (TakeFrom motion sender) (gave result) (log_of self.old.query self.old.entries) }
        ensures busy { CountsBusy 0 0 (gave result) }
        ensures refusals { IfErr result MayRefuseTake }
        ensures from { IfOk result (λ parcel. parcel.from ≡ sender) }
    {
        let key = self.key_from(motion, sender);
        self.entries.reserve(1)?;
        let answer = self.hub.take_from(alloc, &key);
        let taken = took(answer);
        note(&mut self.entries, HubAsk::TakeFrom { key }, taken.0);
        told_taken(taken.1)
    }

    fn halt(&mut self, alloc: Global, motion: u32, sender: SegId) -> Result<(), PortNo>
        requires hears { HearsFrom self.old.ends motion sender }
        ensures keys { self.new.ends ≡ self.old.ends }
        ensures steps { Works self.old self.new }
        ensures log { log_of self.new.query self.new.entries ≡ logged (Halt motion sender) (did result) (log_of self.old.query self.old.entries) }
        ensures busy { CountsBusy 0 0 (did result) }
        ensures refusals { IfErr result MayRefuseHalt }
    {
        let key = self.key_from(motion, sender);
        self.entries.reserve(1)?;
        let answer = self.hub.halt(alloc, &key);
        let told = told_halt(&answer);
        note(&mut self.entries, HubAsk::Halt { key }, gave(answer));
        told
    }
}
