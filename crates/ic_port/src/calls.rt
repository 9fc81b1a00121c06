// What the driver of a node asks of its hub.
ghost use Rattle.std.specs.Prelude.{◌≡◌, ◌<◌, IfOk, IfErr, OnOk, OnErr};
ghost use Rattle.ic_law.specs.Asking.{AreEnds};
ghost use Rattle.ic_port.specs.Noding.{place_of};
ghost use Rattle.ic_port.specs.Calls.{Begins, BeginRefused, Arrives, Ticks, TickRefused, LeftOrNot};

use crate::node::Node;
use crate::telling::told_tick;
use ic_base::{BeginNo, ConnEnd, ConnEnds, Datagram};
use ic_hub::note;
use ic_hub::replies::{begun, ticked};
use ic_law::{HubAsk, HubReply, TickNo};
use std::alloc::{AllocError, Global};

impl Node {
    /// Begins a query with the ends that it has here; the ends are copied once. The query before is served no more, left
    /// or not. A refused query is an entry too, and the query before is served on.
    pub fn begin(&mut self, alloc: Global, query: u32, ends: Vec<ConnEnd>) -> Result<(), BeginNo>
        requires ends { AreEnds (place_of self.old) query ends.items }
        requires later { self.old.query < query }
        ensures ok { OnOk result (Begins query ends.items self.old self.new) }
        ensures err { IfErr result (λ refusal. BeginRefused query ends.items refusal self.old self.new) }
    {
        let Ok(kept) = Vec::from_slice(alloc, ends.as_slice()) else {
            return Err(BeginNo::Memory);
        };
        let Ok(()) = self.entries.reserve(1) else {
            return Err(BeginNo::Memory);
        };
        let answer = self.hub.begin(alloc, query, ends.as_slice());
        let ask = HubAsk::Begin {
            query,
            ends: ConnEnds::from_vec(kept),
        };
        note(&mut self.entries, ask, begun(answer));
        answer?;
        self.query = query;
        self.ends = ends;
        Ok(())
    }

    /// The network hands a datagram over.
    pub fn arrive(&mut self, alloc: Global, datagram: Datagram) -> Result<(), AllocError>
        ensures ok { OnOk result (Arrives datagram self.old self.new) }
        ensures err { OnErr result (self.new ≡ self.old) }
    {
        self.entries.reserve(1)?;
        let (how, datagrams) = self.hub.arrive(alloc, &datagram)?;
        let reply = HubReply::Came(how, datagrams);
        note(&mut self.entries, HubAsk::Arrive { datagram }, reply);
        Ok(())
    }

    /// The clock goes on by one. If it doesn't for a packet that was emitted too often, that is an entry too.
    pub fn tick(&mut self, alloc: Global) -> Result<(), TickNo>
        ensures ok { OnOk result (Ticks self.old self.new) }
        ensures err { IfErr result (λ refusal. TickRefused refusal self.old self.new) }
    {
        let Ok(()) = self.entries.reserve(1) else {
            return Err(TickNo::Memory);
        };
        let answer = self.hub.tick(alloc);
        let told = told_tick(&answer);
        note(&mut self.entries, HubAsk::Tick, ticked(answer));
        told
    }

    /// Ends the query here, if each of its connections is over. Tells whether it was left; if it wasn't, the asking
    /// is an entry all the same, and the query is served on.
    pub fn leave(&mut self) -> Result<bool, AllocError>
        ensures ok { IfOk result (λ left. LeftOrNot left self.old self.new) }
        ensures err { OnErr result (self.new ≡ self.old) }
    {
        self.entries.reserve(1)?;
        let query = self.query;
        let answer = self.hub.leave(query);
        let reply = HubReply::Left(answer);
        note(&mut self.entries, HubAsk::Leave { query }, reply);
        if answer.is_err() {
            return Ok(false);
        }
        self.ends.clear();
        Ok(true)
    }
}
