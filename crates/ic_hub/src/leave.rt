// Queries that end.
ghost use Rattle.std.specs.Prelude.{◌≡◌, ◌++◌, [], ◌∷◌, List, OnErr};
ghost use Rattle.ic_law.specs.declared.history.Entry.{Entry};
ghost use Rattle.ic_conntab.specs.Slots.{IsWithin};
ghost use Rattle.ic_hub.specs.Entries.{clear_entry, leave_entry};
ghost use Rattle.ic_hub.specs.Leaving.{TellsClear, TellsUnclear};
ghost use Rattle.ic_hub.specs.Standing.{Stands};
ghost use Rattle.ic_hub.specs.Calls.{SamePlace, IsLiveIn};

use crate::hub::Hub;
use crate::query::Query;
use ic_base::ConnKey;
use ic_conntab::Slot;
use ic_law::{LeaveNo, Unclear};

impl Query {
    /// Whether the connection of an end is over.
    fn is_over(&self, slot: Slot) -> bool
        requires { IsWithin self.now.ends slot }
        ensures { TellsClear self.now slot result }
    {
        match slot {
            Slot::Sender(place) => self.senders[place].is_over(),
            Slot::Receiver(place) => self.receivers[place].is_over(),
        }
    }

    /// The first end whose connection isn't over.
    fn first_unclear(&self) -> Option<ConnKey>
        ensures { TellsUnclear self.now result }
    {
        let ends = self.places.ends();
        for (place, slot) in self.places.order().iter().enumerate() {
            if !self.is_over(*slot) {
                return Some(ends[place].key);
            }
        }
        None
    }
}

impl Hub {
    /// Whether a live query could be left: each receiving connection is whole or halted, each sending one stopped, or
    /// finished with all packets acknowledged. Names the first that isn't. Looks at each connection of the query.
    pub fn clear(&self, query: u32) -> Result<(), Unclear>
        requires live { IsLiveIn self.now query }
        ensures stands { (h : List Entry) → Stands self.now h → Stands self.now (h ++ clear_entry query result ∷ []) }
    {
        let Some(place) = self.place_of(query) else {
            return Ok(());
        };
        match self.live[place].first_unclear() {
            Some(key) => Err(Unclear(key)),
            None => Ok(()),
        }
    }

    /// Ends a query: its connections are gone, late packets of it are answered Stop, and its number never begins again.
    /// Takes no memory.
    pub fn leave(&mut self, query: u32) -> Result<(), LeaveNo>
        ensures err { OnErr result (self.new ≡ self.old) }
        ensures place { SamePlace self.old self.new }
        ensures count { self.new.dropped ≡ self.old.dropped }
        ensures stands { (h : List Entry) → Stands self.old h → Stands self.new (h ++ leave_entry query result ∷ []) }
    {
        let Some(place) = self.place_of(query) else {
            return Err(LeaveNo::NotLive);
        };
        if let Some(key) = self.live[place].first_unclear() {
            return Err(LeaveNo::Unclear(key));
        }
        let _left = self.table.leave(query);
        let _gone = self.live.remove(place);
        Ok(())
    }
}
