// The rounds in which a query goes on.
ghost use Rattle.std.specs.Prelude.{◌≡◌, ◌<◌, length, IfErr, IfOk, true};
ghost use Rattle.pl_ops.specs.Placed.{rows_at};
ghost use Rattle.gd_sim.specs.Playing.{nodes_of};
ghost use Rattle.gd_sim.specs.Stations.{CanPlay, PlayGoes, AllGoes, HasFault, TellsOver};

use crate::fault::SimNo;
use crate::sim::Sim;
use pl_ops::Loaded;
use std::alloc::{AllocError, Global};

/// How many turns a worker takes in one round at most.
const TURNS: u32 = 256;

/// How many datagrams a node receives in one round at most.
const RECEIVES: u32 = 1024;

impl Sim {
    /// The worker at this place takes turns until one is answered `Waiting` or `Done`.
    fn take_turns(
        &mut self,
        alloc: Global,
        loaded: &Loaded,
        table: u32,
        place: usize,
    ) -> Result<(), SimNo>
        requires here { place < length self.old.stations.items }
        requires plays { CanPlay (rows_at loaded.now table) self.old }
        ensures count { length self.new.stations.items ≡ length self.old.stations.items }
        ensures goes { PlayGoes (rows_at loaded.now table) self.old self.new }
        ensures cause { IfErr result (HasFault (nodes_of self.new.stations.items)) }
    {
        for _ in 0..TURNS {
            if !self.turn(alloc, loaded, table, place)? {
                return Ok(());
            }
        }
        Ok(())
    }

    /// Each worker takes its turns: those that send by segment, and then the dispatcher's.
    fn all_turns(&mut self, alloc: Global, loaded: &Loaded, table: u32) -> Result<(), SimNo>
        requires some { 0 < length self.old.stations.items }
        requires plays { CanPlay (rows_at loaded.now table) self.old }
        ensures count { length self.new.stations.items ≡ length self.old.stations.items }
        ensures goes { PlayGoes (rows_at loaded.now table) self.old self.new }
        ensures cause { IfErr result (HasFault (nodes_of self.new.stations.items)) }
    {
        for place in 1..self.stations.len() {
            self.take_turns(alloc, loaded, table, place)?;
        }
        self.take_turns(alloc, loaded, table, 0)
    }

    /// The station at this place receives until nothing is kept for it.
    fn receive_all(&mut self, alloc: Global, place: usize) -> Result<(), AllocError>
        requires here { place < length self.old.stations.items }
        ensures count { length self.new.stations.items ≡ length self.old.stations.items }
        ensures goes { AllGoes self.old self.new }
    {
        for _ in 0..RECEIVES {
            if !self.receive(alloc, place)? {
                return Ok(());
            }
        }
        self.is_busy(place);
        Ok(())
    }

    /// The station at this place has more to receive.
    fn is_busy(&mut self, place: usize)
        requires here { place < length self.old.stations.items }
        ensures count { length self.new.stations.items ≡ length self.old.stations.items }
        ensures goes { AllGoes self.old self.new }
    {
        self.stations[place].quiet = false;
    }

    /// Each station receives, the dispatcher's first.
    fn all_receive(&mut self, alloc: Global) -> Result<(), AllocError>
        ensures count { length self.new.stations.items ≡ length self.old.stations.items }
        ensures goes { AllGoes self.old self.new }
    {
        for place in 0..self.stations.len() {
            self.receive_all(alloc, place)?;
        }
        Ok(())
    }

    /// The clock of each station for which nothing was under way goes on, the dispatcher's first.
    fn all_tick(&mut self, alloc: Global) -> Result<(), SimNo>
        ensures count { length self.new.stations.items ≡ length self.old.stations.items }
        ensures goes { AllGoes self.old self.new }
        ensures cause { IfErr result (HasFault (nodes_of self.new.stations.items)) }
    {
        for place in 0..self.stations.len() {
            self.tick(alloc, place)?;
        }
        Ok(())
    }

    /// Each station leaves the query that may, the dispatcher's first.
    fn all_leave(&mut self) -> Result<(), AllocError>
        ensures count { length self.new.stations.items ≡ length self.old.stations.items }
        ensures goes { AllGoes self.old self.new }
    {
        for place in 0..self.stations.len() {
            self.leave(place)?;
        }
        Ok(())
    }

    /// One round.
    fn round(&mut self, alloc: Global, loaded: &Loaded, table: u32) -> Result<(), SimNo>
        requires some { 0 < length self.old.stations.items }
        requires plays { CanPlay (rows_at loaded.now table) self.old }
        ensures count { length self.new.stations.items ≡ length self.old.stations.items }
        ensures goes { PlayGoes (rows_at loaded.now table) self.old self.new }
        ensures cause { IfErr result (HasFault (nodes_of self.new.stations.items)) }
    {
        self.all_turns(alloc, loaded, table)?;
        self.all_receive(alloc)?;
        self.all_tick(alloc)?;
        self.all_leave()?;
        Ok(())
    }

    /// Has each station left the query?
    fn is_over(&self) -> bool
        ensures { TellsOver self.now.stations.items result }
    {
        for station in &self.stations {
            if !station.left {
                return false;
            }
        }
        true
    }

    /// Goes on with the query for so many rounds at most, until each station has left it. Tells whether it is over then.
    pub(crate) fn rounds(
        &mut self,
        alloc: Global,
        loaded: &Loaded,
        table: u32,
        rounds: u64,
    ) -> Result<bool, SimNo>
        requires some { 0 < length self.old.stations.items }
        requires plays { CanPlay (rows_at loaded.now table) self.old }
        ensures count { length self.new.stations.items ≡ length self.old.stations.items }
        ensures goes { PlayGoes (rows_at loaded.now table) self.old self.new }
        ensures over { IfOk result (TellsOver self.new.stations.items) }
        ensures cause { IfErr result (HasFault (nodes_of self.new.stations.items)) }
    {
        for _ in 0..rounds {
            self.round(alloc, loaded, table)?;
            if self.is_over() {
                return Ok(true);
            }
        }
        Ok(self.is_over())
    }
}
