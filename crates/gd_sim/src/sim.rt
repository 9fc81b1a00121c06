// All nodes and the network between them, one call of a node at a time.
ghost use Rattle.std.specs.Prelude.{◌≡◌, ◌<◌, [], length, drop, slice_index_or, Err, IfErr};
ghost use Rattle.pl_ops.specs.Placed.{rows_at};
ghost use Rattle.gd_sim.specs.Playing.{nodes_of};
ghost use Rattle.gd_sim.specs.Stations.{KeepsOrSent, KeepsOrEmitted, CanPlay, PlayGoes, AllGoes, HasFault, IsLawfulAt};

use crate::fault::SimNo;
use crate::station::Station;
use gd_net::{Network, Received};
use gd_work::Turned;
use ic_base::Datagram;
use pl_ops::Loaded;
use std::alloc::{AllocError, Global};

/// The stations of the dispatcher, of segment 0 and so on, and the network between them.
#[derive(Drop)]
pub(crate) struct Sim {
    pub stations: Vec<Station>,
    pub network: Network,
}

/// Sends these datagrams, and shares their bytes.
fn send(network: &mut Network, datagrams: &[Datagram]) -> Result<(), AllocError>
    ensures { KeepsOrSent datagrams.now network.old network.new }
{
    for datagram in datagrams {
        network.send(datagram.share()?)?;
    }
    Ok(())
}

/// Whether a turn that was answered so moved.
fn moved(turned: Result<Turned, SimNo>) -> Result<bool, SimNo>
    ensures { IfErr result (λ refusal. turned ≡ Err refusal) }
{
    match turned {
        Ok(Turned::Moved) => Ok(true),
        Ok(_) => Ok(false),
        Err(no) => Err(no),
    }
}

impl Sim {
    /// Sends what the station at this place emitted with its entry after so many.
    fn send_behind(&mut self, place: usize, seen: usize) -> Result<(), AllocError>
        requires here { place < length self.old.stations.items }
        ensures stations { self.new.stations ≡ self.old.stations }
        ensures lawful { IsLawfulAt self.old.stations.items place }
        ensures kept { KeepsOrEmitted (drop seen (slice_index_or (nodes_of self.old.stations.items) place [])) self.old.network self.new.network }
    {
        let node = &self.stations[place].node;
        node.lawful();
        send(&mut self.network, node.emitted(seen))
    }

    /// One turn of the worker at this place, which is handed its segment's rows of the table. Tells whether it moved.
    pub(crate) fn turn(
        &mut self,
        alloc: Global,
        loaded: &Loaded,
        table: u32,
        place: usize,
    ) -> Result<bool, SimNo>
        requires here { place < length self.old.stations.items }
        requires plays { CanPlay (rows_at loaded.now table) self.old }
        ensures count { length self.new.stations.items ≡ length self.old.stations.items }
        ensures goes { PlayGoes (rows_at loaded.now table) self.old self.new }
        ensures cause { IfErr result (HasFault (nodes_of self.new.stations.items)) }
    {
        let station = &mut self.stations[place];
        let seen = station.node.entries().len();
        let at = station.node.at();
        let turned = station.turn(alloc, loaded.rows(table, at));
        self.send_behind(place, seen)?;
        moved(turned)
    }

    /// Gives the station at this place the next datagram that is kept for it. Tells whether there was one.
    pub(crate) fn receive(&mut self, alloc: Global, place: usize) -> Result<bool, AllocError>
        requires here { place < length self.old.stations.items }
        ensures count { length self.new.stations.items ≡ length self.old.stations.items }
        ensures goes { AllGoes self.old self.new }
    {
        let station = &mut self.stations[place];
        let seen = station.node.entries().len();
        match self.network.receive(station.node.at()) {
            Received::Came(datagram) => {
                station.hear(alloc, datagram)?;
                self.send_behind(place, seen)?;
                Ok(true)
            }
            Received::Idle => {
                station.quiet = false;
                Ok(false)
            }
            Received::Quiet => {
                station.quiet = true;
                Ok(false)
            }
        }
    }

    /// The clock of the station at this place goes on, if nothing was under way at its last receive.
    pub(crate) fn tick(&mut self, alloc: Global, place: usize) -> Result<(), SimNo>
        requires here { place < length self.old.stations.items }
        ensures count { length self.new.stations.items ≡ length self.old.stations.items }
        ensures goes { AllGoes self.old self.new }
        ensures cause { IfErr result (HasFault (nodes_of self.new.stations.items)) }
    {
        let station = &mut self.stations[place];
        if !station.quiet {
            return Ok(());
        }
        let seen = station.node.entries().len();
        let ticked = station.tick(alloc);
        self.send_behind(place, seen)?;
        ticked
    }

    /// The station at this place leaves the query, if it may.
    pub(crate) fn leave(&mut self, place: usize) -> Result<(), AllocError>
        requires here { place < length self.old.stations.items }
        ensures count { length self.new.stations.items ≡ length self.old.stations.items }
        ensures goes { AllGoes self.old self.new }
    {
        self.stations[place].leave()
    }
}
