// A node with its worker.
ghost use Rattle.std.specs.Prelude.{◌≡◌, ◌↔◌, IsTrue, IfErr, OnOk};
ghost use Rattle.std.specs.List.{All};
ghost use Rattle.ic_base.specs.Ports.{SendsTo};
ghost use Rattle.ic_base.specs.Ports.{Hears as HearsSome};
ghost use Rattle.ic_row.specs.Spelling.{HasLengths};
ghost use Rattle.ic_port.specs.Calls.{Works};
ghost use Rattle.gd_sim.specs.Playing.{IsDone};
ghost use Rattle.gd_sim.specs.Stations.{CanTurn, TurnKeeps, Keeps, Acts, SendsOn, TakesOn, Hears, EndsSo};

use crate::fault::{SimNo, tick_fault, work_fault};
use gd_work::{Course, Gatherer, Scanner, Turned};
use ic_base::Datagram;
use ic_port::Node;
use ic_row::Row;
use std::alloc::{AllocError, Global};

/// Who works at a node for the query that it serves.
#[derive(Drop)]
pub(crate) enum Worker {
    /// Nobody.
    Rests,
    /// A segment that sends.
    Sends(Scanner),
    /// The dispatcher.
    Takes(Gatherer),
}

impl Worker {
    /// Has it done all that it has to do?
    fn is_done(&self) -> bool
        ensures { IsTrue result ↔ IsDone self.now }
    {
        match self {
            Worker::Rests => true,
            Worker::Sends(scanner) => scanner.course() == Course::Done,
            Worker::Takes(gatherer) => gatherer.course() == Course::Done,
        }
    }
}

/// A turn of a segment that sends. A run ends at the first refusal, so none comes after one.
fn send_on(
    alloc: Global,
    scanner: &mut Scanner,
    node: &mut Node,
    rows: &[Row],
) -> Result<Turned, SimNo>
    requires sends { SendsTo node.old.ends scanner.old.motion scanner.old.to }
    requires lengths { All HasLengths rows.now }
    ensures works { Works node.old node.new }
    ensures sends { SendsOn rows.now scanner.old scanner.new node.old node.new }
    ensures cause { IfErr result (EndsSo node.new.entries) }
{
    match scanner.course() {
        Course::Going => match scanner.turn(alloc, node, rows) {
            Ok(turned) => Ok(turned),
            Err(no) => Err(work_fault(no)),
        },
        Course::Done => Ok(Turned::Done),
        Course::Refused(_) => Err(SimNo::Memory),
    }
}

/// A turn of the dispatcher. A run ends at the first refusal, so none comes after one.
fn take_on(alloc: Global, gatherer: &mut Gatherer, node: &mut Node) -> Result<Turned, SimNo>
    requires { HearsSome node.old.ends gatherer.old.motion }
    ensures works { Works node.old node.new }
    ensures takes { TakesOn gatherer.old gatherer.new node.old node.new }
    ensures cause { IfErr result (EndsSo node.new.entries) }
{
    match gatherer.course() {
        Course::Going => {
            node.lawful();
            let turned = gatherer.turn(alloc, node);
            node.lawful();
            match turned {
                Ok(turned) => Ok(turned),
                Err(no) => Err(work_fault(no)),
            }
        }
        Course::Done => Ok(Turned::Done),
        Course::Refused(_) => Err(SimNo::Memory),
    }
}

/// A node with its worker.
#[derive(Drop)]
pub(crate) struct Station {
    pub node: Node,
    pub worker: Worker,
    /// Whether nothing came at its last receive, and nothing was under way.
    pub quiet: bool,
    /// Whether it has left the query.
    pub left: bool,
}

impl Station {
    /// One turn of its worker, which is handed the rows of its segment. If it has left the query its worker is done.
    pub(crate) fn turn(&mut self, alloc: Global, rows: &[Row]) -> Result<Turned, SimNo>
        requires { CanTurn rows.now self.old }
        ensures keeps { TurnKeeps rows.now self.old self.new }
        ensures acts { Acts self.old self.new }
        ensures cause { IfErr result (EndsSo self.new.node.entries) }
    {
        if self.left {
            return Ok(Turned::Done);
        }
        match &mut self.worker {
            Worker::Rests => Ok(Turned::Done),
            Worker::Sends(scanner) => send_on(alloc, scanner, &mut self.node, rows),
            Worker::Takes(gatherer) => take_on(alloc, gatherer, &mut self.node),
        }
    }

    /// A datagram comes.
    pub(crate) fn hear(&mut self, alloc: Global, datagram: Datagram) -> Result<(), AllocError>
        ensures keeps { Keeps self.old self.new }
        ensures hears { OnOk result (Hears datagram self.old self.new) }
        ensures acts { IfErr result (λ e. Acts self.old self.new) }
    {
        self.node.arrive(alloc, datagram)
    }

    /// Its clock goes on by one.
    pub(crate) fn tick(&mut self, alloc: Global) -> Result<(), SimNo>
        ensures keeps { Keeps self.old self.new }
        ensures acts { Acts self.old self.new }
        ensures cause { IfErr result (EndsSo self.new.node.entries) }
    {
        match self.node.tick(alloc) {
            Ok(()) => Ok(()),
            Err(no) => Err(tick_fault(no)),
        }
    }

    /// Leaves the query, if it hasn't yet, its worker is done and each of its connections is over.
    pub(crate) fn leave(&mut self) -> Result<(), AllocError>
        ensures keeps { Keeps self.old self.new }
        ensures acts { Acts self.old self.new }
    {
        if !self.left && self.worker.is_done() {
            self.left = self.node.leave()?;
        }
        Ok(())
    }
}
