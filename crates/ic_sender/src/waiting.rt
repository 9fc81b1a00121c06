// What waits in the queue of a query.
ghost use Rattle.std.specs.Prelude.{◌≡◌, ℕ, ◌+◌, ◌<◌, ◌≤◌, map, length, if◌then◌else◌};
ghost use Rattle.std.specs.List.{AllByRecursion};
ghost use Rattle.ic_law.specs.Clock.{last_tick};
ghost use Rattle.ic_law.specs.Timers.{wait_in};
ghost use Rattle.ic_sender.specs.Sending.{waiting, later_waits, tries_of, flight_at};
ghost use Rattle.ic_sender.specs.Calls.{IsNow};
ghost use Rattle.ic_sender.specs.Views.{MayWait};

use crate::flight::{Flight, find};
use ic_expire::Expiry;
use ic_window::Window;

/// These packets wait until one tick, 2 to 64 ticks from now.
pub(crate) fn wait_all(expiry: &mut Expiry, conn: u32, flights: &[Flight], due: u64)
    requires may { MayWait conn (map (λ f. f.seq) flights.now) expiry.old }
    requires from { expiry.old.asked ≤ due }
    requires upto { due ≤ expiry.old.asked + 64 }
    ensures { expiry.new ≡ record expiry.old { held = waiting conn due (map (λ f. f.seq) flights.now) expiry.old.held } }
{
    for flight in flights {
        expiry.put(conn, flight.seq, due);
    }
}

/// How often the packet of this number was tried.
fn tries_at(flights: &[Flight], seq: u32) -> u32
    requires { AllByRecursion (λ f. f.tries ≤ 1000) flights.now }
    ensures value { result ≡ tries_of (flight_at flights.now seq) }
    ensures few { result ≤ 1000 }
{
    match find(flights, seq) {
        Some(flight) => flight.tries,
        None => 0,
    }
}

/// These packets wait longer than before, each by its tries.
#[tactic(auto, unfolding(ic_law::specs::Clock::last_tick))]
pub(crate) fn wait_longer(
    expiry: &mut Expiry,
    conn: u32,
    flights: &[Flight],
    numbers: &[u32],
    window: &Window,
    now: u64,
)
    requires may { MayWait conn numbers.now expiry.old }
    requires tries { AllByRecursion (λ f. f.tries ≤ 1000) flights.now }
    requires now { IsNow now expiry.old }
    ensures { expiry.new ≡ record expiry.old { held = later_waits now conn window.now flights.now numbers.now expiry.old.held } }
{
    for seq in numbers {
        let tries = tries_at(flights, *seq) + 1;
        expiry.put(conn, *seq, now + window.wait(tries));
    }
}
