// What a worker and a driver are told of a hub's answer.
ghost use Rattle.std.specs.Prelude.{◌≡◌, IfErr};
ghost use Rattle.ic_port.specs.Telling.{TellsPut, TellsHalt, LogsPut, LogsHalt, told_of, told_tick};

use ic_base::{ConnKey, Datagrams, Parcel, PortNo};
use ic_law::{HubNo, TickNo};

/// What the driver is told of a tick.
pub(crate) fn told_tick(answer: &Result<Datagrams, TickNo>) -> Result<(), TickNo>
    ensures { result ≡ told_tick answer.now }
{
    match answer {
        Ok(_) => Ok(()),
        Err(no) => Err(*no),
    }
}

/// What a worker is told of a put or a finish on this connection. What a hub never answers to an end that is there is
/// told as `Memory`.
pub(crate) fn told_put(key: &ConnKey, answer: &Result<Datagrams, HubNo>) -> Result<(), PortNo>
    ensures logs { LogsPut key.now answer.now result }
    ensures refusals { IfErr result (TellsPut key.now) }
{
    match answer {
        Ok(_) => Ok(()),
        Err(HubNo::Full) => Err(PortNo::Full),
        Err(HubNo::Stopped) => Err(PortNo::Stopped),
        Err(HubNo::TooLong(_)) => Err(PortNo::TooLong(*key)),
        Err(_) => Err(PortNo::Memory),
    }
}

/// What a worker is told of a halt.
pub(crate) fn told_halt(answer: &Result<Datagrams, HubNo>) -> Result<(), PortNo>
    ensures logs { LogsHalt answer.now result }
    ensures refusals { IfErr result TellsHalt }
{
    match answer {
        Ok(_) => Ok(()),
        Err(_) => Err(PortNo::Memory),
    }
}

/// What a worker is told of a take. What a hub never answers to an end that is there is told as `Memory`.
pub(crate) fn told_taken(own: Result<Parcel, HubNo>) -> Result<Parcel, PortNo>
    ensures { result ≡ told_of own }
{
    match own {
        Ok(parcel) => Ok(parcel),
        Err(HubNo::Empty) => Err(PortNo::Empty),
        Err(HubNo::Ended) => Err(PortNo::Ended),
        Err(HubNo::Full) => Err(PortNo::Memory),
        Err(HubNo::Stopped) => Err(PortNo::Memory),
        Err(HubNo::TooLong(_)) => Err(PortNo::Memory),
        Err(HubNo::Unknown { .. }) => Err(PortNo::Memory),
        Err(HubNo::Memory) => Err(PortNo::Memory),
    }
}
