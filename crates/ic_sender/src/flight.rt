// The packets on their way.
ghost use Rattle.std.specs.Prelude.{◌≡◌, ℕ, nat_lt, map, filter, ◌+◌, ◌++◌, ◌≤◌, ◌<◌, length, vec_len, vec_capacity, OnOk};
ghost use Rattle.std.specs.Option.{option_map};
ghost use Rattle.std.specs.List.{AllByRecursion};
ghost use Rattle.ic_sender.specs.Listed.{Rises};
ghost use Rattle.ic_sender.specs.Sending.{flight_at, copy_of, copies, is_among, is_it, named, marked, tried};

use ic_base::Datagram;
use std::alloc::AllocError;

/// A packet that was emitted and isn't acknowledged.
#[derive(Drop)]
pub(crate) struct Flight {
    pub seq: u32,
    /// How often ticks emitted it again since the last answer that names it.
    pub tries: u32,
    /// The tick at which it was first emitted.
    pub since: u64,
    /// Whether it was emitted again.
    pub resent: bool,
    /// What was emitted. Each copy shares its bytes.
    pub datagram: Datagram,
}

/// The packet of this number.
pub(crate) fn find(flights: &[Flight], seq: u32) -> Option<&Flight>
    ensures { option_map (λ f. f.now) result ≡ flight_at flights.now seq }
{
    flights.iter().find(|flight| flight.seq == seq)
}

/// Whether this number is one of these, which increase. Looks at those below it and at one more.
pub(crate) fn is_listed(numbers: &[u32], seq: u32) -> bool
    requires { Rises numbers.now }
    ensures { result ≡ is_among numbers.now seq }
{
    for number in numbers {
        if *number >= seq {
            return *number == seq;
        }
    }
    false
}

/// A number that none of these packets is above.
fn greatest(flights: &[Flight]) -> u32
    ensures { AllByRecursion (λ f. f.seq ≤ result) flights.now }
{
    let mut greatest = 0;
    for flight in flights {
        greatest = flight.seq.max(greatest);
    }
    greatest
}

/// Adds a copy of the packet of this number, if it is on its way.
fn push_copy(flights: &[Flight], seq: u32, out: &mut Vec<Datagram>) -> Result<(), AllocError>
    ensures { OnOk result (out.new.items ≡ out.old.items ++ copy_of (flight_at flights.now seq)) }
{
    let Some(flight) = find(flights, seq) else {
        return Ok(());
    };
    out.push(flight.datagram.share()?)?;
    Ok(())
}

/// Adds copies of the packets of these numbers, of those that are on their way.
pub(crate) fn push_copies(
    flights: &[Flight],
    numbers: &[u32],
    out: &mut Vec<Datagram>,
) -> Result<(), AllocError>
    ensures { OnOk result (out.new.items ≡ out.old.items ++ copies flights.now numbers.now) }
{
    for seq in numbers {
        push_copy(flights, *seq, out)?;
    }
    Ok(())
}

/// The same, if the number is above another one. No packet is above the greatest one.
fn push_copy_above(
    flights: &[Flight],
    run: u32,
    greatest: u32,
    seq: u32,
    out: &mut Vec<Datagram>,
) -> Result<(), AllocError>
    requires { AllByRecursion (λ f. f.seq ≤ greatest) flights.now }
    ensures { OnOk result (out.new.items ≡ out.old.items ++ copy_of (flight_at (filter (λ f. nat_lt run f.seq) flights.now) seq)) }
{
    if seq <= run {
        return Ok(());
    }
    if seq > greatest {
        return Ok(());
    }
    push_copy(flights, seq, out)
}

/// The same, of those above a number. Looks for a packet only if the number is one that may be on its way: of
/// numbers that increase no more than there are packets.
pub(crate) fn push_copies_above(
    flights: &[Flight],
    run: u32,
    numbers: &[u32],
    out: &mut Vec<Datagram>,
) -> Result<(), AllocError>
    ensures { OnOk result (out.new.items ≡ out.old.items ++ copies (filter (λ f. nat_lt run f.seq) flights.now) numbers.now) }
{
    let greatest = greatest(flights);
    for seq in numbers {
        push_copy_above(flights, run, greatest, *seq, out)?;
    }
    Ok(())
}

/// Adds the datagrams of these packets, which share their bytes.
pub(crate) fn push_datagrams(flights: &[Flight], out: &mut Vec<Datagram>) -> Result<(), AllocError>
    ensures { OnOk result (out.new.items ≡ out.old.items ++ map (λ f. f.datagram) flights.now) }
{
    for flight in flights {
        out.push(flight.datagram.share()?)?;
    }
    Ok(())
}

/// Lets those up to a number go.
pub(crate) fn free(flights: &mut Vec<Flight>, run: u32)
    ensures items { flights.new.items ≡ filter (λ f. nat_lt run f.seq) flights.old.items }
    ensures len { vec_len flights.new ≤ vec_len flights.old }
    ensures capacity { vec_capacity flights.new ≡ vec_capacity flights.old }
{
    flights.retain(|flight| flight.seq > run);
}

/// An answer names a packet, and lists others.
fn hear(flight: &mut Flight, names: Option<u32>, lists: &[u32])
    requires { Rises lists.now }
    ensures { flight.new ≡ marked lists.now (named names flight.old) }
{
    if names == Some(flight.seq) {
        flight.tries = 0;
    }
    if is_listed(lists, flight.seq) {
        flight.resent = true;
    }
}

pub(crate) fn hear_all(flights: &mut [Flight], names: Option<u32>, lists: &[u32])
    requires { Rises lists.now }
    ensures { flights.new ≡ map (λ f. marked lists.now (named names f)) flights.old }
{
    for flight in flights.iter_mut() {
        hear(flight, names, lists);
    }
}

/// A tick emits these packets again.
fn retry(flight: &mut Flight, numbers: &[u32])
    requires tries { flight.old.tries + 1 ≤ 4294967295 }
    requires rises { Rises numbers.now }
    ensures { flight.new ≡ tried numbers.now flight.old }
{
    if is_listed(numbers, flight.seq) {
        flight.tries += 1;
        flight.resent = true;
    }
}

pub(crate) fn retry_all(flights: &mut [Flight], numbers: &[u32])
    requires rises { Rises numbers.now }
    requires tries { AllByRecursion (λ f. f.tries < 4294967295) flights.old }
    ensures { flights.new ≡ map (tried numbers.now) flights.old }
{
    for flight in flights.iter_mut() {
        retry(flight, numbers);
    }
}

/// Puts some after the others, if there is room.
pub(crate) fn join(flights: &mut Vec<Flight>, mut more: Vec<Flight>)
    requires { vec_len flights.old + vec_len more ≤ vec_capacity flights.old }
    ensures { flights.new.items ≡ flights.old.items ++ more.items }
{
    if flights.append(&mut more).is_err() {
        unreachable!();
    }
}
