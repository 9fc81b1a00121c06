// What a receiving end that isn't halted does with a packet of rows, and how it hands one over.
ghost use Rattle.std.specs.Prelude.{◌≡◌, ℕ, ◌+◌, ◌<◌, ◌≤◌, ◌↔◌, Some, None, Err, IfOk, OnErr, Contains};
ghost use Rattle.ic_recvring.specs.Numbers.{IsRunEnd};
ghost use Rattle.ic_recvring.specs.Ring.{Ring, IsRing, numbers, stored_of, front_of, after_front};
ghost use Rattle.ic_recvring.specs.Ring.{Packet as Kept};
ghost use Rattle.ic_receiver.specs.Receiving.{HearsRows, TellsStored, HandsFront};

use crate::shared_parcel::SharedParcel;
use crate::take_no::TakeNo;
use ic_base::{Bytes, ConnEnd, Datagram, Parcel};
use ic_header::{Flags, answer_packet, listing_packet};
use ic_recvring::{RecvRing, Store};
use std::alloc::{AllocError, Global};

/// The answer to a packet that is stored now, if the run had ended at `run`: how far what came reaches, or what is
/// missing.
fn tell_stored(
    alloc: Global,
    end: &ConnEnd,
    ring: &RecvRing,
    run: u32,
    seq: u32,
) -> Result<Datagram, AllocError>
    requires depth { ring.now.depth ≤ 256 }
    requires ahead { run < seq }
    requires here { Contains (stored_of ring.now) seq }
    requires run_end { run + 1 < seq → IsRunEnd (stored_of ring.now) run }
    ensures { IfOk result (λ d. TellsStored end.now ring.now run seq d) }
{
    if seq - run == 1 {
        return answer_packet(alloc, end, Flags::Ack, ring.run_end(), ring.consumed());
    }
    let missing = ring.missing(alloc)?;
    listing_packet(
        alloc,
        end,
        Flags::Disorder,
        seq,
        ring.greatest(),
        missing.as_slice(),
    )
}

/// Keeps a packet of rows, or not, and says what the sender is told. A packet whose answer finds no memory isn't kept.
pub(crate) fn hear(
    alloc: Global,
    end: &ConnEnd,
    ring: &mut RecvRing,
    seq: u32,
    payload: &[u8],
    last: bool,
) -> Result<Option<Datagram>, AllocError>
    requires depth { ring.old.depth ≤ 256 }
    ensures hears { IfOk result (λ a. HearsRows end.now ring.old (record { seq = seq; last = last; payload = payload.now }) a ring.new) }
    ensures memory { OnErr result (ring.new ≡ ring.old) }
    ensures depth { ring.new.depth ≡ ring.old.depth }
{
    let run = ring.run_end();
    match ring.store(seq, payload, last) {
        Store::Duplicate => Ok(Some(answer_packet(alloc, end, Flags::Duplicate, seq, run)?)),
        Store::Beyond => Ok(None),
        Store::Stored => match tell_stored(alloc, end, ring, run, seq) {
            Ok(told) => Ok(Some(told)),
            Err(e) => {
                ring.take_back(seq);
                Err(e)
            }
        },
    }
}

/// Hands the front over to two owners. Copies its payload once.
pub(crate) fn hand_over(
    alloc: Global,
    end: &ConnEnd,
    ring: &mut RecvRing,
) -> Result<(SharedParcel, Datagram), TakeNo>
    ensures hands { IfOk result (λ r. HandsFront end.now ring.old r.0 r.1 ring.new) }
    ensures empty { (result ≡ Err TakeNo.Empty) ↔ (front_of ring.old ≡ None) }
    ensures goes_on { result ≡ Err TakeNo.Ended → ⊥ }
    ensures err { OnErr result (ring.new ≡ ring.old) }
    ensures depth { ring.new.depth ≡ ring.old.depth }
{
    let Some(front) = ring.front() else {
        return Err(TakeNo::Empty);
    };
    let parcel = SharedParcel::new(Parcel {
        from: end.key.from,
        payload: Bytes::from_slice(alloc, front.payload)?,
        last: front.last,
    })?;
    let told = answer_packet(alloc, end, Flags::Ack, ring.run_end(), front.seq)?;
    ring.consume();
    Ok((parcel, told))
}
