// One receiving connection.
ghost use Rattle.std.specs.Prelude.{◌≡◌, ◌⊎◌, ℕ, ◌↔◌, List, [], ◌∷◌, ◌++◌, true, false, Err, IfOk, OnErr, IsTrue};
ghost use Rattle.ic_base.specs.Settings.{AreChecked};
ghost use Rattle.ic_law.specs.declared.history.Entry.{Entry};
ghost use Rattle.ic_law.specs.declared.history.HubNo.TheVariants as refused;
ghost use Rattle.ic_law.specs.Taking.{whole_of};
ghost use Rattle.ic_law.specs.Points.{IsEnded};
ghost use Rattle.ic_law.specs.Receiving.{IsTaking};
ghost use Rattle.ic_receiver.specs.Receiving.{Hears, HearsQuery, IsOver, IsEmpty, IsReady, HandsOver, Halts, begun};
ghost use Rattle.ic_receiver.specs.Entries.{IsHearing, IsQuerying, IsRefusing, IsHalting};
ghost use Rattle.ic_receiver.specs.Standing.{Stands, StandsOn, IsUntouched, TakesNoMore, WaitsForNext, NotReady, TakesNow, TellsRows};

use crate::hearing::{hand_over, hear};
use crate::shared_parcel::SharedParcel;
use crate::take_no::TakeNo;
use ic_base::{ConnEnd, Datagram, SegId, Settings};
use ic_chunk::count_more;
use ic_header::{Flags, answer_packet};
use ic_recvring::RecvRing;
use std::alloc::{AllocError, Global};
use std::marker::Model;

/// One receiving connection, seen as its end, the ring of the packets that came, whether the packet with the end of
/// stream was taken, and how many rows were.
///
/// ```text
///            take of the packet with the end of stream
///   running ------------------------------------------> whole (repeated packets are still answered)
///      |
///      +--- halt ---> halted (keeps nothing, each packet and query is answered Stop)
/// ```
#[derive(Drop)]
pub struct Receiver {
    end: ConnEnd,
    /// What came. A halt drops it, with all its room.
    ring: Option<RecvRing>,
    whole: bool,
    /// The rows that ended in the payloads that were taken. Stands still at its greatest value.
    rows: u64,
}

impl Model for Receiver {
    ghost use Rattle.ic_receiver.specs.Receiving.{Receiving, IsShort};

    ghost Value = { Receiving };

    ghost view = { λ r. record { end = r.end; ring = r.ring; whole = r.whole; rows = r.rows } };

    ghost invariant = { λ r. IsShort r.ring };
}

impl Receiver {
    /// The receiving end of a connection of which nothing came. Takes the room for all packets that it may keep:
    /// `receive_depth` times `packet` bytes, which aren't touched before a packet is stored in them.
    pub fn new(alloc: Global, end: ConnEnd, settings: &Settings) -> Result<Receiver, AllocError>
        requires receiving { end.sending ≡ false }
        requires checked { AreChecked settings.now }
        ensures begun { IfOk result (λ r. r ≡ begun end settings.now) }
        ensures stands { IfOk result (λ r. (h : List Entry) → IsUntouched end h → Stands settings.now r h) }
    {
        let ring = RecvRing::with_depth(alloc, settings.receive_depth, settings.packet)?;
        Ok(Receiver {
            end,
            ring: Some(ring),
            whole: false,
            rows: 0,
        })
    }

    /// Whether nothing more is to be taken: the end of the stream was, or the connection is halted.
    pub fn is_over(&self) -> bool
        ensures value { IsTrue result ↔ IsOver self.now }
        ensures over { result ≡ true → TakesNoMore self.now }
        ensures runs { result ≡ false → (settings : _) (h : List Entry) → Stands settings self.now h → IsEnded self.now.end.key h → ⊥ }
    {
        self.whole || self.ring.is_none()
    }

    /// The segment that sends the rows.
    pub fn from(&self) -> SegId
        ensures { result ≡ self.now.end.key.from }
    {
        self.end.key.from
    }

    /// How many rows were taken: rows end with whole chunks and ends. Stands still at its greatest value.
    pub fn rows(&self) -> u64
        ensures value { result ≡ self.now.rows }
        ensures tells { TellsRows self.now result }
    {
        self.rows
    }

    /// Whether the packet with the end of stream was taken.
    pub fn is_whole(&self) -> bool
        ensures value { result ≡ self.now.whole }
        ensures tells { (settings : _) (h : List Entry) → Stands settings self.now h → whole_of self.now.end.key h ≡ result }
    {
        self.whole
    }

    fn looks_ready(&self) -> bool
        ensures ready { result ≡ true → IsReady self.now }
        ensures waits { result ≡ false → IsEmpty self.now ⊎ IsOver self.now }
    {
        match &self.ring {
            Some(ring) => !self.whole && ring.front().is_some(),
            None => false,
        }
    }

    /// Whether a take would hand a parcel over.
    pub fn is_ready(&self) -> bool
        ensures ready { result ≡ true → IsReady self.now }
        ensures waits { result ≡ false → IsEmpty self.now ⊎ IsOver self.now }
        ensures none { result ≡ false → NotReady self.now }
    {
        self.looks_ready()
    }

    fn hear(
        &mut self,
        alloc: Global,
        seq: u32,
        payload: &[u8],
        last: bool,
    ) -> Result<Option<Datagram>, AllocError>
        ensures hears { IfOk result (λ a. Hears self.old (record { seq = seq; last = last; payload = payload.now }) a self.new) }
        ensures memory { OnErr result (self.new ≡ self.old) }
    {
        match &mut self.ring {
            None => Ok(Some(answer_packet(alloc, &self.end, Flags::Stop, seq, 0)?)),
            Some(ring) => hear(alloc, &self.end, ring, seq, payload, last),
        }
    }

    /// A packet of rows of this connection came: its number, its body and whether it is flagged with the end of stream.
    /// Gives the one answer, or `None` if the packet is past the number consumed and the depth, or longer than a
    /// packet: then it is dropped without an answer. A stored payload is copied once; the answer takes memory of its
    /// own length. Without it nothing is stored.
    pub fn on_packet(
        &mut self,
        alloc: Global,
        seq: u32,
        payload: &[u8],
        last: bool,
    ) -> Result<Option<Datagram>, AllocError>
        ensures hears { IfOk result (λ a. Hears self.old (record { seq = seq; last = last; payload = payload.now }) a self.new) }
        ensures memory { OnErr result (self.new ≡ self.old) }
        ensures stands { IfOk result (λ a. StandsOn self.old self.new (IsHearing self.old.end.key (record { seq = seq; last = last; payload = payload.now }) a)) }
    {
        self.hear(alloc, seq, payload, last)
    }

    fn tell(&self, alloc: Global, seq: u32) -> Result<Option<Datagram>, AllocError>
        ensures { IfOk result (λ a. HearsQuery self.now seq a) }
    {
        match &self.ring {
            None => Ok(Some(answer_packet(alloc, &self.end, Flags::Stop, seq, 0)?)),
            Some(ring) => Ok(Some(answer_packet(
                alloc,
                &self.end,
                Flags::Ack,
                ring.run_end(),
                ring.consumed(),
            )?)),
        }
    }

    /// A status query of this connection came, TCP's window probe (RFC 9293, 3.8.6.1): the sender asks what became of
    /// its packets. Always gives an answer. `seq` is the query's.
    pub fn on_query(&mut self, alloc: Global, seq: u32) -> Result<Option<Datagram>, AllocError>
        ensures hears { IfOk result (λ a. HearsQuery self.old seq a) }
        ensures same { self.new ≡ self.old }
        ensures stands { IfOk result (λ a. StandsOn self.old self.new (IsQuerying self.old.end.key seq a)) }
    {
        self.tell(alloc, seq)
    }

    fn hand_over(&mut self, alloc: Global) -> Result<(SharedParcel, Datagram), TakeNo>
        ensures hands { IfOk result (λ r. HandsOver self.old r.0 r.1 self.new) }
        ensures empty { (result ≡ Err TakeNo.Empty) ↔ IsEmpty self.old }
        ensures ended { (result ≡ Err TakeNo.Ended) ↔ IsOver self.old }
        ensures err { OnErr result (self.new ≡ self.old) }
    {
        if self.whole {
            return Err(TakeNo::Ended);
        }
        match &mut self.ring {
            None => Err(TakeNo::Ended),
            Some(ring) => {
                let (parcel, told) = hand_over(alloc, &self.end, ring)?;
                let taken = parcel.parcel();
                self.whole = taken.last;
                self.rows = count_more(self.rows, taken.payload.as_slice());
                Ok((parcel, told))
            }
        }
    }

    /// The slice takes the next packet's payload. Gives it, for two owners, with the answer that tells the sender of
    /// the new room. Copies the payload once, out of the ring, and counts the rows that end in it: it goes over the
    /// heads of its chunks. All memory is taken before anything changes.
    pub fn take(&mut self, alloc: Global) -> Result<(SharedParcel, Datagram), TakeNo>
        ensures hands { IfOk result (λ r. HandsOver self.old r.0 r.1 self.new) }
        ensures empty { (result ≡ Err TakeNo.Empty) ↔ IsEmpty self.old }
        ensures ended { (result ≡ Err TakeNo.Ended) ↔ IsOver self.old }
        ensures err { OnErr result (self.new ≡ self.old) }
        ensures stands { IfOk result (λ r. StandsOn self.old self.new (IsTaking self.old.end.key r.0 (r.1 ∷ []))) }
        ensures takes { IfOk result (λ r. TakesNow self.old r.0 r.1) }
        ensures stands_empty { result ≡ Err TakeNo.Empty → StandsOn self.old self.new (IsRefusing self.old.end.key refused.Empty) }
        ensures waits { result ≡ Err TakeNo.Empty → WaitsForNext self.old }
        ensures stands_ended { result ≡ Err TakeNo.Ended → StandsOn self.old self.new (IsRefusing self.old.end.key refused.Ended) }
        ensures over { result ≡ Err TakeNo.Ended → TakesNoMore self.old }
    {
        self.hand_over(alloc)
    }

    fn stop(&mut self, alloc: Global) -> Result<Option<Datagram>, AllocError>
        ensures halts { IfOk result (λ a. Halts self.old a self.new) }
        ensures memory { OnErr result (self.new ≡ self.old) }
    {
        if self.whole || self.ring.is_none() {
            return Ok(None);
        }
        let told = answer_packet(alloc, &self.end, Flags::Stop, 0, 0)?;
        self.ring = None;
        Ok(Some(told))
    }

    /// The slice wants no more of this sender, as QUIC's STOP_SENDING (RFC 9000, 3.5). Drops what is kept and gives the
    /// datagram that says so, and `None` if the connection is whole or halted.
    pub fn halt(&mut self, alloc: Global) -> Result<Option<Datagram>, AllocError>
        ensures halts { IfOk result (λ a. Halts self.old a self.new) }
        ensures memory { OnErr result (self.new ≡ self.old) }
        ensures stands { IfOk result (λ a. StandsOn self.old self.new (IsHalting self.old.end.key a)) }
    {
        self.stop(alloc)
    }
}
