// A port in memory, which answers the calls of a worker from a list.
ghost use Rattle.std.specs.Prelude.{◌≡◌, ◌++◌, ◌∷◌, [], ℕ, ℤ, true, IfOk, IfErr, OnOk, OnErr};
ghost use Rattle.ic_base.specs.declared.port.PortNo.TheVariants.{Memory};
ghost use Rattle.ic_base.specs.declared.port.PortAsk.TheVariants.{Put, Finish, Take, TakeFrom, Halt};
ghost use Rattle.ic_base.specs.Ports.{did, gave, logged, SendsTo, Hears, HearsFrom, MayRefusePut, MayRefuseTake, MayRefuseHalt, CountsBusy};
ghost use Rattle.ic_motion.specs.Scripts.{script_ends};

use ic_base::{Bytes, Parcel, Port, PortAsk, PortEntries, PortEntry, PortNo, PortReply, SegId};
use std::alloc::{AllocError, Global};
use std::collections::VecDeque;

/// What a call is to be answered. `TooLong` is never answered.
#[derive(Drop)]
pub(crate) enum Answer {
    Did,
    Gave(Parcel),
    Refused(PortNo),
}

/// A port that gives one answer after another. It answers what doesn't fit the call, and any call after the last answer, with
/// `Memory`.
#[derive(Drop)]
pub(crate) struct ScriptPort {
    answers: VecDeque<Answer>,
    calls: PortEntries,
    busy: u64,
}

impl ScriptPort {
    pub(crate) fn new(alloc: Global) -> ScriptPort {
        ScriptPort {
            answers: VecDeque::new(alloc),
            calls: PortEntries::new(alloc),
            busy: 0,
        }
    }

    /// The call after those before is answered so.
    pub(crate) fn answers(&mut self, answer: Answer) -> Result<(), AllocError> {
        if self.answers.push_back(answer).is_err() {
            return Err(AllocError);
        }
        Ok(())
    }

    pub(crate) fn calls(&self) -> &[PortEntry] {
        self.calls.as_slice()
    }

    fn note(&mut self, ask: PortAsk, reply: PortReply) -> Result<(), AllocError>
        ensures ok { OnOk result (self.new.calls ≡ self.old.calls ++ record { ask = ask; reply = reply } ∷ []) }
        ensures err { OnErr result (self.new.calls ≡ self.old.calls) }
        ensures busy { self.new.busy ≡ self.old.busy }
    {
        self.calls.push(PortEntry { ask, reply })
    }

    /// The next answer to a put or a finish.
    fn sent(&mut self, ask: PortAsk) -> Result<(), PortNo>
        ensures log { self.new.calls ≡ logged ask (did result) self.old.calls }
        ensures busy { CountsBusy self.old.busy self.new.busy (did result) }
        ensures refusals { (motion : ℕ) (to : ℤ) → IfErr result (MayRefusePut script_ends motion to) }
    {
        match self.answers.pop_front() {
            Some(Answer::Did) => self.done(ask),
            Some(Answer::Refused(no)) => self.not_sent(ask, no),
            Some(Answer::Gave(_parcel)) => Err(PortNo::Memory),
            None => Err(PortNo::Memory),
        }
    }

    fn done(&mut self, ask: PortAsk) -> Result<(), PortNo>
        ensures log { self.new.calls ≡ logged ask (did result) self.old.calls }
        ensures busy { self.new.busy ≡ self.old.busy }
        ensures never { IfErr result (λ no_. no_ ≡ Memory) }
    {
        self.note(ask, PortReply::Did)?;
        Ok(())
    }

    fn not_sent(&mut self, ask: PortAsk, no: PortNo) -> Result<(), PortNo>
        ensures log { self.new.calls ≡ logged ask (did result) self.old.calls }
        ensures busy { CountsBusy self.old.busy self.new.busy (did result) }
        ensures refusals { (motion : ℕ) (to : ℤ) → IfErr result (MayRefusePut script_ends motion to) }
    {
        match no {
            PortNo::Full => {
                self.note(ask, PortReply::Refused(PortNo::Full))?;
                Err(PortNo::Full)
            }
            PortNo::Stopped => {
                self.note(ask, PortReply::Refused(PortNo::Stopped))?;
                Err(PortNo::Stopped)
            }
            PortNo::Busy => {
                self.busy = self.busy.saturating_add(1);
                Err(PortNo::Busy)
            }
            _ => Err(PortNo::Memory),
        }
    }

    fn not_halted(&mut self, no: PortNo) -> Result<(), PortNo>
        ensures log { self.new.calls ≡ self.old.calls }
        ensures busy { CountsBusy self.old.busy self.new.busy (did result) }
        ensures refusals { IfErr result MayRefuseHalt }
        ensures never { IfOk result (λ _. ⊥) }
    {
        match no {
            PortNo::Busy => {
                self.busy = self.busy.saturating_add(1);
                Err(PortNo::Busy)
            }
            _ => Err(PortNo::Memory),
        }
    }

    /// A take gives this parcel.
    fn given(&mut self, ask: PortAsk, parcel: Parcel) -> Result<Parcel, PortNo>
        ensures log { self.new.calls ≡ logged ask (gave result) self.old.calls }
        ensures busy { self.new.busy ≡ self.old.busy }
        ensures value { IfOk result (λ p. p ≡ parcel) }
        ensures never { IfErr result (λ no_. no_ ≡ Memory) }
    {
        let noted = Parcel {
            from: parcel.from,
            payload: parcel.payload.share()?,
            last: parcel.last,
        };
        self.note(ask, PortReply::Gave(noted))?;
        Ok(parcel)
    }

    fn not_given(&mut self, ask: PortAsk, no: PortNo) -> Result<Parcel, PortNo>
        ensures log { self.new.calls ≡ logged ask (gave result) self.old.calls }
        ensures busy { CountsBusy self.old.busy self.new.busy (gave result) }
        ensures refusals { IfErr result MayRefuseTake }
        ensures never { IfOk result (λ _. ⊥) }
    {
        match no {
            PortNo::Empty => {
                self.note(ask, PortReply::Refused(PortNo::Empty))?;
                Err(PortNo::Empty)
            }
            PortNo::Ended => {
                self.note(ask, PortReply::Refused(PortNo::Ended))?;
                Err(PortNo::Ended)
            }
            PortNo::Busy => {
                self.busy = self.busy.saturating_add(1);
                Err(PortNo::Busy)
            }
            _ => Err(PortNo::Memory),
        }
    }
}

impl Port for ScriptPort {
    ghost keys = { λ p. script_ends };

    ghost log = { λ p. p.calls };

    ghost busy = { λ p. p.busy };

    ghost steps = { λ old new. Unit {0} };

    fn put(&mut self, alloc: Global, motion: u32, to: SegId, chunk: &[u8]) -> Result<(), PortNo>
        requires sends { SendsTo script_ends motion to }
        ensures log { self.new.calls ≡ logged (Put motion to chunk.now) (did result) self.old.calls }
        ensures busy { CountsBusy self.old.busy self.new.busy (did result) }
        ensures refusals { IfErr result (MayRefusePut script_ends motion to) }
    {
        let chunk = Bytes::from_slice(alloc, chunk)?;
        self.sent(PortAsk::Put { motion, to, chunk })
    }

    fn finish(&mut self, _alloc: Global, motion: u32, to: SegId) -> Result<(), PortNo>
        requires sends { SendsTo script_ends motion to }
        ensures log { self.new.calls ≡ logged (Finish motion to) (did result) self.old.calls }
        ensures busy { CountsBusy self.old.busy self.new.busy (did result) }
        ensures refusals { IfErr result (MayRefusePut script_ends motion to) }
    {
        self.sent(PortAsk::Finish { motion, to })
    }

    fn take(&mut self, _alloc: Global, motion: u32) -> Result<Parcel, PortNo>
        requires hears { Hears script_ends motion }
        ensures log { self.new.calls ≡ logged (Take motion) (gave result) self.old.calls }
        ensures busy { CountsBusy self.old.busy self.new.busy (gave result) }
        ensures refusals { IfErr result MayRefuseTake }
        ensures from { IfOk result (λ parcel. HearsFrom script_ends motion parcel.from) }
    {
        match self.answers.pop_front() {
            Some(Answer::Gave(parcel)) => {
                if !is_heard(motion, parcel.from) {
                    return Err(PortNo::Memory);
                }
                self.given(PortAsk::Take { motion }, parcel)
            }
            Some(Answer::Refused(no)) => self.not_given(PortAsk::Take { motion }, no),
            Some(Answer::Did) => Err(PortNo::Memory),
            None => Err(PortNo::Memory),
        }
    }

    fn take_from(&mut self, _alloc: Global, motion: u32, sender: SegId) -> Result<Parcel, PortNo>
        requires hears { HearsFrom script_ends motion sender }
        ensures log { self.new.calls ≡ logged (TakeFrom motion sender) (gave result) self.old.calls }
        ensures busy { CountsBusy self.old.busy self.new.busy (gave result) }
        ensures refusals { IfErr result MayRefuseTake }
        ensures from { IfOk result (λ parcel. parcel.from ≡ sender) }
    {
        match self.answers.pop_front() {
            Some(Answer::Gave(parcel)) => {
                if parcel.from.number() != sender.number() {
                    return Err(PortNo::Memory);
                }
                self.given(PortAsk::TakeFrom { motion, sender }, parcel)
            }
            Some(Answer::Refused(no)) => self.not_given(PortAsk::TakeFrom { motion, sender }, no),
            Some(Answer::Did) => Err(PortNo::Memory),
            None => Err(PortNo::Memory),
        }
    }

    fn halt(&mut self, _alloc: Global, motion: u32, sender: SegId) -> Result<(), PortNo>
        requires hears { HearsFrom script_ends motion sender }
        ensures log { self.new.calls ≡ logged (Halt motion sender) (did result) self.old.calls }
        ensures busy { CountsBusy self.old.busy self.new.busy (did result) }
        ensures refusals { IfErr result MayRefuseHalt }
    {
        match self.answers.pop_front() {
            Some(Answer::Did) => self.done(PortAsk::Halt { motion, sender }),
            Some(Answer::Refused(no)) => self.not_halted(no),
            Some(Answer::Gave(_parcel)) => Err(PortNo::Memory),
            None => Err(PortNo::Memory),
        }
    }
}

/// Whether the worker hears this segment in this motion.
fn is_heard(motion: u32, from: SegId) -> bool
    ensures { result ≡ true → HearsFrom script_ends motion from }
{
    if motion != 2 {
        return false;
    }
    if from.number() == 0 {
        return true;
    }
    from.number() == 1
}
