// Stories of the sending end: which calls it makes, and what it says of them.
ghost use Rattle.std.specs.Prelude.{◌≡◌, IfOk, [], ◌∷◌};
ghost use Rattle.ic_row.specs.declared.value.Value.TheVariants.{Int};

use super::both;
use super::script::{Answer, ScriptPort};
use crate::{MotionKind, MotionNo, MotionOut, Sent};
use ic_base::{PortAsk, PortEntry, PortNo};
use ic_row::{Row, Value};
use sqlite_items::Items;
use std::alloc::{AllocError, Global};
use std::marker::Model;
use std::test::*;

/// A row of one int.
fn row(alloc: Global, n: i64) -> Result<Row, AllocError>
    ensures { IfOk result (λ row. row ≡ Int n ∷ []) }
{
    Ok(Row::from_vec(vec![in alloc; Value::Int(n)]?))
}

/// A sending end to both segments, before its first end.
#[derive(Drop)]
struct Sending {
    out: MotionOut,
    port: ScriptPort,
}

impl Model for Sending {
    ghost use Rattle.std.specs.Prelude.{◌≡◌, false};
    ghost use Rattle.ic_motion.specs.Sending.{Sender, receivers_of, SendsToEach};
    ghost use Rattle.ic_motion.specs.Scripts.{script_ends};

    ghost Value = { Sender };

    ghost view = { λ s. s.out };

    ghost invariant = { λ s. SendsToEach script_ends s.out.motion (receivers_of s.out.targets) × (s.out.ending ≡ false) };
}

impl Sending {
    fn new(alloc: Global, kind: MotionKind) -> Result<Sending, Fail> {
        let port = ScriptPort::new(alloc);
        let out = MotionOut::new(alloc, kind, 1, both(alloc)?, 8192)?;
        Ok(Sending { out, port })
    }

    fn send(&mut self, alloc: Global, n: i64) -> Result<Sent, MotionNo> {
        let row = row(alloc, n)?;
        self.out.send(alloc, &mut self.port, &row)
    }
}

/// The segment that a put or a finish names; -2 for other calls.
fn segment_in(call: &PortEntry) -> i32 {
    match &call.ask {
        PortAsk::Put {
            motion: _,
            to,
            chunk: _,
        } => to.number(),
        PortAsk::Finish { motion: _, to } => to.number(),
        _ => -2,
    }
}

/// The segments to which the calls were.
fn segments(alloc: Global, calls: &[PortEntry]) -> Result<Vec<i32>, AllocError> {
    let mut to = Vec::new(alloc);
    for call in calls {
        to.push(segment_in(call))?;
    }
    Ok(to)
}

/// The port answers so; `None` is a call that is done.
fn answer_by(port: &mut ScriptPort, answers: &[Option<PortNo>]) -> Result<(), AllocError> {
    for answer in answers {
        port.answers(match answer {
            None => Answer::Did,
            Some(no) => Answer::Refused(*no),
        })?;
    }
    Ok(())
}

/// What the sends of these rows are answered, one call each, and to which segments the calls in the log were.
fn sent(
    alloc: Global,
    kind: MotionKind,
    answers: &[Option<PortNo>],
    rows: &[i64],
) -> Result<(Vec<Sent>, Vec<i32>), Fail> {
    let mut sending = Sending::new(alloc, kind)?;
    answer_by(&mut sending.port, answers)?;
    let mut said = Vec::new(alloc);
    for n in rows {
        match sending.send(alloc, *n) {
            Ok(answer) => said.push(answer)?,
            Err(_no) => return Err("refused".into()),
        }
    }
    Ok((said, segments(alloc, sending.port.calls())?))
}

/// By the first column.
fn by_key(alloc: Global) -> Result<MotionKind, AllocError> {
    let mut columns = Items::new(alloc);
    columns.push(0)?;
    Ok(MotionKind::Redistribute(columns))
}

#[test]
fn a_broadcast_puts_each_row_to_both(rt: HostRuntime) -> Result<(), Fail> {
    let (said, to) = sent(
        rt.alloc(),
        MotionKind::Broadcast,
        &[None, None, None, None],
        &[4, 4, 5, 5],
    )?;
    let wanted = [Sent::More, Sent::Done, Sent::More, Sent::Done];
    assert_eq!(rt; said.as_slice(), wanted.as_slice());
    assert_eq!(rt; to.as_slice(), [0, 1, 0, 1].as_slice());
    Ok(())
}

#[test]
fn a_receiver_that_stopped_gets_no_more(rt: HostRuntime) -> Result<(), Fail> {
    let (said, to) = sent(
        rt.alloc(),
        MotionKind::Broadcast,
        &[Some(PortNo::Stopped), None, None],
        &[4, 4, 5],
    )?;
    assert_eq!(rt;
        said.as_slice(),
        [Sent::More, Sent::Done, Sent::Done].as_slice()
    );
    assert_eq!(rt; to.as_slice(), [0, 1, 1].as_slice());
    Ok(())
}

#[test]
fn both_receivers_want_no_more(rt: HostRuntime) -> Result<(), Fail> {
    let (said, to) = sent(
        rt.alloc(),
        MotionKind::Broadcast,
        &[Some(PortNo::Stopped), Some(PortNo::Stopped)],
        &[4, 4, 5],
    )?;
    let wanted = [Sent::More, Sent::AllStopped, Sent::AllStopped];
    assert_eq!(rt; said.as_slice(), wanted.as_slice());
    assert_eq!(rt; to.as_slice(), [0, 1].as_slice());
    Ok(())
}

/// The call that was answered `Busy` isn't in the log.
#[test]
fn a_chunk_is_put_again_after_full_and_busy(rt: HostRuntime) -> Result<(), Fail> {
    let (said, to) = sent(
        rt.alloc(),
        MotionKind::Broadcast,
        &[Some(PortNo::Full), None, Some(PortNo::Busy), None],
        &[4, 4, 4, 4],
    )?;
    let wanted = [
        Sent::Wait(PortNo::Full),
        Sent::More,
        Sent::Wait(PortNo::Busy),
        Sent::Done,
    ];
    assert_eq!(rt; said.as_slice(), wanted.as_slice());
    assert_eq!(rt; to.as_slice(), [0, 0, 1].as_slice());
    Ok(())
}

#[test]
fn a_row_goes_to_the_segment_of_its_key(rt: HostRuntime) -> Result<(), Fail> {
    let kind = by_key(rt.alloc())?;
    let (said, to) = sent(rt.alloc(), kind, &[None, None, None], &[5, 4, 7])?;
    assert_eq!(rt;
        said.as_slice(),
        [Sent::Done, Sent::Done, Sent::Done].as_slice()
    );
    assert_eq!(rt; to.as_slice(), [1, 0, 1].as_slice());
    Ok(())
}

/// The second row makes no call.
#[test]
fn a_row_for_a_receiver_that_stopped_is_done(rt: HostRuntime) -> Result<(), Fail> {
    let kind = by_key(rt.alloc())?;
    let answers = [Some(PortNo::Stopped), None];
    let (said, to) = sent(rt.alloc(), kind, &answers, &[4, 6, 5])?;
    assert_eq!(rt;
        said.as_slice(),
        [Sent::Done, Sent::Done, Sent::Done].as_slice()
    );
    assert_eq!(rt; to.as_slice(), [0, 1].as_slice());
    Ok(())
}

/// A sending end to both segments, of which no row is in work.
#[derive(Drop)]
struct Ending {
    out: MotionOut,
    port: ScriptPort,
}

impl Model for Ending {
    ghost use Rattle.ic_motion.specs.Sending.{Sender, receivers_of, IsIdle, SendsToEach};
    ghost use Rattle.ic_motion.specs.Scripts.{script_ends};

    ghost Value = { Sender };

    ghost view = { λ s. s.out };

    ghost invariant = { λ s. SendsToEach script_ends s.out.motion (receivers_of s.out.targets) × IsIdle s.out.work };
}

impl Ending {
    fn new(alloc: Global) -> Result<Ending, Fail> {
        let port = ScriptPort::new(alloc);
        let out = MotionOut::new(alloc, MotionKind::Broadcast, 1, both(alloc)?, 8192)?;
        Ok(Ending { out, port })
    }

    fn end(&mut self, alloc: Global) -> Result<Sent, MotionNo> {
        self.out.end(alloc, &mut self.port)
    }
}

#[test]
fn streams_are_finished_one_a_call(rt: HostRuntime) -> Result<(), Fail> {
    let mut ending = Ending::new(rt.alloc())?;
    answer_by(
        &mut ending.port,
        &[None, Some(PortNo::Full), Some(PortNo::Stopped)],
    )?;
    let mut said = Vec::new(rt.alloc());
    for _ in 0..4 {
        said.push(ending.end(rt.alloc()))?;
    }
    let wanted = [
        Ok(Sent::More),
        Ok(Sent::Wait(PortNo::Full)),
        Ok(Sent::Done),
        Ok(Sent::Done),
    ];
    assert_eq!(rt; said.as_slice(), wanted.as_slice());
    assert_eq!(rt;
        segments(rt.alloc(), ending.port.calls())?.as_slice(),
        [0, 1, 1].as_slice()
    );
    Ok(())
}
