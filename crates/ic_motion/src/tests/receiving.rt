// Stories of the receiving end: which rows it gives after which takes, and what it refuses.
use super::both;
use super::script::{Answer, ScriptPort};
use crate::{Got, MotionEnd, MotionIn, MotionNo, Sent};
use ic_base::{Bytes, Parcel, PortNo, SegId};
use ic_row::{Key, Kind, Value};
use pl_tree::Keys;
use sqlite_items::Items;
use std::alloc::Global;
use std::marker::Model;
use std::test::*;

/// A receiving end that hears both segments.
#[derive(Drop)]
struct Hearing {
    heard: MotionIn,
    port: ScriptPort,
}

impl Model for Hearing {
    ghost use Rattle.ic_motion.specs.Hearing.{Listener, senders_of};
    ghost use Rattle.ic_motion.specs.Pulling.{Listens};
    ghost use Rattle.ic_motion.specs.Scripts.{script_ends};

    ghost Value = { Listener };

    ghost view = { λ h. h.heard };

    ghost invariant = { λ h. Listens script_ends h.heard.end.motion (senders_of h.heard.lanes) };
}

/// What a pull gave, with the number of the row.
#[derive(Clone, Copy, Debug, PartialEq, Eq)]
enum Came {
    Row(Option<i64>),
    More,
    Wait(PortNo),
    End,
}

fn shown(got: &Got) -> Came {
    match got {
        Got::Row(row) => Came::Row(match row.as_slice().get(0) {
            Some(Value::Int(n)) => Some(*n),
            _ => None,
        }),
        Got::More => Came::More,
        Got::Wait(no) => Came::Wait(*no),
        Got::End => Came::End,
    }
}

impl Hearing {
    fn new(alloc: Global, order: Option<Keys>) -> Result<Hearing, Fail> {
        let end = MotionEnd {
            session: 7,
            query: 1,
            motion: 2,
            at: SegId::new(0).ok_or("a segment")?,
        };
        let mut kinds = Items::new(alloc);
        kinds.push(Kind::Int)?;
        let heard = MotionIn::new(alloc, end, both(alloc)?, order, kinds)?;
        let port = ScriptPort::new(alloc);
        Ok(Hearing { heard, port })
    }

    fn halt(&mut self, alloc: Global) -> Result<Sent, MotionNo> {
        self.heard.halt_all(alloc, &mut self.port)
    }

    /// After a refusal nothing is left.
    fn pull(mut self, alloc: Global) -> Result<(Hearing, Came), MotionNo> {
        let got = self.heard.pull(alloc, &mut self.port)?;
        Ok((self, shown(&got)))
    }
}

/// The bytes of a row of one int below 256.
fn spelled(n: u8) -> [u8; 15] {
    [0, 11, 0, 0, 0, 1, 1, 0, 0, 0, 0, 0, 0, 0, n]
}

/// The end of a stream.
const LAST: [u8; 4] = [0, 0, 0, 4];

/// A parcel of these rows from this segment, with the end of its stream if it is the last.
fn parcel(alloc: Global, from: i32, rows: &[u8], last: bool) -> Result<Answer, Fail> {
    let mut payload = Vec::new(alloc);
    for n in rows {
        payload.extend_from_slice(&spelled(*n))?;
    }
    if last {
        payload.extend_from_slice(&LAST)?;
    }
    Ok(Answer::Gave(Parcel {
        from: SegId::new(from).ok_or("a segment")?,
        payload: Bytes::from_vec(alloc, payload)?,
        last,
    }))
}

/// What so many pulls gave.
fn pulled(alloc: Global, mut hearing: Hearing, count: u32) -> Result<Vec<Came>, Fail> {
    let mut all = Vec::new(alloc);
    for _ in 0..count {
        match hearing.pull(alloc) {
            Ok((left, came)) => {
                hearing = left;
                all.push(came)?;
            }
            Err(_no) => return Err("refused".into()),
        }
    }
    Ok(all)
}

#[test]
fn rows_of_two_senders_come_as_they_are_taken(rt: HostRuntime) -> Result<(), Fail> {
    let mut hearing = Hearing::new(rt.alloc(), None)?;
    hearing
        .port
        .answers(parcel(rt.alloc(), 1, &[3, 1], false)?)?;
    hearing.port.answers(parcel(rt.alloc(), 0, &[2], true)?)?;
    hearing.port.answers(Answer::Refused(PortNo::Empty))?;
    hearing.port.answers(parcel(rt.alloc(), 1, &[], true)?)?;
    let wanted = [
        Came::More,
        Came::Row(Some(3)),
        Came::Row(Some(1)),
        Came::More,
        Came::Row(Some(2)),
        Came::Wait(PortNo::Empty),
        Came::More,
        Came::End,
    ];
    assert_eq!(rt;
        pulled(rt.alloc(), hearing, 8)?.as_slice(),
        wanted.as_slice()
    );
    Ok(())
}

/// No row is given before the head of each sender is known.
#[test]
fn an_ordered_gather_gives_the_least_head(rt: HostRuntime) -> Result<(), Fail> {
    let mut keys = Items::new(rt.alloc());
    keys.push(Key {
        column: 0,
        down: false,
    })?;
    let mut hearing = Hearing::new(rt.alloc(), Some(keys))?;
    hearing.port.answers(parcel(rt.alloc(), 0, &[2, 4], true)?)?;
    hearing.port.answers(Answer::Refused(PortNo::Empty))?;
    hearing.port.answers(parcel(rt.alloc(), 1, &[1, 3], true)?)?;
    let wanted = [
        Came::More,
        Came::Wait(PortNo::Empty),
        Came::More,
        Came::Row(Some(1)),
        Came::Row(Some(2)),
        Came::Row(Some(3)),
        Came::Row(Some(4)),
        Came::End,
    ];
    assert_eq!(rt;
        pulled(rt.alloc(), hearing, 8)?.as_slice(),
        wanted.as_slice()
    );
    Ok(())
}

/// The mark says that more comes after the end.
#[test]
fn a_parcel_that_is_wrongly_marked_is_refused(rt: HostRuntime) -> Result<(), Fail> {
    let mut hearing = Hearing::new(rt.alloc(), None)?;
    let from = SegId::new(1).ok_or("a segment")?;
    let payload = Bytes::from_slice(rt.alloc(), &LAST)?;
    hearing.port.answers(Answer::Gave(Parcel {
        from,
        payload,
        last: false,
    }))?;
    let refusal = hearing.pull(rt.alloc()).err().ok_or("pulled")?;
    let MotionNo::Malformed(key) = refusal else {
        return Err("another refusal".into());
    };
    assert_eq!(rt; (key.motion, key.from), (2, from));
    Ok(())
}

/// The end of stream of neither sender was taken.
#[test]
fn a_take_that_is_answered_ended_is_refused(rt: HostRuntime) -> Result<(), Fail> {
    let mut hearing = Hearing::new(rt.alloc(), None)?;
    hearing.port.answers(Answer::Refused(PortNo::Ended))?;
    assert_eq!(rt; hearing.pull(rt.alloc()).err(), Some(MotionNo::Memory));
    Ok(())
}

/// The first has ended, and isn't halted.
#[test]
fn the_sender_that_goes_on_is_halted(rt: HostRuntime) -> Result<(), Fail> {
    let mut hearing = Hearing::new(rt.alloc(), None)?;
    hearing.port.answers(parcel(rt.alloc(), 0, &[2], true)?)?;
    hearing.port.answers(Answer::Did)?;
    let Ok((mut hearing, _came)) = hearing.pull(rt.alloc()) else {
        return Err("refused".into());
    };
    assert_eq!(rt; hearing.halt(rt.alloc()), Ok(Sent::Done));
    Ok(())
}
