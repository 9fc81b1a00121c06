// A thousand drawn calls on both rings, with the same answers.
ghost use Rattle.std.specs.Prelude.{◌≡◌};

use super::plain::{Kept, PlainRing};
use crate::{Sealed, SendRing};
use std::alloc::{AllocError, Global};
use std::test::Fail;

/// Both rings.
#[derive(Drop)]
struct Both {
    ring: SendRing,
    plain: PlainRing,
}

/// The next number of a row that looks random.
fn draw(state: u64) -> u64 {
    state
        .wrapping_mul(6_364_136_223_846_793_005)
        .wrapping_add(1_442_695_040_888_963_407)
}

/// Eight bytes.
fn bytes(drawn: u64) -> [u8; 8] {
    drawn.to_le_bytes()
}

fn same(lent: Option<Sealed<'_>>, kept: Option<&Kept>) -> bool {
    match (lent, kept) {
        (Some(a), Some(b)) => {
            a.seq == b.seq && a.last == b.last && a.payload == b.payload.as_slice()
        }
        (None, None) => true,
        _ => false,
    }
}

fn send(ring: &mut SendRing)
    ensures { ring.new.packet ≡ ring.old.packet }
{
    if let Some(_next) = ring.next_unsent() {
        ring.sent();
    }
}

/// Seals eight bytes, if packets have room for them.
fn seal(ring: &mut SendRing, payload: &[u8; 8], last: bool) -> Option<u32>
    requires { ring.old.packet ≡ 72 }
    ensures { ring.new.packet ≡ ring.old.packet }
{
    ring.seal(payload.as_slice(), last).ok()
}

impl Both {
    /// One call, which a number names: do both answer the same?
    fn call(&mut self, alloc: Global, drawn: u64) -> Result<bool, AllocError>
        requires { self.old.ring.packet ≡ 72 }
        ensures { self.new.ring.packet ≡ self.old.ring.packet }
    {
        let kind = drawn >> 60;
        if kind < 7 {
            let payload = bytes(drawn);
            let last = drawn >> 59 & 1 == 1;
            let answer = seal(&mut self.ring, &payload, last);
            let wanted = self.plain.seal(alloc, payload.as_slice(), last)?;
            return Ok(answer == wanted.ok());
        }
        if kind < 12 {
            send(&mut self.ring);
            self.plain.sent();
            return Ok(true);
        }
        let below = (drawn >> 33 & 3) as u32;
        let upto = self.plain.sealed.saturating_sub(below);
        let before = self.plain.kept.len();
        let freed = self.ring.acked(upto);
        self.plain.acked(upto);
        Ok(freed as usize == before.saturating_sub(self.plain.kept.len()))
    }

    /// Do both tell the same of the packets?
    fn tell(&self) -> bool {
        let seq = self.plain.sealed.saturating_sub(3);
        self.ring.unacked() as usize == self.plain.kept.len()
            && same(self.ring.next_unsent(), self.plain.next_unsent())
            && same(self.ring.packet(seq), self.plain.packet(seq))
            && same(
                self.ring.packet(self.plain.sealed),
                self.plain.packet(self.plain.sealed),
            )
    }
}

/// So many calls: do all answers agree, and all that the rings tell after each?
fn agree(alloc: Global, calls: u32) -> Result<bool, AllocError> {
    let mut both = Both {
        ring: SendRing::with_depth(alloc, 5, 72)?,
        plain: PlainRing::with_depth(alloc, 5),
    };
    let mut state = 7;
    for _ in 0..calls {
        state = draw(state);
        if !both.call(alloc, state)? || !both.tell() {
            return Ok(false);
        }
    }
    Ok(both.plain.sealed > calls / 10)
}

#[test]
fn a_thousand_drawn_calls_answer_as_the_plain_ring(rt: HostRuntime) -> Result<(), Fail> {
    assert!(rt; agree(rt.alloc(), 1000)?);
    Ok(())
}
