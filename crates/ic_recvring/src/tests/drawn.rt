// A thousand drawn calls on both rings, with the same answers.
use super::plain::PlainRing;
use crate::{RecvRing, Store};
use std::alloc::{AllocError, Global};
use std::test::Fail;

/// Both rings.
#[derive(Drop)]
struct Both {
    ring: RecvRing,
    plain: PlainRing,
}

/// The next number of a row that looks random.
fn draw(state: u64) -> u64 {
    state
        .wrapping_mul(6_364_136_223_846_793_005)
        .wrapping_add(1_442_695_040_888_963_407)
}

/// So many bytes, all the same.
fn bytes(alloc: Global, count: usize, byte: u8) -> Result<Vec<u8>, AllocError> {
    let mut payload = Vec::new(alloc);
    payload.resize(count, byte)?;
    Ok(payload)
}

/// Stores a packet, and takes it back.
fn store_and_back(ring: &mut RecvRing, seq: u32, payload: &[u8]) -> Store {
    let _run = ring.run_end();
    match ring.store(seq, payload, false) {
        Store::Stored => {
            ring.take_back(seq);
            Store::Stored
        }
        answer => answer,
    }
}

fn consume(ring: &mut RecvRing) {
    if ring.front().is_some() {
        ring.consume();
    }
}

impl Both {
    fn fronts_agree(&self) -> bool {
        match (self.ring.front(), self.plain.front()) {
            (Some(a), Some(b)) => {
                a.seq == b.seq && a.last == b.last && a.payload == b.payload.as_slice()
            }
            (None, None) => true,
            _ => false,
        }
    }

    fn numbers_agree(&self) -> bool {
        self.ring.run_end() == self.plain.run
            && self.ring.consumed() == self.plain.consumed
            && self.ring.greatest() == self.plain.greatest()
    }

    fn missing_agree(&self, alloc: Global) -> Result<bool, AllocError> {
        let seqs = self.ring.missing(alloc)?;
        let wanted = self.plain.missing(alloc)?;
        Ok(seqs.as_slice() == wanted.as_slice())
    }

    /// One call, which a number names: do both answer the same?
    fn call(&mut self, alloc: Global, drawn: u64) -> Result<bool, AllocError> {
        let kind = drawn >> 60;
        let seq = self.plain.consumed.saturating_add((drawn >> 33 & 7) as u32);
        let payload = bytes(
            alloc,
            (drawn >> 40 & 15) as usize % 10,
            (drawn >> 50 & 255) as u8,
        )?;
        if kind < 8 {
            let last = drawn >> 59 & 1 == 1;
            let answer = self.ring.store(seq, payload.as_slice(), last);
            let wanted = self.plain.store(alloc, seq, payload.as_slice(), last)?;
            return Ok(answer == wanted);
        }
        if kind < 10 {
            let answer = store_and_back(&mut self.ring, seq, payload.as_slice());
            let wanted = self.plain.store(alloc, seq, payload.as_slice(), false)?;
            if wanted == Store::Stored {
                self.plain.take_back(seq);
            }
            return Ok(answer == wanted);
        }
        let agree = self.fronts_agree();
        consume(&mut self.ring);
        if self.plain.front().is_some() {
            self.plain.consume();
        }
        Ok(agree)
    }
}

/// So many calls: do all answers agree, and all that the rings tell after each?
fn agree(alloc: Global, calls: u32) -> Result<bool, AllocError> {
    let mut both = Both {
        ring: RecvRing::with_depth(alloc, 5, 72)?,
        plain: PlainRing::with_depth(alloc, 5, 72),
    };
    let mut state = 7;
    for _ in 0..calls {
        state = draw(state);
        if !both.call(alloc, state)? || !both.numbers_agree() || !both.missing_agree(alloc)? {
            return Ok(false);
        }
    }
    Ok(both.plain.consumed > calls / 10)
}

#[test]
fn a_thousand_drawn_calls_answer_as_the_plain_ring(rt: HostRuntime) -> Result<(), Fail> {
    assert!(rt; agree(rt.alloc(), 1000)?);
    Ok(())
}
