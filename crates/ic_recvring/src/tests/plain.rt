// The ring as a sorted queue, in plain Rust: the reference for the block of slots.
use crate::Store;
use std::alloc::{AllocError, Global};
use std::collections::VecDeque;

#[derive(Drop)]
pub(crate) struct Kept {
    pub seq: u32,
    pub last: bool,
    pub payload: Vec<u8>,
}

#[derive(Drop)]
pub(crate) struct PlainRing {
    pub depth: u32,
    pub packet: u32,
    pub consumed: u32,
    pub run: u32,
    /// By increasing number.
    pub kept: VecDeque<Kept>,
}

/// How far the run goes on over packets by increasing number.
fn run_over(kept: &VecDeque<Kept>, run: u32) -> u32 {
    let mut end = run;
    for i in 0..kept.len() {
        let seq = kept[i].seq;
        if seq == end.saturating_add(1) {
            end = seq;
        }
    }
    end
}

impl PlainRing {
    pub(crate) fn with_depth(alloc: Global, depth: u32, packet: u32) -> PlainRing {
        PlainRing {
            depth,
            packet,
            consumed: 0,
            run: 0,
            kept: VecDeque::new(alloc),
        }
    }

    fn insert(
        &mut self,
        alloc: Global,
        seq: u32,
        payload: &[u8],
        last: bool,
    ) -> Result<(), AllocError> {
        let payload = Vec::from_slice(alloc, payload)?;
        let place = match self.kept.binary_search_by_key(&seq, |k| k.seq) {
            Ok(place) => place,
            Err(place) => place,
        };
        self.kept.insert(place, Kept { seq, last, payload })?;
        self.run = run_over(&self.kept, self.run);
        Ok(())
    }

    pub(crate) fn has(&self, seq: u32) -> bool {
        self.kept.binary_search_by_key(&seq, |k| k.seq).is_ok()
    }

    pub(crate) fn store(
        &mut self,
        alloc: Global,
        seq: u32,
        payload: &[u8],
        last: bool,
    ) -> Result<Store, AllocError> {
        if seq <= self.run || self.has(seq) {
            return Ok(Store::Duplicate);
        }
        let room = self.packet.saturating_sub(64) as usize;
        if seq.saturating_sub(self.consumed) > self.depth || payload.len() > room {
            return Ok(Store::Beyond);
        }
        self.insert(alloc, seq, payload, last)?;
        Ok(Store::Stored)
    }

    pub(crate) fn take_back(&mut self, seq: u32) {
        self.kept.retain(|k| k.seq != seq);
        self.run = self.run.min(seq.saturating_sub(1));
    }

    pub(crate) fn front(&self) -> Option<&Kept> {
        match self.kept.front() {
            Some(k) if k.seq == self.consumed.saturating_add(1) => Some(k),
            _ => None,
        }
    }

    pub(crate) fn consume(&mut self) {
        if let Some(k) = self.kept.pop_front() {
            self.consumed = k.seq;
        }
    }

    pub(crate) fn greatest(&self) -> u32 {
        match self.kept.back() {
            Some(k) => k.seq,
            None => self.consumed,
        }
    }

    pub(crate) fn missing(&self, alloc: Global) -> Result<Vec<u32>, AllocError> {
        let mut seqs = Vec::new(alloc);
        for seq in 1..=self.greatest() {
            if seq > self.run && !self.has(seq) {
                seqs.push(seq)?;
            }
        }
        Ok(seqs)
    }
}
