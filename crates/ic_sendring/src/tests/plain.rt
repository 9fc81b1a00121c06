// The ring as a queue of packets with a buffer each, in plain Rust: the reference for the block of payloads.
use crate::SealNo;
use std::alloc::{AllocError, Global};
use std::collections::VecDeque;

#[derive(Drop)]
pub(crate) struct Kept {
    pub seq: u32,
    pub last: bool,
    pub payload: Vec<u8>,
}

#[derive(Drop)]
pub(crate) struct PlainRing {
    pub depth: usize,
    pub sealed: u32,
    /// How many of the kept packets were sent, the first ones.
    pub sent: usize,
    /// By increasing number without a gap.
    pub kept: VecDeque<Kept>,
}

impl PlainRing {
    pub(crate) fn with_depth(alloc: Global, depth: usize) -> PlainRing {
        PlainRing {
            depth,
            sealed: 0,
            sent: 0,
            kept: VecDeque::new(alloc),
        }
    }

    pub(crate) fn seal(
        &mut self,
        alloc: Global,
        payload: &[u8],
        last: bool,
    ) -> Result<Result<u32, SealNo>, AllocError> {
        if self.kept.len() >= self.depth {
            return Ok(Err(SealNo::Full));
        }
        let seq = self.sealed.saturating_add(1);
        let payload = Vec::from_slice(alloc, payload)?;
        self.kept.push_back(Kept { seq, last, payload })?;
        self.sealed = seq;
        Ok(Ok(seq))
    }

    pub(crate) fn packet(&self, seq: u32) -> Option<&Kept> {
        for i in 0..self.kept.len() {
            if self.kept[i].seq == seq {
                return Some(&self.kept[i]);
            }
        }
        None
    }

    pub(crate) fn next_unsent(&self) -> Option<&Kept> {
        self.kept.get(self.sent)
    }

    pub(crate) fn sent(&mut self) {
        if self.sent < self.kept.len() {
            self.sent += 1;
        }
    }

    pub(crate) fn acked(&mut self, upto: u32) {
        let before = self.kept.len();
        self.kept.retain(|k| k.seq > upto);
        let freed = before.saturating_sub(self.kept.len());
        self.sent = self.sent.saturating_sub(freed);
    }
}
