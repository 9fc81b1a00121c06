// Payloads joined to rows.
ghost use Rattle.std.specs.Prelude.{◌≡◌, ℕ, List, [], ◌∷◌, ◌++◌, length, drop, false, IfOk, OnErr, IsErrOf};
ghost use Rattle.ic_row.specs.Values.{Datum};
ghost use Rattle.ic_chunk.specs.Seen.{IsBytes};

use crate::draft::Draft;
use crate::fault::FeedNo;
use ic_row::Rows;
use std::alloc::Global;
use std::marker::Model;
use std::mem;

/// What one payload gave.
#[derive(Drop, Debug)]
pub struct Fed {
    /// The rows that ended in this payload.
    pub rows: Rows,
    /// Whether the stream has ended, with this payload or before.
    pub ended: bool,
}

/// The receiving end of one stream of chunks. Feed it the payloads of one sender in the order of their packets.
///
/// Between two calls it keeps only the bytes of an unfinished row. A payload that it refuses leaves it unchanged, so it
/// can be fed another one.
#[derive(Drop)]
pub struct Joiner {
    /// The bytes of an unfinished row.
    rest: Vec<u8>,
    ended: bool,
}

impl Model for Joiner {
    ghost use Rattle.ic_chunk.specs.Joining.{Held};

    ghost Value = { Held };

    ghost view = { λ j. record { rest = j.rest.items; ended = j.ended } };
}

impl Joiner {
    ghost use Rattle.ic_chunk.specs.Assembly.{IsStream, IsFaultAt};
    ghost use Rattle.ic_chunk.specs.Joining.{Held, Stands, IsTold};

    /// A joiner that has taken nothing. Takes no memory.
    pub fn new(alloc: Global) -> Joiner
        ensures value { result ≡ record { rest = []; ended = false } }
        ensures stands { Stands result [] [] }
    {
        Joiner {
            rest: Vec::new(alloc),
            ended: false,
        }
    }

    /// Takes the next payload. Walks its chunks once, and copies the bodies of starts, middles and ends once.
    ///
    /// `ChunkFault` is the doing of the sender, or of a caller that fed payloads in the wrong order.
    pub fn feed(&mut self, alloc: Global, payload: &[u8]) -> Result<Fed, FeedNo>
        // All payloads so far assemble to all rows so far and to what is kept.
        ensures ok { IfOk result (λ fed. (payloads : List (List ℕ)) (rows : List (List Datum))
            → Stands self.old payloads rows → Stands self.new (payloads ++ payload.now ∷ []) (rows ++ fed.rows)) }
        ensures ended { IfOk result (λ fed. self.new.ended ≡ fed.ended) }

        // The payloads are no front of a stream, and this chunk of the new one is the first that can't come next.
        ensures fault { (k : ℕ) → IsErrOf result (FeedNo.ChunkFault k)
            → (payloads : List (List ℕ)) (rows : List (List Datum)) → Stands self.old payloads rows
            → (IsStream (payloads ++ payload.now ∷ []) → ⊥) × IsTold (IsFaultAt payloads payload.now) k }
        ensures err { OnErr result (self.new ≡ self.old) }
    {
        let kept = len_of(self.rest.as_slice());
        let mut draft = Draft {
            bytes: mem::replace(&mut self.rest, Vec::new(alloc)),
            from: 0,
            ended: self.ended,
            rows: Rows::new(alloc),
        };
        match draft.read(alloc, payload) {
            Ok(()) => Ok(self.keep(draft)),
            Err(fault) => {
                self.rest = draft.taken_back(kept);
                Err(fault)
            }
        }
    }

    /// Keeps what was read beyond the last whole row, and gives the rows.
    fn keep(&mut self, draft: Draft) -> Fed
        ensures kept { self.new ≡ record self.old { rest = drop draft.from draft.bytes.items; ended = draft.ended } }
        ensures given { (result.rows ≡ draft.rows) × (result.ended ≡ draft.ended) }
    {
        let Draft {
            mut bytes,
            from,
            ended,
            rows,
        } = draft;
        let left = bytes.len() - from;
        bytes.rotate_left(from);
        bytes.truncate(left);
        self.rest = bytes;
        self.ended = ended;
        Fed { rows, ended }
    }
}

/// The number of bytes.
fn len_of(bytes: &[u8]) -> usize
    ensures count { result ≡ length bytes.now }
    ensures each { IsBytes bytes.now }
{
    bytes.len()
}
