// Where workers sit.
use ic_base::SegId;

/// The place of one worker of a plan: its slice, and the segment at which it works.
#[derive(Clone, Copy, Debug, PartialEq, Eq)]
pub struct Seat {
    pub slice: u32,
    pub at: SegId,
}
