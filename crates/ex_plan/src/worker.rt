// Which worker it is.
use ic_base::SegId;

/// The worker of a slice of a query, at a segment. The dispatcher works on slice 0.
#[derive(Clone, Copy, Debug, PartialEq, Eq)]
pub struct WorkerId {
    pub session: u32,
    pub query: u32,
    /// From 0.
    pub slice: u32,
    pub at: SegId,
}
