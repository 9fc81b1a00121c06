// One packet that waits.

/// A packet that waits for an answer. Items go by `due`, then `conn`, then `seq`.
#[derive(Clone, Copy, Debug, PartialEq, Eq, PartialOrd, Ord)]
pub(crate) struct Item {
    /// The tick at which its time is over.
    pub due: u64,
    pub conn: u32,
    pub seq: u32,
}
