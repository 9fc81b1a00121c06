// What a query gathers.

/// The rows of one table, sent by the segments from 0 up to but without a number: one alone if the table is whole at each
/// segment, else all.
#[derive(Clone, Copy, Debug, PartialEq, Eq)]
pub struct Feed {
    /// The table's number, from 0.
    pub table: u32,
    /// How many segments send.
    pub senders: u32,
}
