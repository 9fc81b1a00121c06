// What a table says of a connection.

/// What a table says of a connection.
#[derive(Clone, Copy, Debug, PartialEq, Eq)]
pub enum Find {
    /// It is a stranger's: the key is of another session, or its query is live without this connection.
    Foreign,
    /// Its query is live. Holds the connection's position among those of the query, from 0.
    Here(usize),
    /// Its query isn't live, and the query's number isn't above the greatest that has ended.
    Ended,
    /// Its query isn't live, and the query's number is greater than all that have ended: the query may still begin.
    NotBegun,
}

/// The query isn't live. The caller's doing: it never began the query, or has left it already.
#[derive(Clone, Copy, Debug, PartialEq, Eq)]
pub struct NotLive;
