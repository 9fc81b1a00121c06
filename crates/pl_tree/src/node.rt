// The tree of a plan.
use ic_base::Text;
use ic_row::Key;
use pl_expr::Expr;
use sqlite_items::{Boxed, Items};

/// Positions of columns from 0, in order.
pub type Columns = Items<u32>;

/// Sort keys: rows go by the first, then by the next.
pub type Keys = Items<Key>;

/// The pairs that a join asks to be equal.
pub type Pairs = Items<Pair>;

/// The calls of an aggregate, one column for each.
pub type Calls = Items<Call>;

/// A column of a join's left side and one of its right side, each by its position from 0 in that side.
#[derive(Clone, Copy, Debug, PartialEq, Eq)]
pub struct Pair {
    pub left: u32,
    pub right: u32,
}

/// What an aggregate computes of a group.
#[derive(Clone, Copy, Debug, PartialEq, Eq)]
pub enum Call {
    /// How many rows there are. SQL's `count(*)`.
    Count,
    /// How many values of a column aren't null.
    CountOf(u32),
    /// Their sum, as a wide; null if there are none.
    Sum(u32),
    /// The least of them; null if there are none.
    Min(u32),
    /// The greatest of them; null if there are none.
    Max(u32),
}

/// How far an aggregate goes.
#[derive(Drop, Debug)]
pub enum Stage {
    /// Rows in, whole groups out.
    Single { group: Columns, calls: Calls },
    /// Rows in, what one place has of each group out. A final stands over it, with at most one motion between.
    Partial { group: Columns, calls: Calls },
    /// What a partial gave in, whole groups out. Group and calls are the partial's.
    Final,
}

/// A node of a plan, with the nodes whose rows it takes. Positions count the columns of these rows from 0.
#[derive(Drop, Debug)]
#[cycle(node)]
pub enum Node {
    /// The rows of a table.
    Scan {
        table: Text,
    },
    /// The rows of which the predicate is true.
    Filter {
        test: Expr,
        child: Boxed<Node>,
    },
    /// Some columns of each row, in this order.
    Project {
        columns: Columns,
        child: Boxed<Node>,
    },
    /// The first rows, as many as this.
    Limit {
        count: u64,
        child: Boxed<Node>,
    },
    /// The rows in the order of the keys.
    Sort {
        keys: Keys,
        child: Boxed<Node>,
    },
    /// Left and right rows side by side, for each two whose pairs are all equal and not null.
    Join {
        left: Boxed<Node>,
        right: Boxed<Node>,
        pairs: Pairs,
    },
    /// A row for each group.
    Agg {
        stage: Stage,
        child: Boxed<Node>,
    },
    /// A motion of all rows to the dispatcher; with an order it merges sorted senders. Greenplum's Gather Motion.
    Gather {
        order: Option<Keys>,
        child: Boxed<Node>,
    },
    /// A motion of each row to the segment that its keys name. Greenplum's Redistribute Motion.
    Redistribute {
        keys: Columns,
        child: Boxed<Node>,
    },
    /// A motion of each row to every segment. Greenplum's Broadcast Motion.
    Broadcast {
        child: Boxed<Node>,
    },
}

/// A plan: the node at its root, whose rows are the answer.
#[derive(Drop, Debug)]
pub struct Plan {
    pub root: Node,
}
