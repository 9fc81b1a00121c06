// Where the rows of a slice go.
use ic_motion::MotionOut;
use ic_row::{Row, Rows};

/// Where the rows of a slice go.
#[derive(Drop)]
pub(crate) enum Way {
    /// They are the answer: slice 0 lets them out, in order.
    Lets(Rows),
    /// They are sent, and one of them may be in hand, of which not all is sent yet.
    Passes(MotionOut, Option<Row>),
}
