//! The two workers of a gather over a scan: one sends the rows of a segment on one connection, the other takes them
//! from every sender. No hub, no operator, no thread and no clock. What they know of connections is what a [`Port`]
//! says.
//!
//! Each `turn` makes at most one call of the port and never waits. A driver calls `turn` until the answer is `Waiting`
//! or `Done`, and comes back later if it was `Waiting`. After `Done`, and after an error, each further turn gives the
//! same answer and makes no call.
//!
//! Below: `ic_chunk`, `ic_row`, `ic_base`. Above: whatever runs the workers of a query over hubs.
//!
//! [`Port`]: ic_base::Port
#![tactic(auto)]

mod course;
mod cutter;
mod gatherer;
mod laws;
mod scanner;

pub use course::{Course, Turned, WorkNo};
pub use gatherer::Gatherer;
pub use laws::{lets_out_all, puts_all};
pub use scanner::Scanner;
