//! Both ends of a motion, over whatever port a worker has. The sending end cuts rows into chunks and puts them to their
//! receivers. The receiving end takes the parcels of all senders, joins them to rows, and gives these one by one. No hub, no
//! operator, no thread and no clock.
//!
//! Each call makes at most one call of the port and never waits: if the answer is `Wait`, the worker comes back later. After an
//! error each further call gives the same error and makes no call.
//!
//! A worker that sends calls [`MotionOut::send`] with a row until the answer is `Done`, and then with the next row. After the
//! last row it calls [`MotionOut::end`] until the answer is `Done`. If the answer is `AllStopped`, no receiver wants more.
//!
//! A worker that receives calls [`MotionIn::pull`] for the next row. Once it wants no more rows, it calls
//! [`MotionIn::halt_all`] until the answer is `Done`.
//!
//! Below: `ic_chunk`, `ic_row`, `ic_base`, and `pl_tree` for the words of plans. Above: the worker of a slice.
#![tactic(auto)]

mod answers;
mod ending;
mod halting;
mod kinds;
mod laws;
mod motion_in;
mod motion_out;
mod picking;
mod putting;
mod taking;
mod target;
mod track;
mod work;

pub use answers::{Got, MotionEnd, MotionKind, MotionNo, Sent};
pub use laws::{hears_pass, sends_pass};
pub use motion_in::MotionIn;
pub use motion_out::MotionOut;

#[cfg(test)]
mod tests;
