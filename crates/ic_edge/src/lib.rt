//! The bytes that come in from outside and go out, as traits. No file, no socket and no clock.
//!
//! A caller takes a `Source` and a `Sink` by bound. The program passes forms over std's reader and writer; tests pass
//! forms in memory, of which any call can be made to fail. Each object counts its faults, so that every reported fault
//! has its cause in the count.
//!
//! Below: `ic_base`. Above: whatever reads input or writes text.
#![tactic(auto)]

mod calls;
mod fails;
mod sink;
mod source;
mod whole;
mod written;

pub use fails::{Fail, Failed, Fails};
pub use sink::{MemSink, Sink, StdSink, SureSink};
pub use source::{MemSource, Source, StdSource, SureSource};
pub use whole::{ReadNo, read_whole};
pub use written::write_all;

#[cfg(test)]
mod tests;
