//! The packets of one receiving connection that came and aren't consumed yet, with no header, no clock and no answer
//! to the peer.
//!
//! A receiver makes one [`RecvRing`] for each connection, which takes all its room at once. Each packet that comes is
//! given to `store`, which says whether it is kept. `run_end`, `greatest` and `missing` are what the receiver tells the
//! sender; a packet that it can't answer because memory ran out is given back by `take_back`. `front` looks at the next
//! packet in order, and `consume` lets it go.
//!
//! Below: std alone. Above: whoever answers for a receiving connection.
#![tactic(auto)]

mod answer;
mod ring;
mod sealed;
mod seqs;
mod slot;
mod window;

pub use answer::Store;
pub use ring::RecvRing;
pub use sealed::Sealed;
pub use seqs::Seqs;

#[cfg(test)]
mod tests;
