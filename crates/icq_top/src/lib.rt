//! All that the program `sim` does but its rounds: words, document, plans and text. It opens no file and no socket.
//!
//! A caller reads the words, reads the source to its end and then the document, judges its plans, loads its tables, runs
//! its queries, and prints rows and tallies line by line.
#![tactic(auto)]

mod command;
mod judging;
mod line;
mod print;
mod running;
mod stop;
mod words;

pub use command::{Ended, Report, refuse, sim_command};
pub use judging::faults_are_first;
pub use stop::Stop;

#[cfg(test)]
mod tests;
