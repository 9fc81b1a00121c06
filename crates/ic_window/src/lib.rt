//! How many packets one sender may have in flight (congestion window), and how long it waits for an answer. No packets
//! and no clock: the caller says what was freed, lost or measured.
//!
//! A sender keeps one [`Window`] for its connection. `grown`, `lost` and `sample` are events; `room` and `wait` only
//! look. If one event both frees packets and finds others lost, call `sample` and `grown` first. Call `lost` once,
//! after the lost packets were emitted again. The caller counts the ticks.
//!
//! Below: `ic_base`. Above: senders.
#![tactic(auto)]

mod laws;
mod round_trip;
mod window;

pub use laws::{growth_adds, growth_keeps, waits_rise};
pub use window::Window;

#[cfg(test)]
mod tests;
