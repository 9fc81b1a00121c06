//! A hub with its history, as the port of its segment's worker. No network, no thread and no clock.
//!
//! Each call of the hub becomes an entry of the history, whose room is taken before the hub is asked: so the history has
//! all that the hub was asked, and the laws of hubs hold of it.
//!
//! Drive it so. `begin` a query with its ends here. Its worker speaks to the node as a [`Port`]. The driver sends what
//! each call `emitted`, hands over what comes by `arrive`, says when a `tick` is over, and ends the query by `leave`.
//! `entries`, `query`, `ends`, `at` and `session` look.
//!
//! Below: `ic_hub`, and `ic_law` for what a worker's log is. Above: whoever runs the nodes of a query over a network.
//!
//! [`Port`]: ic_base::Port
#![tactic(auto)]

mod calls;
mod node;
mod port;
mod telling;
#[cfg(test)]
mod tests;

pub use node::Node;
