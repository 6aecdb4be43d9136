//! Schedules: they drive a machine by events that its state determines.
//!
//! A schedule delivers what is under way, message by message, and where nothing is it goes on with the operation that it chooses. Each event is found by a few reads of the state, and its count is bounded by the laws of the schedules.
#![tactic(auto)]

mod by_seed;
mod candidates;
mod draws;
mod finishing;
mod in_order;
mod making;
mod next;
mod steps;

pub use by_seed::seeded_run;
pub use draws::seeded;
pub use finishing::finish;
pub use in_order::serial;
pub use steps::Steps;
