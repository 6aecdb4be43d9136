//! All nodes of a machine in threads: each processor and each controller is a role of its own, and the logs of the nodes are merged into the journal of one run.
#![tactic(auto)]

mod ending;
mod gate;
mod player;
mod roles;
mod run;
mod start;

pub use ending::Ran;
pub use gate::{Gate, Role};
pub use run::run_threads;
