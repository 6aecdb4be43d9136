//! All nodes of the eager core with the lanes between them.
#![tactic(auto)]

mod acts;
mod eager;
mod entries;
mod journal;
mod lanes;
mod nodes;
mod queue;
mod reads;
mod run;
mod sending;
mod serial;
mod text;

pub use eager::EagerMachine;
pub use machine_face::ApplyError;
