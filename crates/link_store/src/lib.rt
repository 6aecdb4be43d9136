//! The links of one node: a pool in one array, through which the list of free links is threaded.
#![tactic(auto)]

mod entries;
mod links;

pub use links::{Links, NoneFree};
pub use op_model::NoMemory;
