//! The cache of a node and its processor.
#![tactic(auto)]

mod cache;
mod effects;
mod proc;

pub use cache::Cache;
pub use effects::{Effect, Served};
pub use op_model::{CopyState, Want};
pub use proc::Proc;
