//! The directory with dynamic pointer allocation: of each list the first node stands in the line's record, and each other one in a link of one pool.
#![tactic(auto)]

mod linked;
mod text;

pub use dir_header::{NoRoom, Sharers};
pub use linked::LinkedDir;
pub use op_model::NoMemory;
