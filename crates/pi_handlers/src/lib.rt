//! What a node's own processor does.
#![tactic(auto)]

mod beginning;
mod hitting;
mod issuing;
mod serving;

pub use hitting::{can_hit, hit};
pub use issuing::{can_issue, issue};
