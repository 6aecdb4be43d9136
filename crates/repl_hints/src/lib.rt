//! A copy leaves a cache, and a home hears of it.
#![tactic(auto)]

mod hints;
mod leaving;

pub use hints::on_rpl;
pub use leaving::{can_evict, evict};
