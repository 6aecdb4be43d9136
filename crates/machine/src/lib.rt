//! All nodes of the machine with the lanes between them.
#![tactic(auto)]

mod acts;
mod driven;
mod enabled;
mod entries;
mod journal;
mod linked;
mod machine;
mod nodes;
mod reads;
mod reported;
mod run;
mod sending;
mod viewed;

pub use entries::{own_entry, wanted_entry};
pub use machine::Machine1;
pub use machine_face::ApplyError;
