//! The text of a run of the eager core: the histories of all lines with the ages of their entries, the lines whose header isn't the first one, and the counts.
#![tactic(auto)]

mod aged;
mod histories;
mod machine;
mod order;
mod sections;

pub use aged::AgedEntry;
pub use machine::EagerReported;
pub use sections::report;
