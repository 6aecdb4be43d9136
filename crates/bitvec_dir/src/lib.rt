//! The directory as bit vectors: of each line one word, which has a bit for each node. Its lists cost no links, and a law says which runs come out the same over it as over linked lists.
#![tactic(auto)]

mod bits;
mod laws;

pub use bits::BitDir;
pub use dir_header::{NoRoom, Sharers};
pub use laws::{every_lacked_link, every_linkless_event, every_linkless_run};
pub use op_model::NoMemory;
