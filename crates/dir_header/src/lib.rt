//! The home's part of a node: what a directory promises, headers of lines, the budget of pending lines, and the calls by which handlers change them.
#![tactic(auto)]

mod budget;
mod header;
mod holders;
mod home;
mod line_set;
mod listed;
mod plain;
mod sharers;
mod victim_list;
mod words;

pub use budget::Budget;
pub use header::Header;
pub use home::HomeSide;
pub use listed::Listed;
pub use op_model::{Grantee, Wait};
pub use plain::PlainDir;
pub use sharers::{NoRoom, Sharers};
pub use victim_list::Victims;
