//! How tests of rows call the program.
#![tactic(auto)]

mod calls;

pub use calls::{Ended, NEVER, call, ends};
