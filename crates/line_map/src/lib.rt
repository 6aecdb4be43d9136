//! A machine's sizes, its address map, and the words of one line.
#![tactic(auto)]

mod address;
mod body;
mod divisor;
mod machine;

pub use address::{Addr, BadAddr};
pub use body::Body;
pub use machine::{Field, MOST_NODES, Machine, OutOfRange, fits};
