//! A home calls a line in, so that the line's links become free.
#![tactic(auto)]

mod calling;

pub use calling::{begin, by_link, can_begin, holds_link, low_water};
