//! Rows of a machine over linked directories, worked by hand, over both kinds of lanes.
#![tactic(auto)]

mod fixtures;
#[cfg(test)]
mod tests;

pub use fixtures::{Access, first_dirs, is_of_machine, programs_of};
