//! The words of the program, and the command that they name.
#![tactic(auto)]

mod command;

pub use command::{Command, EagerPlay, Lists, Play, View};
