//! What the command `run` writes of a trace: the steps that its threads have made, and the report of their run.
#![tactic(auto)]

mod text;

pub use text::run_text;
pub use thread_run::{Gate, Role};
