//! The journal of steps: its text, and the logs that are merged into it.
#![tactic(auto)]

mod fault;
mod forms;
mod log;
mod merging;
mod printing;
mod reading;

pub use fault::{StepCause, StepError};
pub use log::Log;
pub use merging::{every_journal, merge};
pub use printing::{print_steps, put_journal, put_steps};
pub use reading::{MOST_STEPS, Stop, read_section, read_steps};
