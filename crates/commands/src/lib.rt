//! What each command makes of a trace: its run, and the text of the run.
#![tactic(auto)]

mod journaled;
mod machines;
mod playable;
mod playing;
mod replaying;
mod texts;
mod viewing;

pub use journaled::journal_output;
pub use playable::Playable;
pub use replaying::{ReplayError, stopped};
pub use texts::{bits_text, command_text, command_text_over};
pub use viewing::{ViewError, machine_of, view_text};
