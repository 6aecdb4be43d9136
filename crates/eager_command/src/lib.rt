//! What a command makes of a trace by the eager core: its run, and the text of the run.
#![tactic(auto)]

mod machines;
mod playing;
mod texts;

pub use texts::eager_text;
