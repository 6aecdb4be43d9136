//! What a run has come to, as text: the whole state of the machine, and the story of one line.
#![tactic(auto)]

mod copies;
mod lanes;
mod lines;
mod memory;
mod nodes;
mod sections;
mod story;
mod viewed;

pub use lanes::name_part;
pub use sections::state_text;
pub use story::Story;
pub use viewed::Viewed;
