//! What a chart shows of a run: a stroke for each event, and for each message that was taken the event that sent it.
#![tactic(auto)]

mod strokes;

pub use strokes::{Letter, Stroke};
