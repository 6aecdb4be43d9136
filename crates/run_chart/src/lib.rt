//! Notes the strokes of a chart while a run is made: a stroke after each event, and the letters that are under way.
#![tactic(auto)]

mod before;
mod chart;
mod entries;
mod letters;
mod posting;

pub use before::Before;
pub use chart::Chart;
