//! The picture of a run's strokes, as an SVG document.
#![tactic(auto)]

mod arrows;
mod document;
mod marks;
mod pieces;
mod places;
mod sheet;

pub use document::picture;
