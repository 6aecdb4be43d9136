//! What a chart makes of a trace: the run of the trace's own steps, and the picture of that run.
#![tactic(auto)]

mod charting;

pub use charting::{ChartError, chart_text};
