//! Charts, from the bytes that come in to the bytes that go out.
#![tactic(auto)]

mod status;
mod tell;
mod top;

pub use flash_top::{Failed, Sink, Source, Status, StdSink, StdSource};
pub use status::ChartStatus;
pub use top::chart_main;
