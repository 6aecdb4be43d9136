//! A history, read from a report and judged by its programs and one flat memory alone.
#![tactic(auto)]

mod cut;
mod fault;
mod forms;
mod history;
mod judging;
mod reading;

pub use cut::{Cut, cut_trace};
pub use fault::{CheckError, EntriesError, EntryCause};
pub use history::every_history;
pub use judging::check_history;
pub use reading::read_entries;
