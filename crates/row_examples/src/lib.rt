//! Each row of the three tables once as a computed example, and each cause of refusal once.
//!
//! The functions do nothing; their clauses are the examples. The values were worked out by hand from the tables in `docs/protocol.md`, so that the definitions in `op_model` are read against something that isn't made from them.
#![tactic(auto)]

mod home;
mod processor;
mod refusals;
mod remote;

pub use home::home_rows;
pub use processor::processor_rows;
pub use refusals::{causes, first_causes};
pub use remote::{remote_rows, rows_met};
