//! A printed history, judged by the trace before it, and the text of the judgement.
#![tactic(auto)]

mod checking;
mod law;
mod refusal;

pub use checking::check_text;
pub use law::every_input;
pub use refusal::CheckRefusal;
