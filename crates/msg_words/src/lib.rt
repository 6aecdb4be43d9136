//! Messages as words, the list of the messages that a node sends at one event, and a queue of messages.
#![tactic(auto)]

mod queue;
mod sends;
mod words;

pub use op_model::{Class, Msg, NakCause, NoMemory};
pub use queue::MsgQueue;
pub use sends::Sends;
pub use words::{BadWord, from_words, message_words};
