//! How many messages a lane may hold, and the outboxes of a node.
#![tactic(auto)]

mod bounds;
mod outbox;

pub use bounds::{reply_bound, request_bound};
pub use outbox::Outbox;
