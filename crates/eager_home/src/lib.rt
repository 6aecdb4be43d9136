//! One node of the eager core: a writer has its words at once, and the line drains. Beside the handlers that the delayed core doesn't have, all handlers of a node as one step, with the ages of its words.
#![tactic(auto)]

mod acks;
mod acting;
mod aged;
mod ages;
mod aging;
mod grants;
mod node;
mod taking;
mod writes;

pub use acks::on_inv_ack;
pub use aging::{AgedEffect, age_sent};
pub use grants::on_getx;
pub use magic_node::LocalEvent;
pub use node::EagerNode;
pub use writes::{can_issue, issue};
