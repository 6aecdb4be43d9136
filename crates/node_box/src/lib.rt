//! The box of one node: the node, its outbox, its log and its seat at the shared table. The node makes its events turn by turn.
//!
//! A box is named by a type that stands for one table with its machine and programs, since what a lock gives back is known by its type alone.
#![tactic(auto)]

mod evicting;
mod lanes;
mod named;
mod named_box;
mod open_box;
mod outgoing;
mod processor;
mod search;
mod turns;
mod victims;

pub use named::Named;
pub use named_box::NodeBox;
pub use turns::{HeldCause, Turn};
