//! What an event does to operations.

use line_map::Body;
use op_model::Entry;

/// Which operation an event serves.
#[derive(Clone, Copy)]
pub enum Served {
    Nothing,
    /// The node's own, with this entry.
    Own(Entry),
    /// The load of another node, which is sent these words.
    LoadBy { node: u32, body: Body },
}

/// What an event serves, and the entry of the node's own operation where that is done.
#[derive(Clone, Copy)]
pub struct Effect {
    pub served: Served,
    pub done: Option<Entry>,
}
