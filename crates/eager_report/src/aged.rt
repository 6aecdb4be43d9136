//! Operations that were served.

use op_model::Entry;

/// An operation that was served, with its age.
#[derive(Clone, Copy)]
pub struct AgedEntry {
    pub age: u64,
    pub entry: Entry,
}
