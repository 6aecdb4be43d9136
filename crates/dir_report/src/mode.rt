//! The two modes of a machine.

/// When a machine gives a writer its line: only after every invalidation of the line was acknowledged, or at once, and then the line drains.
#[derive(Clone, Copy, Debug, PartialEq, Eq)]
pub enum Mode {
    Delayed,
    Eager,
}
