//! The program's own gate.

use run_text::{Gate, Role};

/// A gate that lets every role pass at once.
pub struct NoGate;

impl Gate for NoGate {
    fn pass(&self, _node: u32, _role: Role, _turn: u64, _done: u32) {}
}
