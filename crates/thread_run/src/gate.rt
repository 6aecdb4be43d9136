//! The roles, and the gate that each of them passes before its turns.

/// What a thread plays: the processor of a node, or its controller.
#[derive(Clone, Copy, Debug, PartialEq, Eq)]
pub enum Role {
    Processor,
    Controller,
}

/// What is called before each turn of each role, while no lock of a node is held. It promises nothing, and may wait.
pub trait Gate {
    /// `turn` is the number of the role's turn, counted from 0; it stays at the greatest u64. `done` is how many operations the node's processor had completed at the end of this role's last turn, and 0 before the first.
    fn pass(&self, node: u32, role: Role, turn: u64, done: u32);
}
