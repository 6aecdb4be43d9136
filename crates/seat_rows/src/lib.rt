//! Seats of a table, and the boxes of nodes, with ample memory.
#![tactic(auto)]

#[cfg(test)]
mod agree;
#[cfg(test)]
mod boxes;
#[cfg(test)]
mod seats;
