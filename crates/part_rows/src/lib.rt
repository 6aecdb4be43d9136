//! The words of messages, and lists of nodes as linked lists and as bit vectors.
#![tactic(auto)]

#[cfg(test)]
mod agree;
#[cfg(test)]
mod bit_lists;
#[cfg(test)]
mod calls;
#[cfg(test)]
mod linked_lists;
#[cfg(test)]
mod messages;
