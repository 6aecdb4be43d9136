//! Runs in threads that come to their end, with ample memory, and roles that wait for one another.
#![tactic(auto)]

#[cfg(test)]
mod tests;
