//! What sizes, histories, choices, streams and traces give, with ample memory.
#![tactic(auto)]

#[cfg(test)]
mod agree;
#[cfg(test)]
mod choices;
#[cfg(test)]
mod flat;
#[cfg(test)]
mod sizes;
#[cfg(test)]
mod streams;
#[cfg(test)]
mod traces;
