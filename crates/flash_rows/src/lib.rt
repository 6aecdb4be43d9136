//! What the rows of the book don't have: inputs that are large or cut short, devices that fail, texts that are compared with one another, and runs in threads.
#![tactic(auto)]

#[cfg(test)]
mod alike;
#[cfg(test)]
mod eager;
#[cfg(test)]
mod faults;
#[cfg(test)]
mod gate;
#[cfg(test)]
mod inputs;
#[cfg(test)]
mod lists;
#[cfg(test)]
mod runs;
