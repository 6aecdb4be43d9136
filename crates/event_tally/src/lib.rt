//! How the events of a run are counted.
//!
//! A machine keeps one number for each of the 27 counts. Event by event it adds the event's marks to them: one mark a count, set where the count counts the event. The marks are told from what is known when the event is done: the event itself, whether its node's own operation was done, the message that it took, the Naks that it sent, and whether it took the Put of a marked load. So no run is ever read again, and the numbers are those of its definition (`tally_of`), whatever the machine is.
#![tactic(auto)]

mod naks;
mod takes;
mod tally;

pub use naks::{Naks, naks_of};
pub use takes::{is_marked_load, take_marks};
pub use tally::{count_up, marks};
