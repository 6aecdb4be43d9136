//! What the machine notes of its events.

ghost use Rattle.std.specs.Prelude.{◌≡◌, ℕ, ◌≤◌, ◌∷◌, ◌++◌, [], length, map, slice_index, option_to_list, OnOk};
ghost use Rattle.event_tally.specs.Marks.{AreTakeMarks, marked_up, marks_of};
ghost use Rattle.eager_machine.specs.Journals.{HasRoom, IsSameJournal};

use crate::acts::Act;
use eager_report::AgedEntry;
use event_tally::{Naks, count_up, marks};
use op_model::{Event, NoMemory};

/// The events that were made, the entries of the operations that they served with their ages, both in their order, and the numbers of all counts.
#[derive(Drop)]
pub(crate) struct Journal {
    pub(crate) events: Vec<Event>,
    pub(crate) served: Vec<AgedEntry>,
    pub(crate) counts: [u64; 27],
}

impl Journal {
    /// Makes room for one event more and its entry.
    pub(crate) fn reserve(&mut self) -> Result<(), NoMemory>
        ensures same { IsSameJournal self.old self.new }
        ensures room { OnOk result (HasRoom self.new) }
    {
        self.events.reserve(1).map_err(|_| NoMemory)?;
        self.served.reserve(1).map_err(|_| NoMemory)
    }

    /// Notes an event with what it did.
    pub(crate) fn note(&mut self, event: Event, act: &Act, naks: Naks)
        requires room { HasRoom self.old }
        requires counts { (i : ℕ) → slice_index self.old.counts i ≤ length self.old.events.items }
        requires takes { AreTakeMarks act.now.takes }
        ensures events { self.new.events.items ≡ self.old.events.items ++ event ∷ [] }
        ensures served { self.new.served.items ≡ self.old.served.items ++ option_to_list act.now.entry }
        ensures counts { self.new.counts ≡ marked_up self.old.counts (marks_of event act.now.takes act.now.done naks act.now.marked) }
    {
        count_up(
            &mut self.counts,
            &marks(event, &act.takes, act.done, naks, act.marked),
        );
        self.events.push_reserved(event);
        if let Some(entry) = act.entry {
            self.served.push_reserved(entry);
        }
    }
}
