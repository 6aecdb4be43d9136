//! Logs, merged into one list by their tickets.

ghost use Rattle.std.specs.Prelude.{◌≡◌, ℕ, ◌≤◌, ◌<◌, List, length, slice_get, IfOk};
ghost use Rattle.std.specs.List.{All};
ghost use Rattle.op_model.specs.declared.events.Event.{Event};
ghost use Rattle.op_model.specs.Parts.Part.{Part};
ghost use Rattle.op_model.specs.Parts.Journal.{drawn, Agrees, IsJournal};
ghost use Rattle.step_journal.specs.Logs.{LogList, AreNumbered, AreLogsOf, all_entries, entries_of};
ghost use Rattle.one_journal.specs.SameLogs.{IsMerged};

use crate::log::Log;
use op_model::{Event, NoMemory, Numbered};
use std::alloc::Global;

/// How many entries all logs have, where the number has room.
fn count_entries(logs: &[Log]) -> Result<usize, NoMemory>
    ensures { IfOk result (λ n. n ≡ all_entries logs.now) }
{
    let mut count: usize = 0;
    for log in logs {
        let Some(more) = count.checked_add(log.entries().len()) else {
            return Err(NoMemory);
        };
        count = more;
    }
    Ok(count)
}

/// Puts each entry's event at its ticket.
fn place(journal: &mut [Event], entries: &[Numbered])
    requires within { All (λ e. e.ticket < length journal.old) entries.now }
    requires once { (ticket : ℕ) → drawn ticket entries.now ≤ 1 }
    ensures long { length journal.new ≡ length journal.old }
    ensures agrees { Agrees journal.new entries.now }
    ensures others { (ticket : ℕ) → drawn ticket entries.now ≡ 0 → slice_get journal.new ticket ≡ slice_get journal.old ticket }
{
    for entry in entries {
        journal[entry.ticket as usize] = entry.event;
    }
}

/// The events of all logs by their tickets, which are the numbers below their total, each once.
pub fn merge(alloc: Global, logs: &[Log]) -> Result<Vec<Event>, NoMemory>
    requires { AreNumbered logs.now }
    ensures { IfOk result (λ v. IsMerged (entries_of logs.now) v.items) }
{
    let count = count_entries(logs)?;
    let Ok(mut journal) = vec![in alloc; Event::Hit { node: 0 }; count] else {
        return Err(NoMemory);
    };
    for log in logs {
        place(&mut journal, log.entries());
    }
    Ok(journal)
}

/// The logs of parts that have a journal are numbered, and the journal is what they are merged into. `one_journal::every_journal` says that there is only one such list.
pub fn every_journal()
    ensures numbered { (nodes : ℕ) (parts : ℕ → Part) (journal : List Event) (logs : List LogList) → AreLogsOf nodes parts logs → IsJournal nodes parts journal → AreNumbered logs }
    ensures merged { (nodes : ℕ) (parts : ℕ → Part) (journal : List Event) (logs : List LogList) → AreLogsOf nodes parts logs → IsJournal nodes parts journal → IsMerged (entries_of logs) journal }
{}
