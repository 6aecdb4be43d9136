//! The journal of logs is one list.
//!
//! Each place of a journal has the event that drew its ticket, whatever the order in which the logs are looked at. So a list that is merged from the logs of all nodes by their tickets is the journal that the shared table stands for. The function here does nothing; its contract is the law.
#![tactic(auto)]

ghost use Rattle.std.specs.Prelude.{◌≡◌, ℕ, ◌<◌, List};
ghost use Rattle.op_model.specs.declared.events.Event.{Event};
ghost use Rattle.op_model.specs.declared.events.Numbered.{Numbered};
ghost use Rattle.op_model.specs.Events.Step.{put_at};
ghost use Rattle.op_model.specs.Parts.Part.{Part};
ghost use Rattle.op_model.specs.Parts.Journal.{IsJournalOf, IsJournal};
ghost use Rattle.one_journal.specs.SameLogs.{AreAmong, AreListed, IsMerged};

/// Two journals of the same logs are equal, in whatever order the logs stand, and whether they are told by node or in a list; so there is only one list that logs are merged into. A journal stays one where no log changes: of the parts, where one of them changes in anything but its log.
pub fn every_journal()
    ensures one { (nodes : ℕ) (logs : ℕ → List Numbered) (journal other : List Event) → IsJournalOf nodes logs journal → IsJournalOf nodes logs other → journal ≡ other }
    ensures moved { (nodes others : ℕ) (logs rest : ℕ → List Numbered) (journal other : List Event) → AreAmong nodes logs others rest → AreAmong others rest nodes logs → IsJournalOf nodes logs journal → IsJournalOf others rest other → journal ≡ other }
    ensures merged { (nodes : ℕ) (logs : ℕ → List Numbered) (list : List (List Numbered)) (journal other : List Event) → AreListed nodes logs list → IsJournalOf nodes logs journal → IsMerged list other → journal ≡ other }
    ensures only { (list : List (List Numbered)) (journal other : List Event) → IsMerged list journal → IsMerged list other → journal ≡ other }
    ensures same { (nodes : ℕ) (logs rest : ℕ → List Numbered) (journal : List Event) → ((node : ℕ) → node < nodes → rest node ≡ logs node) → IsJournalOf nodes logs journal → IsJournalOf nodes rest journal }
    ensures quiet { (nodes : ℕ) (parts : ℕ → Part) (node : ℕ) (part : Part) (journal : List Event) → part.log ≡ (parts node).log → IsJournal nodes parts journal → IsJournal nodes (put_at parts node part) journal }
{}
