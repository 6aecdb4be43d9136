//! Every run of the eager machine keeps one history on each line: what holds of one line, of the whole machine.
//!
//! A row of the whole machine is that row of its line, with its ages, and leaves every other line as it was, so that what holds of one line holds of each. `IsEagerSound` of `specs/Sound.antt` says it, with each line's history, program order and the cache sets. The functions here do nothing; their contracts are the laws.
#![tactic(auto)]

ghost use Rattle.std.specs.Prelude.{◌≡◌, ◌<◌, ℕ, true, List, ◌∷◌, Option, Some, None, Ok, Err};
ghost use Rattle.op_model.specs.Shares.{Trace, program};
ghost use Rattle.op_model.specs.Run.History.{entries_by};
ghost use Rattle.eager_model.specs.Types.{Class, Event, Msg, Take, VictimUnasked};
ghost use Rattle.eager_model.specs.Node.{meets_row};
ghost use Rattle.eager_model.specs.Step.{AgedDone, effect};
ghost use Rattle.eager_model.specs.Runs.{Past, run};
ghost use Rattle.eager_model.specs.Laws.{EachLineHasOneHistory};
ghost use Rattle.one_history.specs.Sound.{IsOrdered, IsCached};
ghost use Rattle.eager_history.specs.Project.{plain_past};
ghost use Rattle.eager_history.specs.Sound.{IsLineSound, IsEagerSound};

/// After every run each line has one history: its completed operations in the order of their ages, those of one age as they were served. It is legal by itself, and has each node's completed operations on the line, each once and in the order of its program.
pub fn every_line_history()
    ensures one { EachLineHasOneHistory }
{}

/// After every run each line, with its ages, is good (`IsEagerGood` of `eager_model`). Its words of an age are those after the operations of this age and of all before, and no node's last operation is younger than the copy that it has. All served operations of the line in the order of their ages are legal too, the loads that aren't done yet among them.
pub fn every_line()
    ensures stands { (trace : Trace) (events : List Event) (past : Past) (line : ℕ) → 0 < trace.sizes.words → run trace events ≡ Some past → IsLineSound trace past line }
{}

/// The message at the front of a lane meets a row at its taker. So a Take is refused for no cause but that of a victim that is given.
pub fn every_front()
    ensures meets { (trace : Trace) (events : List Event) (past : Past) (src dst : ℕ) (class : Class) (m : Msg) (rest : List Msg) → 0 < trace.sizes.words → run trace events ≡ Some past → past.state.lane src dst class ≡ m ∷ rest → meets_row trace.sizes dst (past.state.share dst) src m ≡ true }
    ensures taken { (trace : Trace) (past : Past) (src dst : ℕ) (class : Class) (m : Msg) (rest : List Msg) → past.state.lane src dst class ≡ m ∷ rest → (done : AgedDone) × (effect trace.sizes (program trace) past.state past.ages (Take src dst class None) ≡ Ok done) }
    ensures refused { (trace : Trace) (past : Past) (src dst : ℕ) (class : Class) (victim : ℕ) (m : Msg) (rest : List Msg) → past.state.lane src dst class ≡ m ∷ rest → effect trace.sizes (program trace) past.state past.ages (Take src dst class (Some victim)) ≡ Err VictimUnasked }
{}

/// What each node has served, on all lines together, are the first operations of its program in order, and the one that it has begun stands last where it was served. A cache set never holds two lines, nor another one than its node waits for.
pub fn every_node()
    ensures ordered { (trace : Trace) (events : List Event) (past : Past) (node : ℕ) → 0 < trace.sizes.words → run trace events ≡ Some past → IsOrdered trace node (past.state.share node) (entries_by node (plain_past past).served) }
    ensures cached { (trace : Trace) (events : List Event) (past : Past) (node : ℕ) → 0 < trace.sizes.words → run trace events ≡ Some past → IsCached trace.sizes (past.state.share node) }
{}

/// Every state that a run reaches is sound: all of this holds of it, and each message in a lane has its age beside it.
pub fn every_state()
    ensures holds { (trace : Trace) (events : List Event) (past : Past) → 0 < trace.sizes.words → run trace events ≡ Some past → IsEagerSound trace past }
{}
