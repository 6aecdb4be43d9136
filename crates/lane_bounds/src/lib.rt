//! How much every run has under way: the pending lines and links of a home, and the messages in a lane, with the way that each goes.
//!
//! The pending lines, the links and the messages of evictions are counted along the run: each event makes no more of them than the tests of the tables let through. The length of a lane is told from `IsGood` of `line_invariant`: per line there is at most one message of each kind, so that a lane holds at most one for each pending line and one for the line that a node has begun, beside those of evictions. The functions here do nothing; their contracts are the laws, for either charge.
#![tactic(auto)]

ghost use Rattle.std.specs.Prelude.{◌≡◌, ◌≤◌, ℕ, [], length, All};
ghost use Rattle.op_model.specs.declared.events.Class.{Class};
ghost use Rattle.op_model.specs.declared.events.Class.TheVariants.{Request, Reply};
ghost use Rattle.op_model.specs.Messages.{msg_class};
ghost use Rattle.op_model.specs.Shares.{pending_lines, held_links};
ghost use Rattle.op_model.specs.Events.Step.{departures};
ghost use Rattle.op_model.specs.Run.Runs.{InEveryRun};
ghost use Rattle.op_model.specs.Run.Bounds.{request_bound, reply_bound, lane_bound};
ghost use Rattle.lane_bounds.specs.Ways.{IsOnWay};

/// No home has more pending lines than it may have, and its lines hold no more links than it has.
pub fn every_home()
    ensures pending { InEveryRun (λ _ trace _ past. (n : ℕ) → pending_lines (past.state.share n) ≤ trace.sizes.pending) }
    ensures links { InEveryRun (λ charge trace _ past. (n : ℕ) → held_links charge (past.state.share n) ≤ trace.sizes.links) }
{}

/// A lane holds a limited number of messages: one of requests at most P + 1 + E, of them at most E writebacks and hints, and one of replies at most P + 1, where P lines of a home may be pending and E is the gate on evictions. No node sends to itself.
pub fn every_lane()
    ensures departures { InEveryRun (λ _ trace _ past. (a b : ℕ) → departures (past.state.lane a b Request) ≤ trace.sizes.evicts) }
    ensures requests { InEveryRun (λ _ trace _ past. (a b : ℕ) → length (past.state.lane a b Request) ≤ request_bound trace.sizes) }
    ensures replies { InEveryRun (λ _ trace _ past. (a b : ℕ) → length (past.state.lane a b Reply) ≤ reply_bound trace.sizes) }
    ensures bound { InEveryRun (λ _ trace _ past. (a b : ℕ) (class : Class) → length (past.state.lane a b class) ≤ lane_bound trace.sizes class) }
    ensures own { InEveryRun (λ _ _ _ past. (n : ℕ) (class : Class) → past.state.lane n n class ≡ []) }
{}

/// Each message in a lane is of the lane's class. A request, what an eviction sends and what is due to a home go to the home of their line; a forward and an invalidation come from it.
pub fn every_message()
    ensures class { InEveryRun (λ _ _ _ past. (a b : ℕ) (class : Class) → All (λ m. msg_class m ≡ class) (past.state.lane a b class)) }
    ensures way { InEveryRun (λ _ trace _ past. (a b : ℕ) (class : Class) → All (IsOnWay trace.sizes a b) (past.state.lane a b class)) }
{}
