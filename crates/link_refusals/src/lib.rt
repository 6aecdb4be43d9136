//! Refusals for want of a link, and what a reclaim leaves.
//!
//! A home refuses a Get for want of a link only where one is coming free: a pending line holds one, or a line is called in for it. And a reclaim ends with no node listed. The functions here do nothing; their contracts are the laws, for either charge.
#![tactic(auto)]

ghost use Rattle.std.specs.Prelude.{◌≡◌, ℕ, true, List, ◌∷◌, Option, Ok};
ghost use Rattle.op_model.specs.declared.events.Class.{Class};
ghost use Rattle.op_model.specs.declared.events.Class.TheVariants.{Reply};
ghost use Rattle.op_model.specs.declared.events.Event.TheVariants.{Take};
ghost use Rattle.op_model.specs.declared.messages.Msg.{Msg};
ghost use Rattle.op_model.specs.Messages.{InvAck, message};
ghost use Rattle.op_model.specs.declared.state.Wait.TheVariants.{Invalidate};
ghost use Rattle.op_model.specs.declared.state.Grantee.TheVariants.{Nobody};
ghost use Rattle.op_model.specs.Lines.{is_idle, nobody_listed};
ghost use Rattle.op_model.specs.Shares.{program, header_of};
ghost use Rattle.op_model.specs.Events.Step.{Done, effect, after};
ghost use Rattle.op_model.specs.Run.Runs.{InEveryRun};
ghost use Rattle.link_refusals.specs.Refusals.{refuses_link, IsLinkPending};

/// A Get is refused for want of a link only where a pending line of the home holds a link after the event.
pub fn every_link_refusal()
    ensures pending { InEveryRun (λ charge trace _ past. (src dst : ℕ) (class : Class) (victim : Option ℕ) (done : Done) → effect charge trace.sizes (program trace) past.state (Take src dst class victim) ≡ Ok done → refuses_link done.out ≡ true → IsLinkPending trace.sizes (after past.state done) done.node) }
{}

/// The acknowledgement that ends a reclaim leaves no node listed.
pub fn every_reclaim()
    ensures none_listed { InEveryRun (λ charge trace _ past. (src dst line : ℕ) (rest : List Msg) (victim : Option ℕ) (done : Done) → past.state.lane src dst Reply ≡ message line InvAck ∷ rest → effect charge trace.sizes (program trace) past.state (Take src dst Reply victim) ≡ Ok done → (header_of trace.sizes (past.state.share dst) line).wait ≡ Invalidate Nobody → is_idle (header_of trace.sizes ((after past.state done).share dst) line).wait ≡ true → nobody_listed (header_of trace.sizes ((after past.state done).share dst) line).list ≡ true) }
{}
