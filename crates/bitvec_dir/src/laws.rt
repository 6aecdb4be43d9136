//! Which runs come out the same whether lists cost links or not. The functions here do nothing; their contracts are the laws.

ghost use Rattle.std.specs.Prelude.{◌≡◌, false, true, List, Some, Ok};
ghost use Rattle.line_map.specs.Sizes.{Sizes};
ghost use Rattle.op_model.specs.declared.events.Event.{Event};
ghost use Rattle.op_model.specs.Lines.{NoService};
ghost use Rattle.op_model.specs.Shares.{Trace, Linked, Unlinked, State};
ghost use Rattle.op_model.specs.Events.Step.{Done, Programs, effect};
ghost use Rattle.op_model.specs.Run.Runs.{Past, run};
ghost use Rattle.op_model.specs.Run.History.{history};
ghost use Rattle.op_model.specs.Run.Counts.{taken_by};
ghost use Rattle.bitvec_dir.specs.Linkless.{finds_no_link, refuses_for_room, turns_on_links, trace_moments, AreLinkless, IsLinkless};

/// An event that doesn't turn on links does the same whether lists cost links or not, or is refused for the same cause.
pub fn every_linkless_event()
    ensures { (sizes : Sizes) (programs : Programs) (state : State) (event : Event) → turns_on_links sizes state event ≡ false → effect Unlinked sizes programs state event ≡ effect Linked sizes programs state event }
{}

/// A Get that finds no link is refused, as NoLink or as Budget, and no event that turns on links serves an operation.
pub fn every_lacked_link()
    ensures refuses { (sizes : Sizes) (programs : Programs) (state : State) (event : Event) (done : Done) → finds_no_link sizes state event (taken_by state event) ≡ true → effect Linked sizes programs state event ≡ Ok done → refuses_for_room done.out ≡ true }
    ensures unserved { (sizes : Sizes) (programs : Programs) (state : State) (event : Event) (done : Done) → turns_on_links sizes state event ≡ true → effect Linked sizes programs state event ≡ Ok done → done.out.served ≡ NoService }
{}

/// A run over lists that cost links, none of whose events turns on links, is a run over lists that cost none. Both end in one state, since links are no part of a state, and have one history; and each event does the same in both. So is a run over lists that cost none, none of whose events would turn on links, one over lists that cost them.
pub fn every_linkless_run()
    ensures runs { (trace : Trace) (events : List Event) (past : Past) → IsLinkless trace events past → run Unlinked trace events ≡ Some past }
    ensures agree { (trace : Trace) (events : List Event) (past other : Past) → IsLinkless trace events past → run Unlinked trace events ≡ Some other → (other.state ≡ past.state) × (history other ≡ history past) }
    ensures alike { (trace : Trace) (events : List Event) (past : Past) → IsLinkless trace events past → trace_moments Unlinked trace events ≡ trace_moments Linked trace events }
    ensures back { (trace : Trace) (events : List Event) (past : Past) → run Unlinked trace events ≡ Some past → AreLinkless trace.sizes (trace_moments Unlinked trace events) → IsLinkless trace events past }
{}
