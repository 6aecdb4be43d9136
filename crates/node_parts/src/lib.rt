//! The law of parts: a step that a node does by itself, from its own part, is a step of the machine that all parts make together.
//!
//! A part (`Part` of `op_model`) is what one node knows: its share, what it has sent, how far its lanes have come, and what it has noted of their cells. The functions here do nothing; their contracts are the laws, for either charge.
#![tactic(auto)]

ghost use Rattle.std.specs.Prelude.{◌≡◌, ℕ, ◌<◌, ◌+◌, ◌-◌, if◌then◌else◌, List, [], ◌∷◌, ◌++◌, drop, length, Option, Some, Ok};
ghost use Rattle.line_map.specs.Sizes.{Sizes, home_of};
ghost use Rattle.op_model.specs.declared.events.Class.{Class};
ghost use Rattle.op_model.specs.declared.events.Class.TheVariants.{Request};
ghost use Rattle.op_model.specs.declared.events.EvictKind.{EvictKind};
ghost use Rattle.op_model.specs.declared.events.Event.{Event};
ghost use Rattle.op_model.specs.declared.events.Event.TheVariants.{Hit, Issue, Evict, Take, Reclaim};
ghost use Rattle.op_model.specs.declared.messages.Msg.{Msg};
ghost use Rattle.op_model.specs.Shares.{Trace, program, Charge};
ghost use Rattle.op_model.specs.Events.Node.{HitNext, IssueNext, EvictLine, TakeFrom, ReclaimLine, NodeOutcome, local};
ghost use Rattle.op_model.specs.Events.Step.{Programs, put_at, departures, step};
ghost use Rattle.op_model.specs.Run.Runs.{Past, start, run};
ghost use Rattle.op_model.specs.Parts.Part.{Part, logged, parts_at_start, put_lane, sent_to, flushed_to, taken_from, cleared_from, out_note, in_note, notes_empty, named, gate_count, own_room};
ghost use Rattle.op_model.specs.Parts.OwnStep.{after_outcome, own_step};
ghost use Rattle.op_model.specs.Parts.Composition.{compose, IsReady, IsOwnChange};
ghost use Rattle.op_model.specs.Parts.Journal.{IsJournal};

/// Where the parts are ready and a part's own step isn't refused, the machine that they make takes that step too, to what the parts then make, and so does every run that has come to it. An own step changes only its part's share, what it has sent, at its end, and what it has taken: of a lane at most one message, and only where a note names one. A part counts for the gate on evictions what it hasn't flushed, and the last message that it flushed too unless a note says that the cell is empty.
pub fn every_own_step()
    ensures law { (charge : Charge) (sizes : Sizes) (programs : Programs) (parts : ℕ → Part) (node : ℕ) → IsReady sizes programs parts node → (event : Event) (after : Part) → own_step charge (parts node) event ≡ Some after → step charge sizes programs (compose parts) event ≡ Ok (compose (put_at parts node after)) }
    ensures run { (charge : Charge) (trace : Trace) (events : List Event) (past : Past) (parts : ℕ → Part) (node : ℕ) (event : Event) (after : Part) → run charge trace events ≡ Some past → past.state ≡ compose parts → IsReady trace.sizes (program trace) parts node → own_step charge (parts node) event ≡ Some after → (next : Past) × (run charge trace (events ++ event ∷ []) ≡ Some next) × (next.state ≡ compose (put_at parts node after)) }
    ensures change { (charge : Charge) (p : Part) (event : Event) (q : Part) → own_step charge p event ≡ Some q → IsOwnChange p q }
    ensures count { (p : Part) (node : ℕ) → gate_count p node ≡ departures (drop (flushed_to p node Request - (if notes_empty (out_note p node Request) then 0 else 1)) (sent_to p node Request)) }
{}

/// Where a node does something with its share, its part's own step goes on, to what the node does: with the next operation, with a line of its cache or of its memory, and with the message that a note names in a lane whose cell is cleared.
pub fn every_own_outcome()
    ensures hit { (charge : Charge) (part : Part) (out : NodeOutcome) → local charge part.sizes part.number part.program part.share HitNext ≡ Ok out → own_step charge part (Hit part.number) ≡ Some (after_outcome part part.taken out) }
    ensures issue { (charge : Charge) (part : Part) (out : NodeOutcome) → local charge part.sizes part.number part.program part.share IssueNext ≡ Ok out → own_step charge part (Issue part.number) ≡ Some (after_outcome part part.taken out) }
    ensures evict { (charge : Charge) (part : Part) (line : ℕ) (kind : EvictKind) (out : NodeOutcome) → local charge part.sizes part.number part.program part.share (EvictLine line kind (own_room part line)) ≡ Ok out → own_step charge part (Evict part.number line kind) ≡ Some (after_outcome part part.taken out) }
    ensures take { (charge : Charge) (part : Part) (src : ℕ) (class : Class) (victim : Option ℕ) (m : Msg) (out : NodeOutcome) → taken_from part src class ≡ cleared_from part src class → named part.sizes (in_note part src class) ≡ Some m → local charge part.sizes part.number part.program part.share (TakeFrom src m victim) ≡ Ok out → own_step charge part (Take src part.number class victim) ≡ Some (after_outcome part (put_lane part.taken src class (taken_from part src class + 1)) out) }
    ensures reclaim { (charge : Charge) (part : Part) (line : ℕ) (out : NodeOutcome) → home_of part.sizes line ≡ part.number → local charge part.sizes part.number part.program part.share (ReclaimLine line) ≡ Ok out → own_step charge part (Reclaim line) ≡ Some (after_outcome part part.taken out) }
{}

/// The machine that the parts make depends on a part's share, on what it has sent and on what it has taken alone: a note, a flush, a cleared cell and an entry of the log leave it as it was.
pub fn every_quiet_change()
    ensures same { (parts : ℕ → Part) (node : ℕ) (part : Part) → part.share ≡ (parts node).share → part.sent ≡ (parts node).sent → part.taken ≡ (parts node).taken → compose (put_at parts node part) ≡ compose parts }
    ensures alike { (parts : ℕ → Part) (node : ℕ) (p q : Part) → p.share ≡ q.share → p.sent ≡ q.sent → p.taken ≡ q.taken → compose (put_at parts node p) ≡ compose (put_at parts node q) }
{}

/// Where the parts have a journal that runs to the machine that they make, and a part's own step isn't refused, the event that draws the next ticket goes to the journal's end: the parts with the entry in that part's log have this journal, and it runs to what they then make.
pub fn every_ticket()
    ensures journal { (charge : Charge) (trace : Trace) (journal : List Event) (past : Past) (parts : ℕ → Part) (node : ℕ) (event : Event) (after : Part) → node < trace.sizes.nodes → IsJournal trace.sizes.nodes parts journal → run charge trace journal ≡ Some past → past.state ≡ compose parts → IsReady trace.sizes (program trace) parts node → own_step charge (parts node) event ≡ Some after → IsJournal trace.sizes.nodes (put_at parts node (logged after (record { ticket = length journal; event = event }))) (journal ++ event ∷ []) }
    ensures run { (charge : Charge) (trace : Trace) (journal : List Event) (past : Past) (parts : ℕ → Part) (node : ℕ) (event : Event) (after : Part) → node < trace.sizes.nodes → IsJournal trace.sizes.nodes parts journal → run charge trace journal ≡ Some past → past.state ≡ compose parts → IsReady trace.sizes (program trace) parts node → own_step charge (parts node) event ≡ Some after → (next : Past) × (run charge trace (journal ++ event ∷ []) ≡ Some next) × (next.state ≡ compose (put_at parts node (logged after (record { ticket = length journal; event = event })))) }
{}

/// The parts at the start make the start of the machine, and are ready for a step of each node, and have the empty journal.
pub fn parts_at_first()
    ensures composed { (sizes : Sizes) (programs : Programs) → compose (parts_at_start sizes programs) ≡ (start sizes).state }
    ensures ready { (sizes : Sizes) (programs : Programs) (node : ℕ) → IsReady sizes programs (parts_at_start sizes programs) node }
    ensures journal { (nodes : ℕ) (sizes : Sizes) (programs : Programs) → IsJournal nodes (parts_at_start sizes programs) [] }
{}
