//! Each cause for which an event is refused, and which of two causes comes first.
//!
//! Each example is one node of a small machine, or the whole machine where lanes count.

ghost use Rattle.std.specs.Prelude.{◌≡◌, [], ◌∷◌, None, Some, Err, true, false};
ghost use Rattle.op_model.specs.Lines.{Shared, Exclusive};
ghost use Rattle.op_model.specs.Shares.{Linked, Unlinked};
ghost use Rattle.op_model.specs.Events.Node.{HitNext, IssueNext, EvictLine, TakeFrom, ReclaimLine, local};
ghost use Rattle.op_model.specs.Events.Step.{effect};
ghost use Rattle.op_model.specs.declared.messages.Msg.TheVariants as msg;
ghost use Rattle.op_model.specs.declared.events.EvictKind.TheVariants as way;
ghost use Rattle.row_examples.specs.Types.{Load, Store, Evict, Take, Reply, NoOp, Outstanding, Miss, HitFirst, Conflict, HeldPending, HeldBudget, NoCopy, WrongKind, LaneGate, LaneEmpty, VictimMissing, VictimUnasked, VictimUnfit, NoLinks, LinePending, BudgetFull, Nobody, ForwardGet, ForwardGetX};
ghost use Rattle.row_examples.specs.Situations.{operation, load_by, store_by, wants, clean, home_owned, owned_by, called, forwarded};
ghost use Rattle.row_examples.specs.Machines.{machine, share_with, share_waiting, no_programs, all_with, one_hint, no_message};

/// Each cause once.
pub fn causes()
    // node 0 has no operation, and neither hits nor issues one
    ensures no_op { local Linked (machine 2 1 1 1 1 1 1) 0 [] (share_with 0 [] []) HitNext ≡ Err NoOp }
    ensures no_op_issue { local Linked (machine 2 1 1 1 1 1 1) 0 [] (share_with 0 [] []) IssueNext
        ≡ Err NoOp }
    // node 1 has begun its load and waits for the words
    ensures outstanding { local Linked (machine 2 1 1 1 1 1 1) 1 (load_by 1 ∷ []) (share_waiting (wants (load_by 1))) IssueNext
        ≡ Err Outstanding }
    // node 1 has no copy, or a shared one and is to store
    ensures miss { local Linked (machine 2 1 1 1 1 1 1) 1 (load_by 1 ∷ []) (share_with 0 [] []) HitNext
        ≡ Err Miss }
    ensures miss_store { local Linked (machine 2 1 1 1 1 1 1) 1 (store_by 1 6 ∷ []) (share_with 0 ((0, Shared (0 ∷ [])) ∷ []) [])
        HitNext
        ≡ Err Miss }
    // node 0 has stored 7 in its own line and is to load it
    ensures hit_first { local Linked (machine 2 1 1 1 1 1 1) 0 (store_by 0 7 ∷ operation 0 1 Load 0 0 ∷ [])
        (share_with 1 ((0, Exclusive (7 ∷ [])) ∷ []) ((0, home_owned (0 ∷ [])) ∷ [])) IssueNext
        ≡ Err HitFirst }
    // node 0 has stored 3 in its line 0 and is to load its line 1, which goes into the same set
    ensures conflict { local Linked (machine 2 2 1 1 1 1 1) 0 (store_by 0 3 ∷ operation 0 1 Load 1 0 ∷ [])
        (share_with 1 ((0, Exclusive (3 ∷ [])) ∷ []) ((0, home_owned (0 ∷ [])) ∷ [])) IssueNext
        ≡ Err Conflict }
    // node 0 is to load its own line, which it has called in for its links; two lines may be pending
    ensures held_pending { local Linked (machine 3 2 1 1 2 2 1) 0 (load_by 0 ∷ [])
        (share_with 0 [] ((0, called Nobody (1 ∷ 2 ∷ []) (0 ∷ [])) ∷ [])) IssueNext
        ≡ Err HeldPending }
    // node 0 is to load its line 1, which node 1 owns, while its line 0 is pending; one line may be
    ensures held_budget { local Linked (machine 4 2 1 2 2 1 1) 0 (operation 0 0 Load 1 0 ∷ [])
        (share_with 0 [] ((0, forwarded (ForwardGet 2) true (1 ∷ 2 ∷ []) (0 ∷ [])) ∷ (1, owned_by 1 (0 ∷ [])) ∷ [])) IssueNext
        ≡ Err HeldBudget }
    // node 0 is to store in its line 1, which node 1 shares, while its line 0 is pending; and where node 1 owns line 1
    ensures held_budget_store { local Linked (machine 4 2 1 2 2 1 1) 0 (operation 0 0 Store 1 5 ∷ [])
        (share_with 0 [] ((0, forwarded (ForwardGet 2) true (1 ∷ 2 ∷ []) (0 ∷ [])) ∷ (1, clean (1 ∷ []) (0 ∷ [])) ∷ [])) IssueNext
        ≡ Err HeldBudget }
    ensures held_budget_owned { local Linked (machine 4 2 1 2 2 1 1) 0 (operation 0 0 Store 1 5 ∷ [])
        (share_with 0 [] ((0, forwarded (ForwardGet 2) true (1 ∷ 2 ∷ []) (0 ∷ [])) ∷ (1, owned_by 1 (0 ∷ [])) ∷ [])) IssueNext
        ≡ Err HeldBudget }
    // node 1 is to drop a line that it doesn't have
    ensures no_copy { local Linked (machine 2 1 1 1 1 1 1) 1 [] (share_with 0 [] []) (EvictLine 0 way.Silent true)
        ≡ Err NoCopy }
    // node 1 is to write a shared copy back
    ensures wrong_kind_wb { local Linked (machine 2 1 1 1 1 1 1) 1 [] (share_with 0 ((0, Shared (0 ∷ [])) ∷ []) [])
        (EvictLine 0 way.Wb true)
        ≡ Err WrongKind }
    // node 1 is to drop an exclusive copy with a hint, or silently
    ensures wrong_kind_hint { local Linked (machine 2 1 1 1 1 1 1) 1 [] (share_with 0 ((0, Exclusive (4 ∷ [])) ∷ []) [])
        (EvictLine 0 way.Hint true)
        ≡ Err WrongKind }
    ensures wrong_kind_silent { local Linked (machine 2 1 1 1 1 1 1) 1 [] (share_with 0 ((0, Exclusive (4 ∷ [])) ∷ []) [])
        (EvictLine 0 way.Silent true)
        ≡ Err WrongKind }
    // node 0 is to drop a shared copy of its own line with a hint
    ensures wrong_kind_home { local Linked (machine 2 1 1 1 1 1 1) 0 [] (share_with 0 ((0, Shared (0 ∷ [])) ∷ []) [])
        (EvictLine 0 way.Hint true)
        ≡ Err WrongKind }
    // node 1 is to drop line 1 with a hint, and its hint of line 0 is still in the lane, which takes one
    ensures lane_gate { effect Linked (machine 2 2 1 1 2 1 1) no_programs
        (all_with (share_with 0 ((1, Shared (0 ∷ [])) ∷ []) []) one_hint)
        (Evict 1 1 way.Hint)
        ≡ Err LaneGate }
    // a reply of node 0 to node 1 is to be taken, and there is none
    ensures lane_empty { effect Linked (machine 2 1 1 1 1 1 1) no_programs (all_with (share_with 0 [] []) no_message)
        (Take 0 1 Reply None)
        ≡ Err LaneEmpty }
    // node 2 wants to load line 1 of node 0, which node 1 shares; the only link is held by line 0, and no victim is given
    ensures victim_missing { local Linked (machine 3 2 1 1 2 1 1) 0 []
        (share_with 0 [] ((0, clean (1 ∷ 2 ∷ []) (0 ∷ [])) ∷ (1, clean (1 ∷ []) (0 ∷ [])) ∷ []))
        (TakeFrom 2 (msg.Get 1) None)
        ≡ Err VictimMissing }
    // the same where the victim is line 1, which holds no link; where it is line 2, which isn't of node 0
    ensures victim_unfit { local Linked (machine 3 2 1 1 2 1 1) 0 []
        (share_with 0 [] ((0, clean (1 ∷ 2 ∷ []) (0 ∷ [])) ∷ (1, clean (1 ∷ []) (0 ∷ [])) ∷ []))
        (TakeFrom 2 (msg.Get 1) (Some 1))
        ≡ Err VictimUnfit }
    ensures victim_elsewhere { local Linked (machine 3 2 1 1 2 1 1) 0 []
        (share_with 0 [] ((0, clean (1 ∷ 2 ∷ []) (0 ∷ [])) ∷ (1, clean (1 ∷ []) (0 ∷ [])) ∷ []))
        (TakeFrom 2 (msg.Get 1) (Some 2))
        ≡ Err VictimUnfit }
    // node 1 wants to load a line that node 0 has stored in, which needs no link, and a victim is given
    ensures victim_unasked { local Linked (machine 2 1 1 1 1 1 1) 0 []
        (share_with 1 ((0, Exclusive (7 ∷ [])) ∷ []) ((0, home_owned (0 ∷ [])) ∷ []))
        (TakeFrom 1 (msg.Get 0) (Some 0))
        ≡ Err VictimUnasked }
    // node 2 wants to store in line 1, which node 1 shares: a GetX needs no link
    ensures victim_for_store { local Linked (machine 3 2 1 1 2 1 1) 0 []
        (share_with 0 [] ((0, clean (1 ∷ 2 ∷ []) (0 ∷ [])) ∷ (1, clean (1 ∷ []) (0 ∷ [])) ∷ []))
        (TakeFrom 2 (msg.GetX 1) (Some 0))
        ≡ Err VictimUnasked }
    // a Get is refused for another reason than the want of a victim: its line is pending (H1), a pending line holds the link (H2), or the
    // budget is used up (H3)
    ensures victim_pending { local Linked (machine 3 2 1 1 2 2 1) 0 []
        (share_with 0 [] ((0, clean (1 ∷ 2 ∷ []) (0 ∷ [])) ∷ (1, called Nobody (1 ∷ []) (0 ∷ [])) ∷ []))
        (TakeFrom 2 (msg.Get 1) (Some 0))
        ≡ Err VictimUnasked }
    ensures victim_held { local Linked (machine 4 2 1 1 2 1 1) 0 []
        (share_with 0 [] ((0, forwarded (ForwardGet 2) true (1 ∷ 2 ∷ []) (0 ∷ [])) ∷ (1, owned_by 1 (0 ∷ [])) ∷ []))
        (TakeFrom 3 (msg.Get 1) (Some 0))
        ≡ Err VictimUnasked }
    ensures victim_full { local Linked (machine 3 3 1 1 3 1 1) 0 []
        (share_with 0 [] ((0, forwarded (ForwardGetX 2) true (1 ∷ []) (0 ∷ []))
        ∷ (1, clean (1 ∷ []) (0 ∷ [])) ∷ (2, clean (1 ∷ 2 ∷ []) (0 ∷ [])) ∷ []))
        (TakeFrom 2 (msg.Get 1) (Some 2))
        ≡ Err VictimUnasked }
    // the Get of node 2 for line 1, which would ask for a victim, in a directory whose lists hold no links
    ensures victim_unlinked { local Unlinked (machine 3 2 1 1 2 1 1) 0 []
        (share_with 0 [] ((0, clean (1 ∷ 2 ∷ []) (0 ∷ [])) ∷ (1, clean (1 ∷ []) (0 ∷ [])) ∷ []))
        (TakeFrom 2 (msg.Get 1) (Some 0))
        ≡ Err VictimUnasked }
    // a line is to be called in that nobody shares, or that one node shares
    ensures no_links { local Linked (machine 3 1 1 1 1 1 1) 0 [] (share_with 0 [] ((0, clean [] (0 ∷ [])) ∷ [])) (ReclaimLine 0)
        ≡ Err NoLinks }
    ensures no_links_one { local Linked (machine 3 1 1 1 1 1 1) 0 [] (share_with 0 [] ((0, clean (1 ∷ []) (0 ∷ [])) ∷ []))
        (ReclaimLine 0)
        ≡ Err NoLinks }
    // the nodes 1 and 2 share it, in a directory whose lists hold no links
    ensures no_links_unlinked { local Unlinked (machine 3 1 1 1 1 1 1) 0 [] (share_with 0 [] ((0, clean (1 ∷ 2 ∷ []) (0 ∷ [])) ∷ []))
        (ReclaimLine 0)
        ≡ Err NoLinks }
    // a line is to be called in that is called in already; two lines may be pending
    ensures line_pending { local Linked (machine 3 2 1 1 1 2 1) 0 [] (share_with 0 [] ((0, called Nobody (1 ∷ 2 ∷ []) (0 ∷ [])) ∷ []))
        (ReclaimLine 0)
        ≡ Err LinePending }
    // line 1 is to be called in while line 0 is; one line may be pending
    ensures budget_full { local Linked (machine 3 2 1 2 2 1 1) 0 []
        (share_with 0 [] ((0, called Nobody (1 ∷ 2 ∷ []) (0 ∷ [])) ∷ (1, clean (1 ∷ 2 ∷ []) (0 ∷ [])) ∷ []))
        (ReclaimLine 1)
        ≡ Err BudgetFull }
{}

/// Where two causes hold at once, the first in the order is given.
pub fn first_causes()
    // node 1 waits for a load and has no copy to hit: Outstanding, not Miss
    ensures outstanding { local Linked (machine 2 1 1 1 1 1 1) 1 (load_by 1 ∷ []) (share_waiting (wants (load_by 1))) HitNext
        ≡ Err Outstanding }
    // a copy of line 0 and one of line 1 stand in one set: HitFirst, not Conflict
    ensures hit_first { local Linked (machine 2 2 1 1 1 1 1) 1 (load_by 1 ∷ [])
        (share_with 0 ((0, Shared (0 ∷ [])) ∷ (1, Shared (0 ∷ [])) ∷ []) []) IssueNext
        ≡ Err HitFirst }
    // node 0 is to load its line 0, which is pending, and has line 1 in its set: Conflict, not HeldPending
    ensures conflict { local Linked (machine 3 2 1 1 1 1 1) 0 (load_by 0 ∷ [])
        (share_with 0 ((1, Shared (0 ∷ [])) ∷ []) ((0, called Nobody (1 ∷ 2 ∷ []) (0 ∷ [])) ∷ [])) IssueNext
        ≡ Err Conflict }
    // node 0 is to store in its line, which is pending, the one line that may be: HeldPending, not HeldBudget
    ensures held_pending { local Linked (machine 3 1 1 1 1 1 1) 0 (store_by 0 5 ∷ [])
        (share_with 0 [] ((0, called Nobody (1 ∷ 2 ∷ []) (0 ∷ [])) ∷ [])) IssueNext
        ≡ Err HeldPending }
    // node 1 is to write a shared copy back, and the lane has no room: WrongKind, not LaneGate
    ensures wrong_kind { local Linked (machine 2 1 1 1 1 1 1) 1 [] (share_with 0 ((0, Shared (0 ∷ [])) ∷ []) [])
        (EvictLine 0 way.Wb false)
        ≡ Err WrongKind }
    // a line is to be called in that holds no link and is pending: NoLinks, not LinePending
    ensures no_links { local Linked (machine 3 1 1 1 1 1 1) 0 [] (share_with 0 [] ((0, called Nobody (1 ∷ []) (0 ∷ [])) ∷ []))
        (ReclaimLine 0)
        ≡ Err NoLinks }
    // a line is to be called in that is pending, the one line that may be: LinePending, not BudgetFull
    ensures line_pending { local Linked (machine 3 1 1 1 1 1 1) 0 [] (share_with 0 [] ((0, called Nobody (1 ∷ 2 ∷ []) (0 ∷ [])) ∷ []))
        (ReclaimLine 0)
        ≡ Err LinePending }
{}
