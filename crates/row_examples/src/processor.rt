//! The processor table: what a node's own processor does with one line, and what a home does by itself.

ghost use Rattle.std.specs.Prelude.{◌≡◌, [], ◌∷◌, None, Ok, true, false};
ghost use Rattle.op_model.specs.Messages.{Get, GetX, FwdGet, FwdGetX, Inv, Wb, Rpl};
ghost use Rattle.op_model.specs.Lines.{Absent, Shared, Exclusive, NoService, Own};
ghost use Rattle.op_model.specs.Tables.Processor.{serves, hit, begin_op, evict, reclaim};
ghost use Rattle.op_model.specs.Shares.{Linked};
ghost use Rattle.op_model.specs.Events.Node.{HitNext, IssueNext, EvictLine, local};
ghost use Rattle.op_model.specs.declared.events.EvictKind.TheVariants as way;
ghost use Rattle.op_model.specs.declared.messages.Msg.TheVariants as msg;
ghost use Rattle.row_examples.specs.Types.{Load, Swap, Add, Nobody, Me, Invalidate, ForwardGet, ForwardGetX};
ghost use Rattle.row_examples.specs.Situations.{operation, load_by, store_by, wants, clean, clean_local, home_owned, owned_by, at_home, home_waits, away, roomy, no_link, no_budget};
ghost use Rattle.row_examples.specs.Machines.{machine, share_with, share_waiting};

/// Hit, rows P1 to P12 and Reclaim.
pub fn processor_rows()
    // -- Hit: the operation is done on the copy --
    // node 0 has the greatest value in its own line and adds 1: the word is 0 then, modulo 2^64
    ensures hit_add { hit (operation 0 1 Add 0 1) (at_home (Exclusive (18446744073709551615 ∷ [])) (home_owned (0 ∷ [])))
        ≡ record {
          share = at_home (Exclusive (0 ∷ [])) (home_owned (0 ∷ []));
          sends = [];
          served = Own (operation 0 1 Add 0 1) (18446744073709551615 ∷ []);
          done = true;
        } }
    // node 1 has a shared copy of a line of node 0 and loads from it
    ensures hit_load { hit (load_by 1) (away (Shared (6 ∷ [])) None)
        ≡ record { share = away (Shared (6 ∷ [])) None; sends = []; served = Own (load_by 1) (6 ∷ []); done = true } }
    // node 0 has stored 7 in its own line and loads it: it goes on to its next operation
    ensures hit_next { local Linked (machine 2 1 1 1 1 1 1) 0 (store_by 0 7 ∷ operation 0 1 Load 0 0 ∷ [])
        (share_with 1 ((0, Exclusive (7 ∷ [])) ∷ []) ((0, home_owned (0 ∷ [])) ∷ [])) HitNext
        ≡ Ok (record {
          share = share_with 2 ((0, Exclusive (7 ∷ [])) ∷ []) ((0, home_owned (0 ∷ [])) ∷ []);
          sends = [];
          line = 0;
          served = Own (operation 0 1 Load 0 0) (7 ∷ []);
          done = true;
        }) }
    // any copy serves a load, and only an exclusive one a write
    ensures load_on_shared { serves (load_by 1) (Shared (6 ∷ [])) ≡ true }
    ensures load_on_exclusive { serves (load_by 1) (Exclusive (6 ∷ [])) ≡ true }
    ensures load_on_none { serves (load_by 1) Absent ≡ false }
    ensures write_on_shared { serves (store_by 1 5) (Shared (6 ∷ [])) ≡ false }
    ensures write_on_exclusive { serves (store_by 1 5) (Exclusive (6 ∷ [])) ≡ true }
    ensures write_on_none { serves (store_by 1 5) Absent ≡ false }
    // -- Issue, P1 to P7 --
    // node 1 loads a line of node 0
    ensures p1 { begin_op 1 0 roomy (load_by 1) (away Absent None)
        ≡ Ok (record { share = away Absent (wants (load_by 1)); sends = (0, Get) ∷ []; served = NoService; done = false }) }
    // the same in the whole share of node 1
    ensures p1_node { local Linked (machine 2 1 1 1 1 1 1) 1 (load_by 1 ∷ []) (share_with 0 [] []) IssueNext
        ≡ Ok (record {
          share = share_waiting (wants (load_by 1));
          sends = (0, msg.Get 0) ∷ [];
          line = 0;
          served = NoService;
          done = false;
        }) }
    // node 1 has a copy of line 0 and loads line 1, which goes into another set
    ensures p1_sets { local Linked (machine 2 2 1 1 2 1 1) 1 (load_by 1 ∷ operation 1 1 Load 1 0 ∷ [])
        (share_with 1 ((0, Shared (0 ∷ [])) ∷ []) []) IssueNext
        ≡ Ok (record {
          share = record (share_with 1 ((0, Shared (0 ∷ [])) ∷ []) []) { want = wants (operation 1 1 Load 1 0) };
          sends = (0, msg.Get 1) ∷ [];
          line = 1;
          served = NoService;
          done = false;
        }) }
    // node 2 stores 6 in a line of node 0 of which it has a shared copy
    ensures p2 { begin_op 2 0 roomy (store_by 2 6) (away (Shared (0 ∷ [])) None)
        ≡ Ok (record { share = away Absent (wants (store_by 2 6)); sends = (0, GetX) ∷ []; served = NoService; done = false }) }
    // node 0 loads its own line, which another node has written back, so that memory has 5 and nobody is listed; the budget of
    // pending lines doesn't count
    ensures p3 { begin_op 0 0 no_budget (load_by 0) (at_home Absent (clean [] (5 ∷ [])))
        ≡ Ok (record {
          share = at_home (Shared (5 ∷ [])) (record (clean [] (5 ∷ [])) { local = true });
          sends = [];
          served = Own (load_by 0) (5 ∷ []);
          done = true;
        }) }
    // node 0 stores 7 in its own line, which no node has; memory keeps its 0, and the budget doesn't count
    ensures p4 { begin_op 0 0 no_budget (store_by 0 7) (at_home Absent (clean [] (0 ∷ [])))
        ≡ Ok (record {
          share = at_home (Exclusive (7 ∷ [])) (record (clean [] (0 ∷ [])) { local = true; dirty = true });
          sends = [];
          served = Own (store_by 0 7) (0 ∷ []);
          done = true;
        }) }
    // the same in the whole share of node 0, with room for everything: it goes on to its next operation
    ensures p4_node { local Linked (machine 2 1 1 1 1 1 1) 0 (store_by 0 7 ∷ []) (share_with 0 [] []) IssueNext
        ≡ Ok (record {
          share = share_with 1 ((0, Exclusive (7 ∷ [])) ∷ []) ((0, home_owned (0 ∷ [])) ∷ []);
          sends = [];
          line = 0;
          served = Own (store_by 0 7) (0 ∷ []);
          done = true;
        }) }
    // node 0 stores 5 in its own line, which the nodes 1, 2 and 3 share
    ensures p5 { begin_op 0 0 roomy (store_by 0 5) (at_home Absent (clean (1 ∷ 2 ∷ 3 ∷ []) (0 ∷ [])))
        ≡ Ok (record {
          share = home_waits (store_by 0 5) (record (clean (1 ∷ 2 ∷ 3 ∷ []) (0 ∷ [])) { wait = Invalidate Me; acks = 3 });
          sends = (1, Inv) ∷ (2, Inv) ∷ (3, Inv) ∷ [];
          served = NoService;
          done = false;
        }) }
    // the same where the home shares the line with node 1 alone: its own copy goes
    ensures p5_copy { begin_op 0 0 roomy (store_by 0 5) (at_home (Shared (7 ∷ [])) (clean_local (1 ∷ []) (7 ∷ [])))
        ≡ Ok (record {
          share = home_waits (store_by 0 5) (record (clean_local (1 ∷ []) (7 ∷ [])) { local = false; wait = Invalidate Me; acks = 1 });
          sends = (1, Inv) ∷ [];
          served = NoService;
          done = false;
        }) }
    // node 0 loads its own line, in which node 1 has stored
    ensures p6 { begin_op 0 0 roomy (load_by 0) (at_home Absent (owned_by 1 (0 ∷ [])))
        ≡ Ok (record {
          share = home_waits (load_by 0) (record (owned_by 1 (0 ∷ [])) { wait = ForwardGet 0 });
          sends = (1, FwdGet 0) ∷ [];
          served = NoService;
          done = false;
        }) }
    // node 0 swaps 1 into its own line, to which node 1 has added
    ensures p7 { begin_op 0 0 roomy (operation 0 1 Swap 0 1) (at_home Absent (owned_by 1 (0 ∷ [])))
        ≡ Ok (record {
          share = home_waits (operation 0 1 Swap 0 1) (record (owned_by 1 (0 ∷ [])) { wait = ForwardGetX 0 });
          sends = (1, FwdGetX 0) ∷ [];
          served = NoService;
          done = false;
        }) }
    // -- Evict, P8 to P12 --
    // node 1 writes 4 back to node 0
    ensures p8 { evict 1 0 way.Wb (away (Exclusive (4 ∷ [])) None)
        ≡ Ok (record { share = away Absent None; sends = (0, Wb (4 ∷ [])) ∷ []; served = NoService; done = false }) }
    // node 0 writes 3 back into its own memory
    ensures p9 { evict 0 0 way.Wb (at_home (Exclusive (3 ∷ [])) (home_owned (0 ∷ [])))
        ≡ Ok (record {
          share = at_home Absent (record (home_owned (0 ∷ [])) { local = false; dirty = false; memory = 3 ∷ [] });
          sends = [];
          served = NoService;
          done = false;
        }) }
    // node 1 drops its shared copy with a hint to node 0
    ensures p10 { evict 1 0 way.Hint (away (Shared (0 ∷ [])) None)
        ≡ Ok (record { share = away Absent None; sends = (0, Rpl) ∷ []; served = NoService; done = false }) }
    // node 1 drops it silently
    ensures p11 { evict 1 0 way.Silent (away (Shared (0 ∷ [])) None)
        ≡ Ok (record { share = away Absent None; sends = []; served = NoService; done = false }) }
    // node 1 drops a copy of line 1 silently while the lane to node 0 has no room for a hint
    ensures p11_gate { local Linked (machine 2 2 1 1 2 1 1) 1 [] (share_with 0 ((1, Shared (0 ∷ [])) ∷ []) [])
        (EvictLine 1 way.Silent false)
        ≡ Ok (record { share = share_with 0 [] []; sends = []; line = 1; served = NoService; done = false }) }
    // node 0 drops a shared copy of its own line
    ensures p12 { evict 0 0 way.Silent (at_home (Shared (0 ∷ [])) (clean_local [] (0 ∷ [])))
        ≡ Ok (record {
          share = at_home Absent (record (clean_local [] (0 ∷ [])) { local = false });
          sends = [];
          served = NoService;
          done = false;
        }) }
    // -- Reclaim: a home calls the copies of a line in --
    // the nodes 1 and 2 share a line, and the second of them takes the only link
    ensures reclaimed { reclaim no_link (at_home Absent (clean (1 ∷ 2 ∷ []) (0 ∷ [])))
        ≡ Ok (record {
          share = at_home Absent (record (clean (1 ∷ 2 ∷ []) (0 ∷ [])) { wait = Invalidate Nobody; acks = 2 });
          sends = (1, Inv) ∷ (2, Inv) ∷ [];
          served = NoService;
          done = false;
        }) }
    // the same where the home has a shared copy: it stays
    ensures reclaimed_copy { reclaim no_link (at_home (Shared (0 ∷ [])) (clean_local (1 ∷ 2 ∷ []) (0 ∷ [])))
        ≡ Ok (record {
          share = at_home (Shared (0 ∷ [])) (record (clean_local (1 ∷ 2 ∷ []) (0 ∷ [])) { wait = Invalidate Nobody; acks = 2 });
          sends = (1, Inv) ∷ (2, Inv) ∷ [];
          served = NoService;
          done = false;
        }) }
{}
