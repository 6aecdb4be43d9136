//! The remote table: what a node does with a forward, an invalidation and a reply; and which message meets a row.

ghost use Rattle.std.specs.Prelude.{◌≡◌, [], ◌∷◌, None, Ok, true, false};
ghost use Rattle.op_model.specs.Messages.{Get, FwdGet, FwdGetX, Inv, Wb, Put, PutX, Nak, InvAck, ShWb, FAck, Nakc};
ghost use Rattle.op_model.specs.Lines.{Absent, Shared, Exclusive, NoService, Own, For};
ghost use Rattle.op_model.specs.Tables.Remote.{meets, on_message};
ghost use Rattle.op_model.specs.Shares.{Linked};
ghost use Rattle.op_model.specs.Events.Node.{TakeFrom, local};
ghost use Rattle.op_model.specs.declared.messages.Msg.TheVariants as msg;
ghost use Rattle.row_examples.specs.Types.{Swap, Add, Gone, Me, Node, Idle, ForwardGet, ForwardGetX};
ghost use Rattle.row_examples.specs.Situations.{operation, load_by, store_by, wants, wants_marked, nodes, clean, owned_by, called, forwarded, at_home, home_waits, away, roomy, home_takes, node_takes};
ghost use Rattle.row_examples.specs.Machines.{machine, share_with, share_waiting};

/// Rows N1 to N13.
pub fn remote_rows()
    // node 1 has stored 4 in a line of node 0, and node 2 wants to load it
    ensures n1 { node_takes 1 0 (FwdGet 2) (away (Exclusive (4 ∷ [])) None)
        ≡ record {
          share = away (Shared (4 ∷ [])) None;
          sends = (2, Put (4 ∷ [])) ∷ (0, ShWb (4 ∷ [])) ∷ [];
          served = For 2 (4 ∷ []);
          done = false;
        } }
    // node 1 has stored 4 in a line of node 0, and node 0 wants to load it
    ensures n2 { node_takes 1 0 (FwdGet 0) (away (Exclusive (4 ∷ [])) None)
        ≡ record { share = away (Shared (4 ∷ [])) None; sends = (0, Put (4 ∷ [])) ∷ []; served = For 0 (4 ∷ []); done = false } }
    // node 2 wants to load a line of node 0 that node 1 has just written back
    ensures n3 { node_takes 1 0 (FwdGet 2) (away Absent None)
        ≡ record { share = away Absent None; sends = (2, Nak Gone) ∷ (0, Nakc) ∷ []; served = NoService; done = false } }
    // node 1 has stored 4 in a line of node 0, and node 2 wants to store there
    ensures n4 { node_takes 1 0 (FwdGetX 2) (away (Exclusive (4 ∷ [])) None)
        ≡ record { share = away Absent None; sends = (2, PutX (4 ∷ [])) ∷ (0, FAck) ∷ []; served = NoService; done = false } }
    // node 1 has 12 in a line of node 0, and node 0 wants to swap it
    ensures n5 { node_takes 1 0 (FwdGetX 0) (away (Exclusive (12 ∷ [])) None)
        ≡ record { share = away Absent None; sends = (0, PutX (12 ∷ [])) ∷ []; served = NoService; done = false } }
    // node 2 wants to store in a line of node 0 that node 1 has just written back
    ensures n6 { node_takes 1 0 (FwdGetX 2) (away Absent None)
        ≡ record { share = away Absent None; sends = (2, Nak Gone) ∷ (0, Nakc) ∷ []; served = NoService; done = false } }
    // node 0 calls in a line for which node 1 waits to load: the Inv has overtaken the Put
    ensures n7 { node_takes 1 0 Inv (away Absent (wants (load_by 1)))
        ≡ record { share = away Absent (wants_marked (load_by 1)); sends = (0, InvAck) ∷ []; served = NoService; done = false } }
    // node 0 calls in a line of which node 1 has a shared copy
    ensures n7_copy { node_takes 1 0 Inv (away (Shared (0 ∷ [])) None)
        ≡ record { share = away Absent None; sends = (0, InvAck) ∷ []; served = NoService; done = false } }
    // node 0 calls in a line in which node 1 waits to store: a write isn't marked
    ensures n7_write { node_takes 1 0 Inv (away Absent (wants (store_by 1 6)))
        ≡ record { share = away Absent (wants (store_by 1 6)); sends = (0, InvAck) ∷ []; served = NoService; done = false } }
    // node 1 gets the 7 that it waits to load
    ensures n8 { node_takes 1 0 (Put (7 ∷ [])) (away Absent (wants (load_by 1)))
        ≡ record { share = away (Shared (7 ∷ [])) None; sends = []; served = NoService; done = true } }
    // the same in the whole share of node 1: it goes on to its next operation
    ensures n8_node { local Linked (machine 2 1 1 1 1 1 1) 1 (load_by 1 ∷ []) (share_waiting (wants (load_by 1)))
        (TakeFrom 0 (msg.Put 0 (7 ∷ [])) None)
        ≡ Ok (record { share = share_with 1 ((0, Shared (7 ∷ [])) ∷ []) []; sends = []; line = 0; served = NoService; done = true }) }
    // node 1 gets the 0 that it waits to load, after an Inv of the line
    ensures n9 { node_takes 1 0 (Put (0 ∷ [])) (away Absent (wants_marked (load_by 1)))
        ≡ record { share = away Absent None; sends = []; served = NoService; done = true } }
    // node 0 loads its own line, and gets the 4 that node 1 has stored there
    ensures n10 { home_takes 1 (Put (4 ∷ [])) roomy (home_waits (load_by 0) (forwarded (ForwardGet 0) true (1 ∷ []) (0 ∷ [])))
        ≡ record {
          share = at_home (Shared (4 ∷ []))
              (record (forwarded (ForwardGet 0) true (1 ∷ []) (0 ∷ [])) { memory = 4 ∷ []; dirty = false; local = true; wait = Idle });
          sends = [];
          served = NoService;
          done = true;
        } }
    // node 1 stores 4 and gets the line, which has 0
    ensures n11 { node_takes 1 0 (PutX (0 ∷ [])) (away Absent (wants (store_by 1 4)))
        ≡ record { share = away (Exclusive (4 ∷ [])) None; sends = []; served = Own (store_by 1 4) (0 ∷ []); done = true } }
    // node 1 adds 7 and gets the line, which has 5
    ensures n11_add { node_takes 1 0 (PutX (5 ∷ [])) (away Absent (wants (operation 1 0 Add 0 7)))
        ≡ record { share = away (Exclusive (12 ∷ [])) None; sends = []; served = Own (operation 1 0 Add 0 7) (5 ∷ []); done = true } }
    // node 0 swaps 1 into its own line and gets it from node 1, where it has 12; memory keeps its 0
    ensures n12 { home_takes 1 (PutX (12 ∷ [])) roomy
        (home_waits (operation 0 1 Swap 0 1) (forwarded (ForwardGetX 0) true (1 ∷ []) (0 ∷ [])))
        ≡ record {
          share = at_home (Exclusive (1 ∷ []))
              (record { local = true; dirty = true; wait = Idle; acks = 0; list = nodes []; memory = 0 ∷ [] });
          sends = [];
          served = Own (operation 0 1 Swap 0 1) (12 ∷ []);
          done = true;
        } }
    // node 2 is told by node 1 that the line is gone that it waits to load
    ensures n13 { node_takes 2 1 (Nak Gone) (away Absent (wants (load_by 2)))
        ≡ record { share = away Absent None; sends = []; served = NoService; done = false } }
    // its mark goes with it
    ensures n13_marked { node_takes 2 1 (Nak Gone) (away Absent (wants_marked (load_by 2)))
        ≡ record { share = away Absent None; sends = []; served = NoService; done = false } }
    // node 0 is told by node 1 that its own line is gone, which it waits to load; the line stays pending until the Nakc comes
    ensures n13_home { home_takes 1 (Nak Gone) roomy (home_waits (load_by 0) (forwarded (ForwardGet 0) false (1 ∷ []) (4 ∷ [])))
        ≡ record {
          share = at_home Absent (forwarded (ForwardGet 0) false (1 ∷ []) (4 ∷ []));
          sends = [];
          served = NoService;
          done = false;
        } }
{}

/// A message meets a row or is only removed.
pub fn rows_met()
    // node 1 waits to load, and gets the words in an empty cache set, or in one that holds another line
    ensures awaited { meets 1 0 0 true (Put (7 ∷ [])) (away Absent (wants (load_by 1))) ≡ true }
    ensures no_place { meets 1 0 0 false (Put (7 ∷ [])) (away Absent (wants (load_by 1))) ≡ false }
    // it waits to store, or for nothing
    ensures for_a_write { meets 1 0 0 true (Put (7 ∷ [])) (away Absent (wants (store_by 1 4))) ≡ false }
    ensures for_nothing { meets 1 0 0 true (Put (7 ∷ [])) (away Absent None) ≡ false }
    // such a message is removed, and nothing else happens
    ensures removed { on_message 1 0 0 true roomy (Put (7 ∷ [])) (away Absent None)
        ≡ record { share = away Absent None; sends = []; served = NoService; done = false } }
    // the same in the whole share of node 1, where the set of line 0 holds line 1 still
    ensures removed_node { local Linked (machine 2 2 1 1 1 1 1) 1 (load_by 1 ∷ [])
        (record (share_with 0 ((1, Shared (0 ∷ [])) ∷ []) []) { want = wants (load_by 1) })
        (TakeFrom 0 (msg.Put 0 (7 ∷ [])) None)
        ≡ Ok (record {
          share = record (share_with 0 ((1, Shared (0 ∷ [])) ∷ []) []) { want = wants (load_by 1) };
          sends = [];
          line = 0;
          served = NoService;
          done = false;
        }) }
    // the home waits for node 1 alone, and node 1 acknowledges, or node 2 does, which isn't listed
    ensures listed { meets 0 0 1 true InvAck (at_home Absent (called (Node 3) (1 ∷ []) (0 ∷ []))) ≡ true }
    ensures unlisted { meets 0 0 2 true InvAck (at_home Absent (called (Node 3) (1 ∷ []) (0 ∷ []))) ≡ false }
    // an acknowledgement comes to a line that waits for none
    ensures uncalled { meets 0 0 1 true InvAck (at_home Absent (clean (1 ∷ []) (0 ∷ []))) ≡ false }
    // the owner of a line asks for it
    ensures own { meets 0 0 1 true Get (at_home Absent (owned_by 1 (0 ∷ []))) ≡ false }
    // the home asks itself
    ensures own_home { meets 0 0 0 true Get (at_home Absent (clean [] (0 ∷ []))) ≡ false }
    // a request comes to a node that isn't the line's home, and a forward to the home
    ensures elsewhere { meets 1 0 2 true Get (away Absent None) ≡ false }
    ensures forward_home { meets 0 0 1 true (FwdGet 2) (at_home Absent (clean [] (0 ∷ []))) ≡ false }
    // words are written back to a clean line, or to one whose copies are called in
    ensures clean_already { meets 0 0 1 true (Wb (4 ∷ [])) (at_home Absent (clean (1 ∷ []) (0 ∷ []))) ≡ false }
    ensures called_in { meets 0 0 1 true (Wb (4 ∷ [])) (at_home Absent (called (Node 3) (1 ∷ []) (0 ∷ []))) ≡ false }
    // the owner has shared or handed on the line for the home itself, which gets no ShWb and no FAck then
    ensures shared_home { meets 0 0 1 true (ShWb (4 ∷ [])) (home_waits (load_by 0) (forwarded (ForwardGet 0) true (1 ∷ []) (0 ∷ [])))
        ≡ false }
    ensures handed_home { meets 0 0 1 true FAck (home_waits (store_by 0 4) (forwarded (ForwardGetX 0) true (1 ∷ []) (0 ∷ [])))
        ≡ false }
    // the home is refused by the owner that it asked, or by a node while it waits for acknowledgements
    ensures refused_home { meets 0 0 1 true (Nak Gone) (home_waits (load_by 0) (forwarded (ForwardGet 0) true (1 ∷ []) (0 ∷ [])))
        ≡ true }
    ensures refused_while_called { meets 0 0 1 true (Nak Gone) (home_waits (store_by 0 4) (called Me (1 ∷ []) (0 ∷ []))) ≡ false }
{}
