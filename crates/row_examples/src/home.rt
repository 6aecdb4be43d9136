//! The home table: what node 0 does with each message on its own line.

ghost use Rattle.std.specs.Prelude.{◌≡◌, [], ◌∷◌, None, Some, Ok, true, false};
ghost use Rattle.op_model.specs.Messages.{Get, GetX, FwdGet, FwdGetX, Inv, Wb, Rpl, Put, PutX, Nak, InvAck, ShWb, FAck, Nakc};
ghost use Rattle.op_model.specs.Lines.{Absent, Shared, Exclusive, NoService, Own, For};
ghost use Rattle.op_model.specs.Shares.{Linked};
ghost use Rattle.op_model.specs.Events.Node.{TakeFrom, local};
ghost use Rattle.op_model.specs.declared.messages.Msg.TheVariants as msg;
ghost use Rattle.row_examples.specs.Types.{Pending, NoLink, Budget, Nobody, Me, Node, Idle, Invalidate, ForwardGet, ForwardGetX};
ghost use Rattle.row_examples.specs.Situations.{store_by, nodes, clean, clean_local, home_owned, owned_by, called, forwarded, at_home, home_waits, roomy, no_link, no_budget, no_room, home_takes};
ghost use Rattle.row_examples.specs.Machines.{machine, share_with};

/// Rows H1 to H27.
pub fn home_rows()
    // -- Get, H1 to H8 --
    // node 2 wants to load a line of which node 0 calls the copy of node 1 in, to store 9 there itself; there is no room for
    // anything
    ensures h1 { home_takes 2 Get no_room (home_waits (store_by 0 9) (called Me (1 ∷ []) (0 ∷ [])))
        ≡ record {
          share = home_waits (store_by 0 9) (called Me (1 ∷ []) (0 ∷ []));
          sends = (2, Nak Pending) ∷ [];
          served = NoService;
          done = false;
        } }
    // node 3 wants to load a line that node 1 owns, while another line is pending and holds the only link; one line may be
    // pending
    ensures h2 { home_takes 3 Get (record no_room { link_pending = true }) (at_home Absent (owned_by 1 (0 ∷ [])))
        ≡ record {
          share = at_home Absent (owned_by 1 (0 ∷ []));
          sends = (3, Nak NoLink) ∷ [];
          served = NoService;
          done = false;
        } }
    // the same in the whole share of node 0: line 0 is the other line
    ensures h2_node { local Linked (machine 4 2 1 1 2 1 1) 0 []
        (share_with 0 [] ((0, forwarded (ForwardGet 2) true (1 ∷ 2 ∷ []) (0 ∷ [])) ∷ (1, owned_by 1 (0 ∷ [])) ∷ []))
        (TakeFrom 3 (msg.Get 1) None)
        ≡ Ok (record {
          share = share_with 0 [] ((0, forwarded (ForwardGet 2) true (1 ∷ 2 ∷ []) (0 ∷ [])) ∷ (1, owned_by 1 (0 ∷ [])) ∷ []);
          sends = (3, msg.Nak 1 NoLink) ∷ [];
          line = 1;
          served = NoService;
          done = false;
        }) }
    // node 2 wants to load a line that node 1 shares; another line holds the only link, and a third one is pending, as many as
    // may be
    ensures h3 { home_takes 2 Get no_room (at_home Absent (clean (1 ∷ []) (0 ∷ [])))
        ≡ record {
          share = at_home Absent (clean (1 ∷ []) (0 ∷ []));
          sends = (2, Nak Budget) ∷ [];
          served = NoService;
          done = false;
        } }
    // the same in the whole share of node 0: line 0 is pending, line 1 is asked for, and line 2 holds the link
    ensures h3_node { local Linked (machine 3 3 1 1 3 1 1) 0 []
        (share_with 0 [] ((0, forwarded (ForwardGetX 2) true (1 ∷ []) (0 ∷ []))
        ∷ (1, clean (1 ∷ []) (0 ∷ [])) ∷ (2, clean (1 ∷ 2 ∷ []) (0 ∷ [])) ∷ []))
        (TakeFrom 2 (msg.Get 1) None)
        ≡ Ok (record {
          share = share_with 0 []
              ((0, forwarded (ForwardGetX 2) true (1 ∷ []) (0 ∷ []))
              ∷ (1, clean (1 ∷ []) (0 ∷ [])) ∷ (2, clean (1 ∷ 2 ∷ []) (0 ∷ [])) ∷ []);
          sends = (2, msg.Nak 1 Budget) ∷ [];
          line = 1;
          served = NoService;
          done = false;
        }) }
    // node 2 wants to load a line that node 1 shares; another line holds the only link, and none is pending. This is the refusal
    ensures h4 { home_takes 2 Get no_link (at_home Absent (clean (1 ∷ []) (0 ∷ [])))
        ≡ record {
          share = at_home Absent (clean (1 ∷ []) (0 ∷ []));
          sends = (2, Nak NoLink) ∷ [];
          served = NoService;
          done = false;
        } }
    // the same in the whole share of node 0, with line 0 as the victim: node 2 is refused first, and then the copies of line 0
    // are called in
    ensures h4_node { local Linked (machine 3 2 1 1 2 1 1) 0 []
        (share_with 0 [] ((0, clean (1 ∷ 2 ∷ []) (0 ∷ [])) ∷ (1, clean (1 ∷ []) (0 ∷ [])) ∷ []))
        (TakeFrom 2 (msg.Get 1) (Some 0))
        ≡ Ok (record {
          share = share_with 0 []
              ((0, record (clean (1 ∷ 2 ∷ []) (0 ∷ [])) { wait = Invalidate Nobody; acks = 2 })
              ∷ (1, clean (1 ∷ []) (0 ∷ [])) ∷ []);
          sends = (2, msg.Nak 1 NoLink) ∷ (1, msg.Inv 0) ∷ (2, msg.Inv 0) ∷ [];
          line = 1;
          served = NoService;
          done = false;
        }) }
    // node 1 wants to load a line in which node 0 has stored 7; the line doesn't become pending, so the budget doesn't count
    ensures h5 { home_takes 1 Get no_room (at_home (Exclusive (7 ∷ [])) (home_owned (0 ∷ [])))
        ≡ record {
          share = at_home (Shared (7 ∷ []))
              (record (home_owned (0 ∷ [])) { memory = 7 ∷ []; dirty = false; list = nodes (1 ∷ []) });
          sends = (1, Put (7 ∷ [])) ∷ [];
          served = For 1 (7 ∷ []);
          done = false;
        } }
    // node 3 wants to load a line that node 1 owns; a link is free, and as many lines are pending as may be
    ensures h6 { home_takes 3 Get no_budget (at_home Absent (owned_by 1 (0 ∷ [])))
        ≡ record {
          share = at_home Absent (owned_by 1 (0 ∷ []));
          sends = (3, Nak Budget) ∷ [];
          served = NoService;
          done = false;
        } }
    // the same in the whole share of node 0: line 0 is pending and holds one of two links
    ensures h6_node { local Linked (machine 4 2 1 2 2 1 1) 0 []
        (share_with 0 [] ((0, forwarded (ForwardGet 2) true (1 ∷ 2 ∷ []) (0 ∷ [])) ∷ (1, owned_by 1 (0 ∷ [])) ∷ []))
        (TakeFrom 3 (msg.Get 1) None)
        ≡ Ok (record {
          share = share_with 0 [] ((0, forwarded (ForwardGet 2) true (1 ∷ 2 ∷ []) (0 ∷ [])) ∷ (1, owned_by 1 (0 ∷ [])) ∷ []);
          sends = (3, msg.Nak 1 Budget) ∷ [];
          line = 1;
          served = NoService;
          done = false;
        }) }
    // node 2 wants to load a line that node 1 owns
    ensures h7 { home_takes 2 Get roomy (at_home Absent (owned_by 1 (0 ∷ [])))
        ≡ record {
          share = at_home Absent (record (owned_by 1 (0 ∷ [])) { list = nodes (1 ∷ 2 ∷ []); wait = ForwardGet 2 });
          sends = (1, FwdGet 2) ∷ [];
          served = NoService;
          done = false;
        } }
    // node 3 wants to load a line that the nodes 1 and 2 share
    ensures h8 { home_takes 3 Get roomy (at_home Absent (clean (1 ∷ 2 ∷ []) (0 ∷ [])))
        ≡ record {
          share = at_home Absent (clean (1 ∷ 2 ∷ 3 ∷ []) (0 ∷ []));
          sends = (3, Put (0 ∷ [])) ∷ [];
          served = For 3 (0 ∷ []);
          done = false;
        } }
    // node 1, which has dropped its copy silently and is listed still, wants to load the line again: no link is needed
    ensures h8_listed { home_takes 1 Get no_room (at_home Absent (clean (1 ∷ 2 ∷ []) (0 ∷ [])))
        ≡ record {
          share = at_home Absent (clean (1 ∷ 2 ∷ []) (0 ∷ []));
          sends = (1, Put (0 ∷ [])) ∷ [];
          served = For 1 (0 ∷ []);
          done = false;
        } }
    // node 1 wants to load a line that nobody has: the first node of a list needs no link
    ensures h8_first { home_takes 1 Get no_room (at_home Absent (clean [] (0 ∷ [])))
        ≡ record {
          share = at_home Absent (clean (1 ∷ []) (0 ∷ []));
          sends = (1, Put (0 ∷ [])) ∷ [];
          served = For 1 (0 ∷ []);
          done = false;
        } }
    // node 2 wants to load a line that node 1 shares, in a directory whose lists hold no links
    ensures h8_unlinked { home_takes 2 Get (record no_room { linked = false }) (at_home Absent (clean (1 ∷ []) (0 ∷ [])))
        ≡ record {
          share = at_home Absent (clean (1 ∷ 2 ∷ []) (0 ∷ []));
          sends = (2, Put (0 ∷ [])) ∷ [];
          served = For 2 (0 ∷ []);
          done = false;
        } }
    // -- GetX, H9 to H15 --
    // node 2 wants to store in a line of which node 0 calls the copy of node 1 in, to store 9 there itself; there is no room
    // for anything
    ensures h9 { home_takes 2 GetX no_room (home_waits (store_by 0 9) (called Me (1 ∷ []) (0 ∷ [])))
        ≡ record {
          share = home_waits (store_by 0 9) (called Me (1 ∷ []) (0 ∷ []));
          sends = (2, Nak Pending) ∷ [];
          served = NoService;
          done = false;
        } }
    // node 1 wants to store in a line of two words, in the first of which node 0 has stored 1; memory keeps its zeros, and
    // the budget doesn't count
    ensures h10 { home_takes 1 GetX no_room (at_home (Exclusive (1 ∷ 0 ∷ [])) (home_owned (0 ∷ 0 ∷ [])))
        ≡ record {
          share = at_home Absent (record (home_owned (0 ∷ 0 ∷ [])) { local = false; list = nodes (1 ∷ []) });
          sends = (1, PutX (1 ∷ 0 ∷ [])) ∷ [];
          served = NoService;
          done = false;
        } }
    // node 2 wants to store in a line that node 1 owns, and as many lines are pending as may be
    ensures h11 { home_takes 2 GetX no_budget (at_home Absent (owned_by 1 (0 ∷ [])))
        ≡ record {
          share = at_home Absent (owned_by 1 (0 ∷ []));
          sends = (2, Nak Budget) ∷ [];
          served = NoService;
          done = false;
        } }
    // node 2 wants to store in a line that node 1 owns
    ensures h12 { home_takes 2 GetX roomy (at_home Absent (owned_by 1 (0 ∷ [])))
        ≡ record {
          share = at_home Absent (record (owned_by 1 (0 ∷ [])) { wait = ForwardGetX 2 });
          sends = (1, FwdGetX 2) ∷ [];
          served = NoService;
          done = false;
        } }
    // node 1 wants to store in a line that nobody has
    ensures h13 { home_takes 1 GetX roomy (at_home Absent (clean [] (0 ∷ [])))
        ≡ record {
          share = at_home Absent (record (clean [] (0 ∷ [])) { dirty = true; list = nodes (1 ∷ []) });
          sends = (1, PutX (0 ∷ [])) ∷ [];
          served = NoService;
          done = false;
        } }
    // node 1 wants to store in a line that it shares with node 0 alone; the line doesn't become pending, so the budget doesn't
    // count
    ensures h13_copy { home_takes 1 GetX no_budget (at_home (Shared (7 ∷ [])) (clean_local (1 ∷ []) (7 ∷ [])))
        ≡ record {
          share = at_home Absent (record (clean_local (1 ∷ []) (7 ∷ [])) { local = false; dirty = true });
          sends = (1, PutX (7 ∷ [])) ∷ [];
          served = NoService;
          done = false;
        } }
    // node 2 wants to store in a line that it shares with node 1, and as many lines are pending as may be
    ensures h14 { home_takes 2 GetX no_budget (at_home Absent (clean (1 ∷ 2 ∷ []) (0 ∷ [])))
        ≡ record {
          share = at_home Absent (clean (1 ∷ 2 ∷ []) (0 ∷ []));
          sends = (2, Nak Budget) ∷ [];
          served = NoService;
          done = false;
        } }
    // node 2 wants to store in a line that it shares with node 1
    ensures h15 { home_takes 2 GetX roomy (at_home Absent (clean (1 ∷ 2 ∷ []) (0 ∷ [])))
        ≡ record {
          share = at_home Absent (record (clean (1 ∷ []) (0 ∷ [])) { wait = Invalidate (Node 2); acks = 1 });
          sends = (1, Inv) ∷ [];
          served = NoService;
          done = false;
        } }
    // node 2 wants to store in a line that the nodes 0, 1 and 3 share
    ensures h15_copy { home_takes 2 GetX roomy (at_home (Shared (7 ∷ [])) (clean_local (1 ∷ 3 ∷ []) (7 ∷ [])))
        ≡ record {
          share = at_home Absent (record (clean (1 ∷ 3 ∷ []) (7 ∷ [])) { wait = Invalidate (Node 2); acks = 2 });
          sends = (1, Inv) ∷ (3, Inv) ∷ [];
          served = NoService;
          done = false;
        } }
    // -- acknowledgements, H16 to H19 --
    // node 0 stores 5 in a line that the nodes 1, 2 and 3 shared, and node 1 is the first to acknowledge
    ensures h16 { home_takes 1 InvAck roomy (home_waits (store_by 0 5) (called Me (1 ∷ 2 ∷ 3 ∷ []) (0 ∷ [])))
        ≡ record {
          share = home_waits (store_by 0 5) (record (called Me (2 ∷ 3 ∷ []) (0 ∷ [])) { acks = 2 });
          sends = [];
          served = NoService;
          done = false;
        } }
    // then node 2 acknowledges
    ensures h16_next { home_takes 2 InvAck roomy (home_waits (store_by 0 5) (called Me (2 ∷ 3 ∷ []) (0 ∷ [])))
        ≡ record {
          share = home_waits (store_by 0 5) (record (called Me (3 ∷ []) (0 ∷ [])) { acks = 1 });
          sends = [];
          served = NoService;
          done = false;
        } }
    // a line was called in for its links, and node 2 is the last to acknowledge
    ensures h17 { home_takes 2 InvAck roomy (at_home Absent (called Nobody (2 ∷ []) (0 ∷ [])))
        ≡ record {
          share = at_home Absent (record (called Nobody (2 ∷ []) (0 ∷ [])) { list = nodes []; acks = 0; wait = Idle });
          sends = [];
          served = NoService;
          done = false;
        } }
    // the same where the home has a shared copy: it stays
    ensures h17_copy { home_takes 2 InvAck roomy (at_home (Shared (0 ∷ [])) (record (called Nobody (2 ∷ []) (0 ∷ [])) { local = true }))
        ≡ record {
          share = at_home (Shared (0 ∷ []))
              (record { local = true; dirty = false; wait = Idle; acks = 0; list = nodes []; memory = 0 ∷ [] });
          sends = [];
          served = NoService;
          done = false;
        } }
    // node 0 stores 5, and node 3 is the last to acknowledge; memory keeps its 0
    ensures h18 { home_takes 3 InvAck roomy (home_waits (store_by 0 5) (called Me (3 ∷ []) (0 ∷ [])))
        ≡ record {
          share = at_home (Exclusive (5 ∷ []))
              (record { local = true; dirty = true; wait = Idle; acks = 0; list = nodes []; memory = 0 ∷ [] });
          sends = [];
          served = Own (store_by 0 5) (0 ∷ []);
          done = true;
        } }
    // node 2 waits to store, and node 1 is the last to acknowledge
    ensures h19 { home_takes 1 InvAck roomy (at_home Absent (called (Node 2) (1 ∷ []) (0 ∷ [])))
        ≡ record {
          share = at_home Absent
              (record (called (Node 2) (1 ∷ []) (0 ∷ [])) { list = nodes (2 ∷ []); acks = 0; wait = Idle; dirty = true });
          sends = (2, PutX (0 ∷ [])) ∷ [];
          served = NoService;
          done = false;
        } }
    // -- what the owner answers to a forward, H20 to H23 --
    // node 1 has shared its 4 with node 2
    ensures h20 { home_takes 1 (ShWb (4 ∷ [])) roomy (at_home Absent (forwarded (ForwardGet 2) true (1 ∷ 2 ∷ []) (0 ∷ [])))
        ≡ record {
          share = at_home Absent
              (record (forwarded (ForwardGet 2) true (1 ∷ 2 ∷ []) (0 ∷ [])) { memory = 4 ∷ []; dirty = false; wait = Idle });
          sends = [];
          served = NoService;
          done = false;
        } }
    // node 1 has handed the line to node 2
    ensures h21 { home_takes 1 FAck roomy (at_home Absent (forwarded (ForwardGetX 2) true (1 ∷ []) (0 ∷ [])))
        ≡ record {
          share = at_home Absent (record (forwarded (ForwardGetX 2) true (1 ∷ []) (0 ∷ [])) { wait = Idle; list = nodes (2 ∷ []) });
          sends = [];
          served = NoService;
          done = false;
        } }
    // node 1 has handed the line to node 2, and node 2 has written its 5 back already
    ensures h22 { home_takes 1 FAck roomy (at_home Absent (forwarded (ForwardGetX 2) false (1 ∷ []) (5 ∷ [])))
        ≡ record {
          share = at_home Absent (record (forwarded (ForwardGetX 2) false (1 ∷ []) (5 ∷ [])) { wait = Idle; list = nodes [] });
          sends = [];
          served = NoService;
          done = false;
        } }
    // node 1 had written its 4 back when the load of node 2 came to it
    ensures h23 { home_takes 1 Nakc roomy (at_home Absent (forwarded (ForwardGet 2) false (1 ∷ 2 ∷ []) (4 ∷ [])))
        ≡ record {
          share = at_home Absent (record (forwarded (ForwardGet 2) false (1 ∷ 2 ∷ []) (4 ∷ [])) { wait = Idle; list = nodes [] });
          sends = [];
          served = NoService;
          done = false;
        } }
    // the same where the Nakc comes before the Wb: node 1 stays the owner until then
    ensures h23_dirty { home_takes 1 Nakc roomy (at_home Absent (forwarded (ForwardGet 2) true (1 ∷ 2 ∷ []) (0 ∷ [])))
        ≡ record {
          share = at_home Absent (record (forwarded (ForwardGet 2) true (1 ∷ 2 ∷ []) (0 ∷ [])) { wait = Idle; list = nodes (1 ∷ []) });
          sends = [];
          served = NoService;
          done = false;
        } }
    // the same for a write of node 2, which isn't listed
    ensures h23_write { home_takes 1 Nakc roomy (at_home Absent (forwarded (ForwardGetX 2) true (1 ∷ []) (0 ∷ [])))
        ≡ record {
          share = at_home Absent (record (forwarded (ForwardGetX 2) true (1 ∷ []) (0 ∷ [])) { wait = Idle });
          sends = [];
          served = NoService;
          done = false;
        } }
    // -- evictions of other nodes, H24 to H27 --
    // node 1 writes 5 back to a line that it owns, where memory has 3
    ensures h24 { home_takes 1 (Wb (5 ∷ [])) roomy (at_home Absent (owned_by 1 (3 ∷ [])))
        ≡ record {
          share = at_home Absent (record (owned_by 1 (3 ∷ [])) { memory = 5 ∷ []; dirty = false; list = nodes [] });
          sends = [];
          served = NoService;
          done = false;
        } }
    // node 1 writes 4 back while a load of node 2 is forwarded to it
    ensures h25 { home_takes 1 (Wb (4 ∷ [])) roomy (at_home Absent (forwarded (ForwardGet 2) true (1 ∷ 2 ∷ []) (0 ∷ [])))
        ≡ record {
          share = at_home Absent (record (forwarded (ForwardGet 2) true (1 ∷ 2 ∷ []) (0 ∷ [])) { memory = 4 ∷ []; dirty = false });
          sends = [];
          served = NoService;
          done = false;
        } }
    // node 2, to which node 1 has handed the line, writes 5 back before the FAck of node 1 comes
    ensures h25_write { home_takes 2 (Wb (5 ∷ [])) roomy (at_home Absent (forwarded (ForwardGetX 2) true (1 ∷ []) (0 ∷ [])))
        ≡ record {
          share = at_home Absent (record (forwarded (ForwardGetX 2) true (1 ∷ []) (0 ∷ [])) { memory = 5 ∷ []; dirty = false });
          sends = [];
          served = NoService;
          done = false;
        } }
    // node 1 has dropped its shared copy
    ensures h26 { home_takes 1 Rpl roomy (at_home Absent (clean (1 ∷ []) (0 ∷ [])))
        ≡ record { share = at_home Absent (clean [] (0 ∷ [])); sends = []; served = NoService; done = false } }
    // node 2 has dropped its shared copy, and node 1 keeps its own
    ensures h26_shared { home_takes 2 Rpl roomy (at_home Absent (clean (1 ∷ 2 ∷ []) (0 ∷ [])))
        ≡ record { share = at_home Absent (clean (1 ∷ []) (0 ∷ [])); sends = []; served = NoService; done = false } }
    // node 2 has dropped the copy that node 1 gave it, before the ShWb of node 1 comes: it stays listed
    ensures h27 { home_takes 2 Rpl roomy (at_home Absent (forwarded (ForwardGet 2) true (1 ∷ 2 ∷ []) (0 ∷ [])))
        ≡ record {
          share = at_home Absent (forwarded (ForwardGet 2) true (1 ∷ 2 ∷ []) (0 ∷ []));
          sends = [];
          served = NoService;
          done = false;
        } }
    // the hint of node 2 comes when the line is idle and clean, and node 1 alone is listed
    ensures h27_unlisted { home_takes 2 Rpl roomy (at_home Absent (clean (1 ∷ []) (0 ∷ [])))
        ≡ record { share = at_home Absent (clean (1 ∷ []) (0 ∷ [])); sends = []; served = NoService; done = false } }
    // the hint of node 2 comes when the line is idle and node 1 owns it
    ensures h27_dirty { home_takes 2 Rpl roomy (at_home Absent (owned_by 1 (0 ∷ [])))
        ≡ record { share = at_home Absent (owned_by 1 (0 ∷ [])); sends = []; served = NoService; done = false } }
{}
