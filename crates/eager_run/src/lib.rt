//! What the eager mode gives up: a run of which no one order of all operations can be told, worked event by event.
//!
//! The function does nothing; its clauses are what is shown.
#![tactic(auto)]

ghost use Rattle.std.specs.Prelude.{◌≡◌, ℕ, List, [], ◌∷◌, map, Some};
ghost use Rattle.op_model.specs.Flat.{IsLegal};
ghost use Rattle.op_model.specs.Shares.{header_of};
ghost use Rattle.op_model.specs.Run.History.{entries_by};
ghost use Rattle.row_examples.specs.Situations.{owned_by};
ghost use Rattle.row_examples.specs.Types.{Load, Store};
ghost use Rattle.eager_model.specs.Types.{Entry};
ghost use Rattle.eager_model.specs.Runs.{run};
ghost use Rattle.eager_model.specs.History.{aged_history};
ghost use Rattle.eager_run.specs.Worked.{worked, end, done, done_at, done_of};

/// Two nodes store to two lines that both share, and each then loads the line of the other's store. Both still read 0, from the copies that they had before. Each line by itself keeps one history, in which such a late load stands before the store; but no order of all eight operations explains both loads.
pub fn a_run_without_one_order()
    // no step is refused
    ensures ran { run worked worked.steps ≡ Some end }
    // each node's operations were served once each, in the order of its program
    ensures served { (node : ℕ) → entries_by node (map (λ aged. aged.entry) end.served) ≡ done_of node }
    // the history of the first line: node 2's last load is of age 0, as the loads before it, and the store is of age 1
    ensures first { aged_history worked.sizes end 0
        ≡ done_at 0 (done 1 0 Load 0 0) ∷ done_at 0 (done 2 0 Load 0 0) ∷ done_at 0 (done 2 3 Load 0 0) ∷ done_at 1 (done 1 2 Store 0 1) ∷ [] }
    // the history of the second line, with node 1's last load and node 2's store
    ensures second { aged_history worked.sizes end 1
        ≡ done_at 0 (done 1 1 Load 1 0) ∷ done_at 0 (done 2 1 Load 1 0) ∷ done_at 0 (done 1 3 Load 1 0) ∷ done_at 1 (done 2 2 Store 1 1) ∷ [] }
    // at the end each line is idle again, and owned by the node that stored to it
    ensures first_owned { header_of worked.sizes (end.state.share 0) 0 ≡ owned_by 1 (0 ∷ []) }
    ensures second_owned { header_of worked.sizes (end.state.share 0) 1 ≡ owned_by 2 (0 ∷ []) }
    // no legal order of all eight operations has those of each node in the order of its program
    ensures unordered { (order : List Entry) → ((node : ℕ) → entries_by node order ≡ done_of node) → IsLegal order → ⊥ }
{}
