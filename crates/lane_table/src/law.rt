//! The rule of the table, and what a seat knows.

ghost use Rattle.std.specs.Prelude.{◌≡◌, ℕ, List, [], ◌∷◌, map};
ghost use Rattle.lane_table.specs.Rule.{IsKept, parts_from};
ghost use Rattle.lane_table.specs.Views.{heads, tails};

use atomic_table::{Join, Split, TableRule};
use line_map::Machine;
use op_model::Program;
use std::marker::Model;
use std::snapshot::Snapshot;

/// The parts that a seat has. No value of it is made.
pub struct View;

impl Model for View {
    ghost use Rattle.std.specs.Prelude.{List, []};
    ghost use Rattle.op_model.specs.Parts.Part.{Part};
    ghost use Rattle.lane_table.specs.Codes.{parts_code};

    ghost Value = { List Part };

    ghost coded = { parts_code };

    ghost view = { λ _. [] };
}

/// What a table is told when it is made. The programs stay where they are.
#[derive(Drop)]
pub struct Told {
    pub(crate) cfg: Machine,
    pub(crate) programs: Vec<Snapshot<Program>>,
}

impl Model for Told {
    ghost use Rattle.std.specs.Prelude.{map};
    ghost use Rattle.lane_table.specs.Setups.{Setup};
    ghost use Rattle.lane_table.specs.Codes.{setup_code};

    ghost Value = { Setup };

    ghost coded = { setup_code };

    ghost view = { λ t. record { sizes = t.cfg; programs = map (λ s. s.value) t.programs.items } };
}

/// The rule of the table.
pub struct Law;

impl TableRule<(), View, Told> for Law {
    ghost holds = { λ k s. IsKept k s };

    ghost first = { λ k. parts_from k.sizes 0 k.programs };
}

/// Cuts the first part off.
pub(crate) struct OneEach;

impl Split<View> for OneEach {
    ghost left = { tails };

    ghost right = { heads };
}

/// Puts the parts of two seats together.
pub(crate) struct AllParts;

impl Join<View> for AllParts {
    ghost use Rattle.std.specs.Prelude.{◌++◌, []};

    ghost both = { λ v w. v ++ w };

    ghost spent = { [] };
}
