//! One table, as a type.

use std::marker::Brand;

/// One table with its machine and its programs. Each call of a program picks it.
pub trait Named {
    ghost use Rattle.lane_table.specs.Views.{TableView};

    ghost table: { TableView };
}

impl Named for Brand {
    ghost use Rattle.node_box.specs.Boxes.{no_table};

    ghost table = { no_table };
}
