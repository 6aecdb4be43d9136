//! What is read of a machine for the text of its headers.

ghost use Rattle.std.specs.Prelude.{◌≡◌, ◌<◌, slice_index};
ghost use Rattle.line_map.specs.Sizes.{all_lines};
ghost use Rattle.op_model.specs.Nodes.{count, in_order};
ghost use Rattle.dir_header.specs.HomeSides.{fields};
ghost use Rattle.dir_report.specs.Reports.{header_at};
ghost use Rattle.dir_report.specs.Machines.{Heads};

use crate::mode::Mode;
use dir_header::Header;
use line_map::Machine;

/// A machine in the state that its run has come to, as far as the text of its headers reads it. No call scans lines.
pub trait Headed {
    /// The headers, with the machine's mode and its sizes.
    ghost heads: { Self → Heads };

    /// The mode of the machine.
    fn mode(&self) -> Mode
        ensures { result ≡ (heads self.now).mode };

    /// The sizes of the machine.
    fn sizes(&self) -> Machine
        ensures { result ≡ (heads self.now).sizes };

    /// The header of a line at its home.
    fn header(&self, g: u32) -> Header
        requires { g < all_lines (heads self.now).sizes }
        ensures { result ≡ fields (header_at (heads self.now).sizes (heads self.now).state g) };

    /// How many nodes are listed for a line.
    fn listed_count(&self, g: u32) -> u32
        requires { g < all_lines (heads self.now).sizes }
        ensures { result ≡ count (header_at (heads self.now).sizes (heads self.now).state g).list };

    /// The node at a place of a line's list, counted from 0, where its nodes stand in increasing order.
    fn listed_at(&self, g: u32, i: u32) -> u32
        requires line { g < all_lines (heads self.now).sizes }
        requires place { i < count (header_at (heads self.now).sizes (heads self.now).state g).list }
        ensures { result ≡ slice_index (in_order (header_at (heads self.now).sizes (heads self.now).state g).list) i };
}
