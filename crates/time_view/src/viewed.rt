//! What is read of a machine for the text of its whole state.

ghost use Rattle.std.specs.Prelude.{◌≡◌, ◌≢◌, ◌<◌, length, slice_get, Some};
ghost use Rattle.line_map.specs.Sizes.{all_lines};
ghost use Rattle.op_model.specs.Lines.{state_of, words_of};
ghost use Rattle.op_model.specs.MessageWords.{IsMsgOf};
ghost use Rattle.op_model.specs.Shares.{copy_of};
ghost use Rattle.dir_report.specs.Reports.{header_at};

use dir_report::Reported;
use line_map::Body;
use op_model::{Class, CopyState, Entry, Msg, Want};

/// A machine that has made a run, as far as the text of its whole state reads it. No call scans lines, lanes or events.
pub trait Viewed: Reported {
    /// How many events the run has.
    fn event_count(&self) -> u64
        ensures { result ≡ length (Self.meaning self.now).events };

    /// The entries of the operations that were served, in their order, completed or not.
    fn served(&self) -> &[Entry]
        ensures { result.now ≡ (Self.meaning self.now).past.served };

    /// The place of a node in its program: how many of its operations are completed.
    fn place(&self, node: u32) -> u32
        requires { node < (Self.meaning self.now).sizes.nodes }
        ensures { result ≡ ((Self.meaning self.now).past.state.share node).place };

    /// The operation that a node has begun and not done.
    fn want(&self, node: u32) -> Option<Want>
        requires { node < (Self.meaning self.now).sizes.nodes }
        ensures { result ≡ ((Self.meaning self.now).past.state.share node).want };

    /// What a node's cache has of a line.
    fn cached(&self, node: u32, line: u32) -> CopyState
        requires node { node < (Self.meaning self.now).sizes.nodes }
        requires line { line < all_lines (Self.meaning self.now).sizes }
        ensures { result ≡ state_of (copy_of ((Self.meaning self.now).past.state.share node) line) };

    /// The words of a node's copy of a line that has one.
    fn cached_words(&self, node: u32, line: u32) -> Body
        requires node { node < (Self.meaning self.now).sizes.nodes }
        requires line { line < all_lines (Self.meaning self.now).sizes }
        requires copied { state_of (copy_of ((Self.meaning self.now).past.state.share node) line) ≢ CopyState.Absent }
        ensures value { result ≡ words_of (copy_of ((Self.meaning self.now).past.state.share node) line) }
        ensures width { length result ≡ (Self.meaning self.now).sizes.words };

    /// The words of a line in memory, at its home.
    fn memory(&self, line: u32) -> Body
        requires { line < all_lines (Self.meaning self.now).sizes }
        ensures value { result ≡ (header_at (Self.meaning self.now).sizes (Self.meaning self.now).past.state line).memory }
        ensures width { length result ≡ (Self.meaning self.now).sizes.words };

    /// How many messages a lane holds.
    fn lane_len(&self, src: u32, dst: u32, class: Class) -> u32
        requires from { src < (Self.meaning self.now).sizes.nodes }
        requires to { dst < (Self.meaning self.now).sizes.nodes }
        ensures { result ≡ length ((Self.meaning self.now).past.state.lane src dst class) };

    /// The message at a place of a lane, counted from 0 at the front. It is one of the machine's.
    fn lane_at(&self, src: u32, dst: u32, class: Class, i: u32) -> Msg
        requires from { src < (Self.meaning self.now).sizes.nodes }
        requires to { dst < (Self.meaning self.now).sizes.nodes }
        requires below { i < length ((Self.meaning self.now).past.state.lane src dst class) }
        ensures value { slice_get ((Self.meaning self.now).past.state.lane src dst class) i ≡ Some result }
        ensures of_machine { IsMsgOf (Self.meaning self.now).sizes result };
}
