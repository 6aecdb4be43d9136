//! What a directory of one home promises.

ghost use Rattle.std.specs.Prelude.{◌≡◌, ◌<◌, ◌↔◌, ◌⊎◌, ℕ, false, Option, length, slice_index, IsTrue, IsErr, OnOk, OnErr, IfSome, IsNone};
ghost use Rattle.op_model.specs.Nodes.{listed, count, enlist, unlist, in_order};
ghost use Rattle.dir_header.specs.Sharers.{Directory, Unlinked, IsDirectory, list_at, held_by, free_in, needs_link as needs_link_in, with_list, only_this};

use crate::listed::Listed;

/// A link is needed and none is free.
#[derive(Clone, Copy, Debug, PartialEq, Eq)]
pub struct NoRoom;

/// The nodes that are listed for each line of one home, and the links that these lists hold. Lines are named by their numbers `m` at their home. No call takes memory.
pub trait Sharers: Drop {
    // What contracts see of a directory. An implementation has one charge.
    ghost directory: { Self → Directory };

    // The line in whose list a link stands, and none where the link is free.
    ghost link_line: { Self → ℕ → Option ℕ };

    // What holds of each directory of this kind: of linked lists, that each link is free or in exactly one line's list.
    ghost is_sound: { Self → Type 0 };

    /// How many lines there are.
    fn lines(&self) -> u32
        ensures value { result ≡ length (directory self.now).lists }
        ensures kept { IsDirectory (directory self.now) }
        ensures sound { is_sound self.now };

    /// Whether a node is listed for a line.
    fn contains(&self, m: u32, node: u32) -> bool
        requires line { m < length (directory self.now).lists }
        requires bound { node < (directory self.now).nodes }
        ensures { result ≡ listed (list_at (directory self.now) m) node };

    /// How many nodes are listed for a line.
    fn count(&self, m: u32) -> u32
        requires { m < length (directory self.now).lists }
        ensures { result ≡ count (list_at (directory self.now) m) };

    /// The node at a place of a line's list, counted from 0, where its nodes stand in increasing order.
    fn nth(&self, m: u32, i: u32) -> u32
        requires line { m < length (directory self.now).lists }
        requires place { i < count (list_at (directory self.now) m) }
        ensures { result ≡ slice_index (in_order (list_at (directory self.now) m)) i };

    /// The nodes that are listed for a line, each handed out once, in increasing order.
    fn listed(&self, m: u32) -> Listed
        requires { m < length (directory self.now).lists }
        ensures { result ≡ in_order (list_at (directory self.now) m) };

    /// How many links a line's list holds.
    fn holds(&self, m: u32) -> u32
        requires { m < length (directory self.now).lists }
        ensures { result ≡ held_by (directory self.now).charge (list_at (directory self.now) m) };

    /// How many links are free.
    fn free(&self) -> u32
        ensures { result ≡ free_in (directory self.now) };

    /// Whether a link is needed to list a node: where it isn't listed and the list isn't empty, if lists cost links.
    fn needs_link(&self, m: u32, node: u32) -> bool
        requires line { m < length (directory self.now).lists }
        requires bound { node < (directory self.now).nodes }
        ensures { result ≡ needs_link_in (directory self.now) m node };

    /// Lists a node. A node that is listed already stays listed once.
    fn add(&mut self, m: u32, node: u32) -> Result<(), NoRoom>
        requires line { m < length (directory self.old).lists }
        requires bound { node < (directory self.old).nodes }
        ensures room { IsErr result ↔ (IsTrue (needs_link_in (directory self.old) m node) × (free_in (directory self.old) ≡ 0)) }
        ensures ok { OnOk result (directory self.new ≡ with_list (directory self.old) m (enlist (list_at (directory self.old) m) node)) }
        ensures err { OnErr result (self.new ≡ self.old) };

    /// Takes a node off a line's list, and answers whether it was listed. Where it wasn't, nothing changes.
    fn remove(&mut self, m: u32, node: u32) -> bool
        requires line { m < length (directory self.old).lists }
        requires bound { node < (directory self.old).nodes }
        ensures was { result ≡ listed (list_at (directory self.old) m) node }
        ensures after { directory self.new ≡ with_list (directory self.old) m (unlist (list_at (directory self.old) m) node) }
        ensures unchanged { result ≡ false → self.new ≡ self.old };

    /// A line's list becomes that of this node alone, or empty.
    fn clear_to(&mut self, m: u32, only: Option<u32>)
        requires line { m < length (directory self.old).lists }
        requires bound { IfSome only (λ node. node < (directory self.old).nodes) }
        ensures { directory self.new ≡ with_list (directory self.old) m (only_this only) };

    /// The line in whose list a link stands, found from the link's number. There may be none only where a link is free, or where lists cost no links.
    fn line_of_link(&self, link: u32) -> Option<u32>
        requires { link < (directory self.now).links }
        ensures found { result ≡ link_line self.now link }
        ensures holds { IfSome result (λ m. (m < length (directory self.now).lists) × (0 < held_by (directory self.now).charge (list_at (directory self.now) m))) }
        ensures free { IsNone result → (0 < free_in (directory self.now)) ⊎ ((directory self.now).charge ≡ Unlinked) };
}
