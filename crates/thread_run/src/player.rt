//! One role of one node: what it knows between its turns, and a turn of it.

ghost use Rattle.std.specs.Prelude.{◌≡◌, ◌<◌};

use crate::gate::{Gate, Role};
use lane_table::LaneTable;
use node_box::{Named, NodeBox, Turn};
use picker::{Choice, Picker};
use rand_core::SeedableRng;
use rand_core::utils::NextWord;
use rand_pcg::Pcg32;

// A node whose log has so many entries makes no more turns.
const MOST_ENTRIES: u64 = 1 << 48;

/// A role of a node, between its turns.
#[derive(Drop)]
pub(crate) struct Player {
    node: u32,
    role: Role,
    // The number of its next turn, which stays at the greatest u64.
    turn: u64,
    // How many operations the node's processor had completed at the end of its last turn.
    done: u32,
    // The words by which a controller picks its links.
    words: Pcg32,
    over: bool,
}

impl Player {
    /// A role before its first turn.
    pub(crate) fn new(node: u32, role: Role) -> Player {
        Player {
            node,
            role,
            turn: 0,
            done: 0,
            words: Pcg32::seed_from_u64(u64::from(node)),
            over: false,
        }
    }

    /// The role.
    pub(crate) fn role(&self) -> Role {
        self.role
    }

    /// Whether the role makes no more turns.
    pub(crate) fn is_over(&self) -> bool {
        self.over
    }

    /// Says whether the role makes no more turns.
    pub(crate) fn set_over(&mut self, over: bool) {
        self.over = over;
    }

    /// Calls the gate, as comes before each turn.
    pub(crate) fn pass<G: Gate>(&self, gate: &G) {
        gate.pass(self.node, self.role, self.turn, self.done);
    }

    /// One turn in the node's box. Where the node's log is full none is made.
    pub(crate) fn act<K: Named, F: Choice>(
        &mut self,
        t: &LaneTable,
        node: &mut NodeBox<K>,
        picker: &Picker<F>,
    ) -> Turn
        requires { t.now ≡ K.table }
    {
        if node.log().len() >= MOST_ENTRIES {
            return Turn::Idle;
        }
        let did = match self.role {
            Role::Processor => node.processor_turn(t),
            Role::Controller => {
                let link = self.next_link(t, picker);
                node.controller_turn(t, link)
            }
        };
        self.turn = self.turn.saturating_add(1);
        self.done = node.node().proc().done_count();
        did
    }

    // The link of a controller's turn.
    fn next_link<F: Choice>(&mut self, t: &LaneTable, picker: &Picker<F>) -> u32
        ensures { result < t.now.setup.sizes.links }
    {
        let word = self.words.next_word();
        picker.pick(u64::from(word), t.cfg().links())
    }
}
