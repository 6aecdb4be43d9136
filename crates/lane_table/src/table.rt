//! The table, its start and its end.

ghost use Rattle.std.specs.Prelude.{◌≡◌, ◌<◌, ◌≤◌, [], ◌∷◌, length, IfOk, map, All};
ghost use Rattle.line_map.specs.Sizes.{AreSizes};
ghost use Rattle.lane_table.specs.Layout.{cell_word, word_count as words_in};
ghost use Rattle.op_model.specs.Programs.{ArePrograms};
ghost use Rattle.lane_table.specs.Rule.{parts_from};
ghost use Rattle.lane_table.specs.Views.{AreSeatsOf, seat_part};
ghost use Rattle.lane_table.specs.Ends.{IsEnded};

use crate::law::{AllParts, Law, Told, View};
use crate::seat::NodeSeat;
use crate::seats::NodeSeats;
use atomic_table::{Seat, Table};
use line_map::Machine;
use op_model::{Class, NoMemory, Program};
use std::alloc::{AllocError, Global};
use std::marker::Model;
use std::snapshot::Snapshot;

/// The shared table, seen as which table it is and what it was told. Threads share it by reference.
#[derive(Drop)]
pub struct LaneTable {
    pub(crate) table: Table<(), View, Told, Law, Global>,
    cfg: Machine,
}

impl Model for LaneTable {
    ghost use Rattle.std.specs.Prelude.{◌≡◌};
    ghost use Rattle.lane_table.specs.Layout.{word_count};
    ghost use Rattle.lane_table.specs.Views.{TableView};
    ghost use Rattle.lane_table.specs.Codes.{table_code};

    ghost Value = { TableView };

    ghost coded = { table_code };

    ghost view = { λ t. record { id = t.table.shared.table_id; setup = t.table.shared.key } };

    ghost invariant = { λ t. (t.cfg ≡ t.table.shared.key.sizes) × (t.table.shared.table_id.words ≡ word_count t.cfg) × (t.table.shared.table_id.slots ≡ 0) };
}

impl LaneTable {
    /// A table in which nothing is under way, and the seats of its nodes, which have done nothing. There is a program for each node.
    pub fn new(
        alloc: Global,
        cfg: Machine,
        programs: &[Program],
    ) -> Result<(LaneTable, NodeSeats), NoMemory>
        requires { ArePrograms cfg programs.now }
        ensures table { IfOk result (λ made. made.0.setup ≡ record { sizes = cfg; programs = programs.now }) }
        ensures parts { IfOk result (λ made. made.1.parts ≡ parts_from cfg 0 programs.now) }
        ensures seats { IfOk result (λ made. AreSeatsOf made.0 made.1) }
    {
        match LaneTable::laid(alloc, sized(cfg), programs) {
            Ok(made) => Ok(made),
            Err(_) => Err(NoMemory),
        }
    }

    fn laid(
        alloc: Global,
        cfg: Machine,
        programs: &[Program],
    ) -> Result<(LaneTable, NodeSeats), AllocError>
        requires sized { AreSizes cfg }
        requires programs { ArePrograms cfg programs.now }
        ensures table { IfOk result (λ made. made.0.setup ≡ record { sizes = cfg; programs = programs.now }) }
        ensures parts { IfOk result (λ made. made.1.parts ≡ parts_from cfg 0 programs.now) }
        ensures seats { IfOk result (λ made. AreSeatsOf made.0 made.1) }
    {
        let words = vec![in alloc; 0; word_count(&cfg)]?;
        let about = Told {
            cfg,
            programs: shown(alloc, programs)?,
        };
        let (table, seat) = Table::of_words(alloc, words.as_slice(), &about)?;
        Ok((LaneTable { table, cfg }, NodeSeats::all(seat, cfg.nodes())))
    }

    /// Ends the table, where all its seats are given up, and answers how many tickets were drawn.
    pub fn finish(self, mut seats: Vec<NodeSeat>) -> u64
        requires count { length seats.items ≡ self.setup.sizes.nodes }
        requires seats { All (λ seat. seat.id ≡ self.id) seats.items }
        ensures { IsEnded self.setup (map seat_part seats.items) result }
    {
        let nodes = self.cfg.nodes();
        let first = seats.remove(0);
        let all = gathered(&self, first, seats);
        let LaneTable { table, cfg: _ } = self;
        let closed = table.close_with(all);
        let tickets = closed.word(0);
        closed.free();
        tickets
    }

    /// The machine.
    pub fn cfg(&self) -> Machine
        ensures value { result ≡ self.now.setup.sizes }
        ensures sized { AreSizes self.now.setup.sizes }
        ensures words { self.now.id.words ≡ words_in self.now.setup.sizes }
    {
        sized(self.cfg)
    }

    // Where the cell of a lane begins.
    pub(crate) fn header_at(&self, src: u32, dst: u32, class: Class) -> usize
        requires src { src < self.now.setup.sizes.nodes }
        requires dst { dst < self.now.setup.sizes.nodes }
        ensures place { result ≡ cell_word self.now.setup.sizes src dst class 0 }
        ensures inside { result < self.now.id.words }
    {
        let class_number: usize = match class {
            Class::Request => 0,
            Class::Reply => 1,
        };
        let nodes = self.cfg.nodes() as usize;
        let words = self.cfg.words() as usize;
        1 + ((src as usize * nodes + dst as usize) * 2 + class_number) * (1 + words)
    }
}

// A machine's sizes are within their limits.
fn sized(cfg: Machine) -> Machine
    ensures same { result ≡ cfg }
    ensures sized { AreSizes result }
{
    cfg
}

// The words of a table.
fn word_count(cfg: &Machine) -> usize
    ensures { result ≡ words_in cfg.now }
{
    let nodes = cfg.nodes() as usize;
    1 + nodes * nodes * 2 * (1 + cfg.words() as usize)
}

// The programs, as clauses see them.
fn shown(alloc: Global, programs: &[Program]) -> Result<Vec<Snapshot<Program>>, AllocError>
    ensures { IfOk result (λ v. map (λ s. s.value) v.items ≡ programs.now) }
{
    let mut all = Vec::new(alloc);
    for program in programs {
        all.push(Snapshot::of(program))?;
    }
    Ok(all)
}

// Puts all seats into the first.
fn gathered(t: &LaneTable, first: NodeSeat, seats: Vec<NodeSeat>) -> Seat<(), View>
    requires first { first.id ≡ t.now.id }
    requires seats { All (λ seat. seat.id ≡ t.now.id) seats.items }
    ensures table { result.table_id ≡ t.now.id }
    ensures view { result.me ≡ (first.part ∷ map seat_part seats.items, []) }
{
    let NodeSeat {
        seat: mut all,
        node: _,
    } = first;
    for other in seats {
        let NodeSeat { seat, node: _ } = other;
        t.table.shared.join_seat::<AllParts>(&mut all, seat);
    }
    all
}
