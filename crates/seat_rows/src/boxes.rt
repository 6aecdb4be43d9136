//! Boxes that are played turn by turn. What each turn answers is worked by hand from the tables.

ghost use Rattle.std.specs.Prelude.{◌≡◌, ◌<◌, ◌+◌, ℕ, IfOk, length};
ghost use Rattle.line_map.specs.Sizes.{Sizes};
ghost use Rattle.op_model.specs.Programs.{IsProgramOf, ArePrograms};
ghost use Rattle.op_model.specs.Parts.Part.{part_at_start};
ghost use Rattle.lane_table.specs.Rule.{parts_from};
ghost use Rattle.lane_table.specs.Views.{AreSeatsOf, IsSeatOf};

use crate::agree::agree;
use lane_table::{LaneTable, NodeSeat, NodeSeats};
use line_map::Machine;
use magic_node::MagicNode;
use node_box::{Named, NodeBox, Turn};
use op_model::{Class, Event, EvictKind, Kind, Numbered, Op, Program};
use sharer_dir::LinkedDir;
use std::alloc::Global;
use std::marker::Brand;
use std::process::Abort;
use std::test::Fail;

// Who plays a turn. A controller is handed a link.
#[derive(Clone, Copy)]
enum Role {
    Processor,
    Controller(u32),
}

// A machine with its programs; the nodes that first load a line of home 0, or store to one, each from the first turn to the last; the
// turns after that, with what each answers; the last entries of one node's log; and how many acknowledgements are then due of lines of
// that node.
#[derive(Clone, Copy)]
struct Row {
    sizes: [u64; 7],
    programs: &'static [&'static [(Kind, u32)]],
    served: &'static [usize],
    turns: &'static [(usize, Role, Turn)],
    node: usize,
    entries: &'static [Numbered],
    due: &'static [(u32, u32)],
}

// The program of a node: loads and stores of words, in order.
fn program_of(
    rt: &impl Abort,
    alloc: Global,
    cfg: &Machine,
    node: u32,
    ops: &[(Kind, u32)],
) -> Result<Program, Fail>
    ensures { IfOk result (IsProgramOf cfg.now node) }
{
    let mut program = Program::empty(alloc);
    for op in ops {
        let (kind, word) = *op;
        assert!(rt; word < cfg.all_words());
        assert!(rt; program.len() < 4294967295);
        program.push(Op {
            node,
            index: program.len(),
            kind,
            word,
            value: 0,
        })?;
    }
    Ok(program)
}

// The programs of all nodes.
fn programs_of(
    rt: &impl Abort,
    alloc: Global,
    cfg: &Machine,
    lists: &[&[(Kind, u32)]],
) -> Result<Vec<Program>, Fail>
    ensures { IfOk result (λ all. ArePrograms cfg.now all.items) }
{
    let mut all = Vec::new(alloc);
    for ops in lists {
        assert!(rt; all.len() < cfg.nodes() as usize);
        let node = all.len() as u32;
        all.push(program_of(rt, alloc, cfg, node, ops)?)?;
    }
    assert!(rt; all.len() == cfg.nodes() as usize);
    Ok(all)
}

fn boxed<K: Named>(
    alloc: Global,
    cfg: Machine,
    node: u32,
    program: Program,
    seat: NodeSeat,
) -> Result<NodeBox<K>, Fail>
    requires seat { IsSeatOf K.table seat }
    requires part { seat.part ≡ part_at_start cfg node program }
    requires below { node < cfg.nodes }
    requires program { IsProgramOf cfg node program }
{
    let dir = LinkedDir::new(alloc, cfg.lines(), cfg.links())?;
    let node = MagicNode::new(alloc, cfg, node, program, dir)?;
    Ok(NodeBox::new(alloc, node, seat)?)
}

// The boxes of all nodes.
fn all_boxes<K: Named + Send>(
    alloc: Global,
    t: &LaneTable,
    mut seats: NodeSeats,
    mut programs: Vec<Program>,
) -> Result<Vec<NodeBox<K>>, Fail>
    requires table { t.now ≡ K.table }
    requires seats { AreSeatsOf t.now seats }
    requires parts { seats.parts ≡ parts_from t.now.setup.sizes 0 programs.items }
    requires programs { ArePrograms t.now.setup.sizes programs.items }
{
    let mut boxes = Vec::new(alloc);
    let mut node = 0;
    while !programs.is_empty() {
        let program = programs.remove(0);
        let Some(seat) = seats.next(t) else {
            unreachable!();
        };
        boxes.push(sent(boxed(alloc, t.cfg(), node, program, seat)?))?;
        node += 1;
    }
    Ok(boxes)
}

fn turn<K: Named>(rt: &impl Abort, t: &LaneTable, b: &mut NodeBox<K>, role: Role) -> Turn
    requires { t.now ≡ K.table }
{
    assert!(rt; b.log().len() < 1 << 48);
    match role {
        Role::Processor => b.processor_turn(t),
        Role::Controller(link) => {
            assert!(rt; link < t.cfg().links());
            b.controller_turn(t, link)
        }
    }
}

// Plays turns, each of which answers as it should.
fn play<K: Named>(
    rt: &impl Abort,
    t: &LaneTable,
    boxes: &mut Vec<NodeBox<K>>,
    turns: &[(usize, Role, Turn)],
)
    requires { t.now ≡ K.table }
{
    for (place, next) in turns.iter().enumerate() {
        let (node, role, answer) = *next;
        assert!(rt; node < boxes.len());
        agree(
            rt,
            place,
            "turn",
            turn(rt, t, &mut boxes[node], role),
            answer,
        );
    }
}

// Each box has the node of its place, which has done nothing.
fn starts<K: Named>(rt: &impl Abort, boxes: &[NodeBox<K>]) {
    let mut node = 0;
    for b in boxes {
        assert!(rt; b.node().number() == node);
        assert!(rt; b.log().is_empty());
        node = node.wrapping_add(1);
    }
}

// The log of a node ends with these entries.
fn logged<K: Named>(rt: &impl Abort, boxes: &[NodeBox<K>], node: usize, entries: &[Numbered]) {
    assert!(rt; node < boxes.len());
    let log = boxes[node].log().entries();
    assert!(rt; log.len() >= entries.len());
    agree(
        rt,
        node,
        "end of the log",
        &log[log.len() - entries.len()..],
        entries,
    );
}

// Of these lines of a home so many acknowledgements are due.
fn waits<K: Named>(rt: &impl Abort, boxes: &[NodeBox<K>], node: usize, due: &[(u32, u32)]) {
    assert!(rt; node < boxes.len());
    let home = boxes[node].node().home();
    for next in due {
        let (line, acks) = *next;
        assert!(rt; line < home.cfg().all_lines());
        assert!(rt; home.cfg().home_of(line) == home.node());
        assert!(rt; home.header(line).acks == acks);
    }
}

// A value that may move to another thread.
fn sent<T: Drop + Send>(value: T) -> T {
    value
}

// A node loads a line of home 0, or stores to one: it issues the operation, hands its request over, and takes the answer.
fn serve<K: Named>(
    rt: &impl Abort,
    t: &LaneTable,
    boxes: &mut Vec<NodeBox<K>>,
    node: usize,
    ticket: u64,
)
    requires { t.now ≡ K.table }
{
    let turns = [
        (node, Role::Processor, Turn::Did(ticket)),
        (node, Role::Controller(0), Turn::Idle),
        (0, Role::Controller(0), Turn::Did(ticket.wrapping_add(1))),
        (0, Role::Controller(0), Turn::Idle),
        (node, Role::Controller(0), Turn::Did(ticket.wrapping_add(2))),
    ];
    play(rt, t, boxes, &turns);
}

fn played<K: Named + Send>(
    rt: &impl Abort,
    alloc: Global,
    t: &LaneTable,
    seats: NodeSeats,
    programs: Vec<Program>,
    row: &Row,
) -> Result<(), Fail>
    requires table { t.now ≡ K.table }
    requires seats { AreSeatsOf t.now seats }
    requires parts { seats.parts ≡ parts_from t.now.setup.sizes 0 programs.items }
    requires programs { ArePrograms t.now.setup.sizes programs.items }
{
    let mut boxes = all_boxes::<K>(alloc, t, seats, programs)?;
    starts(rt, &boxes);
    let mut ticket = 0_u64;
    for node in row.served {
        serve(rt, t, &mut boxes, *node, ticket);
        ticket = ticket.wrapping_add(3);
    }
    play(rt, t, &mut boxes, row.turns);
    logged(rt, &boxes, row.node, row.entries);
    waits(rt, &boxes, row.node, row.due);
    Ok(())
}

fn plays(rt: &impl Abort, alloc: Global, row: &Row) -> Result<(), Fail> {
    let [nodes, lines, words, links, sets, pending, evicts] = row.sizes;
    let cfg = Machine::new(nodes, lines, words, links, sets, pending, evicts).expect(
        rt,
        "the sizes are within their limits",
    );
    let programs = programs_of(rt, alloc, &cfg, row.programs)?;
    let (t, seats) = LaneTable::new(alloc, cfg, programs.as_slice())?;
    played::<Brand>(rt, alloc, &t, seats, programs, row)
}

// A load whose home is the other node. Node 0 has no operation.
const ONE_LOAD: Row = Row {
    sizes: [2, 1, 1, 1, 1, 1, 1],
    programs: &[&[], &[(Kind::Load, 0)]],
    served: &[],
    turns: &[
        (0, Role::Processor, Turn::Ended),
        (0, Role::Controller(0), Turn::Idle),
        (1, Role::Processor, Turn::Did(0)),
        (1, Role::Processor, Turn::Waiting),
        (0, Role::Controller(0), Turn::Idle),
        (1, Role::Controller(0), Turn::Idle),
        (0, Role::Controller(0), Turn::Did(1)),
        (1, Role::Controller(0), Turn::Idle),
        (0, Role::Controller(0), Turn::Idle),
        (1, Role::Controller(0), Turn::Did(2)),
        (1, Role::Processor, Turn::Ended),
        (1, Role::Controller(0), Turn::Idle),
    ],
    node: 1,
    entries: &[
        Numbered {
            ticket: 0,
            event: Event::Issue { node: 1 },
        },
        Numbered {
            ticket: 2,
            event: Event::Take {
                src: 0,
                dst: 1,
                class: Class::Reply,
                victim: None,
            },
        },
    ],
    due: &[],
};

// Lines 0 and 1 share one link, which line 0 has. So a load of line 1 by a second node calls line 0 in.
const VICTIM: Row = Row {
    sizes: [3, 2, 1, 1, 2, 1, 1],
    programs: &[
        &[],
        &[(Kind::Load, 0), (Kind::Load, 1)],
        &[(Kind::Load, 0), (Kind::Load, 1)],
    ],
    served: &[1, 2, 1],
    turns: &[
        (2, Role::Processor, Turn::Did(9)),
        (2, Role::Controller(0), Turn::Idle),
        (0, Role::Controller(0), Turn::Did(10)),
    ],
    node: 0,
    entries: &[Numbered {
        ticket: 10,
        event: Event::Take {
            src: 2,
            dst: 0,
            class: Class::Request,
            victim: Some(0),
        },
    }],
    due: &[(0, 2)],
};

// Node 2 has lines 0 and 1 of home 0 for itself. It writes the first one back to make room for line 2, and while that message isn't taken
// the second one finds no space.
const EXCLUSIVE: Row = Row {
    sizes: [3, 2, 1, 2, 2, 1, 1],
    programs: &[
        &[],
        &[],
        &[
            (Kind::Store, 0),
            (Kind::Store, 1),
            (Kind::Load, 2),
            (Kind::Load, 3),
        ],
    ],
    served: &[2, 2],
    turns: &[
        (2, Role::Processor, Turn::Did(6)),
        (2, Role::Processor, Turn::Did(7)),
        (2, Role::Controller(0), Turn::Idle),
        (1, Role::Controller(0), Turn::Did(8)),
        (1, Role::Controller(0), Turn::Idle),
        (2, Role::Controller(0), Turn::Did(9)),
        (2, Role::Processor, Turn::NoSpace),
        (2, Role::Controller(0), Turn::Idle),
        (2, Role::Processor, Turn::NoSpace),
        (0, Role::Controller(0), Turn::Did(10)),
        (2, Role::Processor, Turn::Did(11)),
        (2, Role::Processor, Turn::Did(12)),
    ],
    node: 2,
    entries: &[
        Numbered {
            ticket: 11,
            event: Event::Evict {
                node: 2,
                line: 1,
                kind: EvictKind::Wb,
            },
        },
        Numbered {
            ticket: 12,
            event: Event::Issue { node: 2 },
        },
    ],
    due: &[],
};

// The same with shared copies. The first one leaves with a hint, and while that isn't taken the second one leaves silently.
const SHARED: Row = Row {
    sizes: [3, 2, 1, 2, 2, 1, 1],
    programs: &[
        &[],
        &[],
        &[
            (Kind::Load, 0),
            (Kind::Load, 1),
            (Kind::Load, 2),
            (Kind::Load, 3),
        ],
    ],
    served: &[2, 2],
    turns: &[
        (2, Role::Processor, Turn::Did(6)),
        (2, Role::Processor, Turn::Did(7)),
        (2, Role::Controller(0), Turn::Idle),
        (1, Role::Controller(0), Turn::Did(8)),
        (1, Role::Controller(0), Turn::Idle),
        (2, Role::Controller(0), Turn::Did(9)),
        (2, Role::Processor, Turn::Did(10)),
    ],
    node: 2,
    entries: &[
        Numbered {
            ticket: 6,
            event: Event::Evict {
                node: 2,
                line: 0,
                kind: EvictKind::Hint,
            },
        },
        Numbered {
            ticket: 7,
            event: Event::Issue { node: 2 },
        },
        Numbered {
            ticket: 9,
            event: Event::Take {
                src: 1,
                dst: 2,
                class: Class::Reply,
                victim: None,
            },
        },
        Numbered {
            ticket: 10,
            event: Event::Evict {
                node: 2,
                line: 1,
                kind: EvictKind::Silent,
            },
        },
    ],
    due: &[],
};

// Nodes 1 and 2 load the 8 lines of home 0. Each load of node 2 takes the next link, so that the last one leaves none free. Then the home
// finds nothing to take, and calls in the line that has the link it is handed.
const CALLED_IN: Row = Row {
    sizes: [3, 8, 1, 8, 8, 1, 1],
    programs: &[
        &[],
        &[
            (Kind::Load, 0),
            (Kind::Load, 1),
            (Kind::Load, 2),
            (Kind::Load, 3),
            (Kind::Load, 4),
            (Kind::Load, 5),
            (Kind::Load, 6),
            (Kind::Load, 7),
        ],
        &[
            (Kind::Load, 0),
            (Kind::Load, 1),
            (Kind::Load, 2),
            (Kind::Load, 3),
            (Kind::Load, 4),
            (Kind::Load, 5),
            (Kind::Load, 6),
            (Kind::Load, 7),
        ],
    ],
    served: &[1, 1, 1, 1, 1, 1, 1, 1, 2, 2, 2, 2, 2, 2, 2],
    turns: &[
        (2, Role::Processor, Turn::Did(45)),
        (2, Role::Controller(0), Turn::Idle),
        (0, Role::Controller(0), Turn::Did(46)),
        (0, Role::Controller(5), Turn::Did(47)),
    ],
    node: 0,
    entries: &[Numbered {
        ticket: 47,
        event: Event::Reclaim { line: 5 },
    }],
    due: &[(5, 2)],
};

#[test]
fn one_load(rt: HostRuntime) -> Result<(), Fail> {
    plays(&rt, rt.alloc(), &ONE_LOAD)
}

#[test]
fn victim(rt: HostRuntime) -> Result<(), Fail> {
    plays(&rt, rt.alloc(), &VICTIM)
}

#[test]
fn exclusive(rt: HostRuntime) -> Result<(), Fail> {
    plays(&rt, rt.alloc(), &EXCLUSIVE)
}

#[test]
fn shared(rt: HostRuntime) -> Result<(), Fail> {
    plays(&rt, rt.alloc(), &SHARED)
}

#[test]
fn called_in(rt: HostRuntime) -> Result<(), Fail> {
    plays(&rt, rt.alloc(), &CALLED_IN)
}
