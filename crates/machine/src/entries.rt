//! The entry of the operation that an event serves.

ghost use Rattle.std.specs.Prelude.{◌≡◌, ◌<◌, ℕ, map, length, option_to_list, None, Some, IfOk};
ghost use Rattle.op_model.specs.Operations.{entry_of};
ghost use Rattle.op_model.specs.Run.Runs.{entry_for};
ghost use Rattle.op_model.specs.Run.History.{is_completed, kept_of};
ghost use Rattle.op_model.specs.Shares.{Lanes, Share, want_on};
ghost use Rattle.line_map.specs.Sizes.{Sizes};
ghost use Rattle.machine.specs.Kept.{share_in, state_of};
ghost use Rattle.machine.specs.Faces.{face_of};
ghost use Rattle.machine.specs.Acts.{entries_after, FillsLine};

use cpu_cache::{Proc, Served};
use dir_header::Sharers;
use line_map::{Body, Machine};
use magic_node::MagicNode;
use op_model::{Entry, Kind, Msg, NoMemory, Op, old_at};
use std::alloc::Global;

// The entry of an operation that found these words in its line.
fn entry_on(node: u32, index: u32, op: &Op, body: &Body, width: u32) -> Entry
    requires width { length body.now ≡ width }
    requires some { 0 < width }
    ensures { result ≡ entry_of node index op.now body.now }
{
    let before = body.get(op.word % width);
    Entry {
        node,
        index,
        kind: op.kind,
        word: op.word,
        value: match op.kind {
            Kind::Load => before,
            Kind::Store | Kind::Swap | Kind::Add => op.value,
        },
        old: old_at(op.kind, before),
    }
}

/// The entry of what a processor has begun on a line, of which it is sent these words. None where it has begun nothing there.
pub fn wanted_entry(cfg: &Machine, node: u32, proc: &Proc, line: u32, body: &Body) -> Option<Entry>
    requires { length body.now ≡ cfg.now.words }
    ensures { option_to_list result ≡ entry_for node proc.now.place body.now (want_on cfg.now proc.now.want line) }
{
    let want = proc.want()?;
    if want.op.word / cfg.words() != line {
        return None;
    }
    let place = proc.done_count();
    Some(entry_on(node, place, &want.op, body, cfg.words()))
}

// The entry of what a node has begun on a line, of which it is sent these words.
fn entry_read<D: Sharers>(
    cfg: &Machine,
    nodes: &Vec<MagicNode<D>>,
    node: u32,
    line: u32,
    body: &Body,
) -> Option<Entry>
    requires { length body.now ≡ cfg.now.words }
    ensures { option_to_list result ≡ entry_for node (share_in cfg.now (map face_of nodes.now.items) node).place body.now (want_on cfg.now (share_in cfg.now (map face_of nodes.now.items) node).want line) }
{
    let reader = nodes.get(node as usize)?;
    wanted_entry(cfg, node, reader.proc(), line, body)
}

/// The entry of the operation that an event of a node by itself served, where it served one: the node's own.
pub fn own_entry(served: &Served) -> Option<Entry>
    ensures { (sizes : Sizes) (share : ℕ → Share) → option_to_list result ≡ entries_after sizes share None served.now }
{
    match served {
        Served::Own(entry) => Some(*entry),
        Served::Nothing | Served::LoadBy { .. } => None,
    }
}

/// The entry of the operation that was served when a message was taken, where one was served.
pub(crate) fn entry_served<D: Sharers>(
    cfg: &Machine,
    nodes: &Vec<MagicNode<D>>,
    msg: &Msg,
    served: &Served,
) -> Option<Entry>
    requires { FillsLine cfg.now served.now }
    ensures { option_to_list result ≡ entries_after cfg.now (share_in cfg.now (map face_of nodes.now.items)) (Some msg.now) served.now }
{
    match served {
        Served::Nothing => None,
        Served::Own(entry) => Some(*entry),
        Served::LoadBy { node, body } => entry_read(cfg, nodes, *node, msg.line(), body),
    }
}

// Whether an operation is completed: its node's place is above its index.
fn is_done<D: Sharers>(nodes: &Vec<MagicNode<D>>, entry: &Entry) -> bool
    ensures { (sizes : Sizes) (lane : Lanes) → result ≡ is_completed (state_of sizes (map face_of nodes.now.items) lane) entry.now }
{
    match nodes.get(entry.node as usize) {
        Some(node) => entry.index < node.proc().done_count(),
        None => false,
    }
}

/// The entries of completed operations among those served, in the same order.
pub(crate) fn completed<D: Sharers>(
    alloc: Global,
    nodes: &Vec<MagicNode<D>>,
    served: &[Entry],
) -> Result<Vec<Entry>, NoMemory>
    ensures { IfOk result (λ entries. (sizes : Sizes) (lane : Lanes) → entries.items ≡ kept_of (state_of sizes (map face_of nodes.now.items) lane) served.now) }
{
    let Ok(mut entries) = Vec::with_capacity(alloc, served.len()) else {
        return Err(NoMemory);
    };
    for entry in served {
        if is_done(nodes, entry) {
            entries.push_reserved(*entry);
        }
    }
    Ok(entries)
}
