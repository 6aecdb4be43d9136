//! The entry of the operation that an event serves, with its age.

ghost use Rattle.std.specs.Prelude.{◌≡◌, length, option_to_list, Some};
ghost use Rattle.op_model.specs.Run.Runs.{entry_for};
ghost use Rattle.op_model.specs.Shares.{want_on};
ghost use Rattle.machine.specs.Acts.{entries_after, FillsLine};
ghost use Rattle.eager_machine.specs.Acts.{at_age};
ghost use Rattle.eager_machine.specs.Journals.{served_in};
ghost use Rattle.eager_machine.specs.Kept.{share_in};

use cpu_cache::Served;
use eager_home::EagerNode;
use eager_report::AgedEntry;
use line_map::{Body, Machine};
use machine::wanted_entry;
use op_model::{Entry, Msg};

// The entry of what a node has begun on a line, of which it is sent these words.
fn entry_read(
    cfg: &Machine,
    nodes: &Vec<EagerNode>,
    node: u32,
    line: u32,
    body: &Body,
) -> Option<Entry>
    requires { length body.now ≡ cfg.now.words }
    ensures { option_to_list result ≡ entry_for node (share_in cfg.now nodes.now.items node).place body.now (want_on cfg.now (share_in cfg.now nodes.now.items node).want line) }
{
    let reader = nodes.get(node as usize)?;
    wanted_entry(cfg, node, reader.proc(), line, body)
}

/// The entry of the operation that was served when a message was taken, where one was served.
pub(crate) fn entry_served(
    cfg: &Machine,
    nodes: &Vec<EagerNode>,
    msg: &Msg,
    served: &Served,
) -> Option<Entry>
    requires { FillsLine cfg.now served.now }
    ensures { option_to_list result ≡ entries_after cfg.now (share_in cfg.now nodes.now.items) (Some msg.now) served.now }
{
    match served {
        Served::Nothing => None,
        Served::Own(entry) => Some(*entry),
        Served::LoadBy { node, body } => entry_read(cfg, nodes, *node, msg.line(), body),
    }
}

/// An entry with its age.
pub(crate) fn aged_entry(age: u64, entry: Option<Entry>) -> Option<AgedEntry>
    ensures { served_in (option_to_list result) ≡ at_age age (option_to_list entry) }
{
    match entry {
        Some(entry) => Some(AgedEntry { age, entry }),
        None => None,
    }
}
