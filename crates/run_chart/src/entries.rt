//! Entries of operations that were served.

ghost use Rattle.std.specs.Prelude.{◌≡◌, slice_get};
ghost use Rattle.chart_strokes.specs.Strokes.{operation_entry};

use op_model::Entry;

/// The entry behind the first so many, if there is one.
#[tactic(auto, using(std::proofs::lemmas::Option::gets))]
pub(crate) fn entry_behind(entries: &[Entry], count: usize) -> Option<Entry>
    ensures { result ≡ slice_get entries.now count }
{
    entries.get(count).copied()
}

/// The first entry of the operation at this place of a node's program.
pub(crate) fn entry_at(entries: &[Entry], node: u32, place: u32) -> Option<Entry>
    ensures { result ≡ operation_entry node place entries.now }
{
    for entry in entries {
        if entry.node == node && entry.index == place {
            return Some(*entry);
        }
    }
    None
}
