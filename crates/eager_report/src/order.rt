//! The order in which entries are printed.

ghost use Rattle.std.specs.Prelude.{◌≡◌, ◌<◌, map, OnOk};
ghost use Rattle.std.specs.List.{All};
ghost use Rattle.line_map.specs.Sizes.{all_words, line_of as line_of_word};
ghost use Rattle.eager_report.specs.Orders.{as_aged, by_lines};

use crate::aged::AgedEntry;
use line_map::Machine;
use op_model::NoMemory;

/// The line of an operation.
pub(crate) fn line_of(cfg: &Machine, aged: &AgedEntry) -> u32
    ensures { result ≡ line_of_word cfg.now aged.now.entry.word }
{
    aged.entry.word / cfg.words()
}

/// Puts operations in the order of their lines, and those of a line in the order of their ages. Those of one line and one age stay in their order.
pub(crate) fn order(cfg: &Machine, entries: &mut Vec<AgedEntry>) -> Result<(), NoMemory>
    requires { All (λ aged. aged.entry.word < all_words cfg.now) entries.old.items }
    ensures { OnOk result (map as_aged entries.new.items ≡ by_lines cfg.now (map as_aged entries.old.items)) }
{
    // The machine says here that a line has words.
    let _words = cfg.words();
    match entries.sort_by_key(|aged| (line_of(cfg, aged), aged.age)) {
        Ok(()) => Ok(()),
        Err(_) => Err(NoMemory),
    }
}
