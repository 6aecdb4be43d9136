//! What the text of a run reads of a machine.

ghost use Rattle.std.specs.Prelude.{◌≡◌, ◌<◌, map, IfOk};
ghost use Rattle.std.specs.List.{All};
ghost use Rattle.line_map.specs.Sizes.{all_words};
ghost use Rattle.op_model.specs.Run.Counts.{all_counts, counted};
ghost use Rattle.eager_report.specs.Machines.{EagerSeen, heads_of, moments_of};
ghost use Rattle.eager_report.specs.Orders.{as_aged};
ghost use Rattle.eager_report.specs.Reports.{completed_of};

use crate::aged::AgedEntry;
use dir_report::Headed;
use op_model::NoMemory;
use std::alloc::Global;

/// A machine of the eager core that has made a run, as far as the text of the run reads it. No call scans lines or events, but the one that gives the completed operations.
pub trait EagerReported: Headed {
    /// The machine with the run that it has made.
    ghost meaning: { Self → EagerSeen };

    /// The completed operations with their ages, in the order of the events that served them. Each is on a word of the machine.
    fn completed(&self, alloc: Global) -> Result<Vec<AgedEntry>, NoMemory>
        ensures value { IfOk result (λ v. map as_aged v.items ≡ completed_of (meaning self.now).past) }
        ensures within { IfOk result (λ v. All (λ aged. aged.entry.word < all_words (meaning self.now).sizes) v.items) };

    /// The numbers of all counts, in their order.
    fn counts(&self) -> &[u64; 27]
        ensures { result.now ≡ map (counted (moments_of (meaning self.now))) (all_counts (meaning self.now).sizes) };

    /// Its headers are those that its run has come to, in eager mode.
    ghost same: { (m : Self) → Self.heads m ≡ heads_of (meaning m) };
}
