//! What is read of the machine's run.

ghost use Rattle.std.specs.Prelude.{◌≡◌};
ghost use Rattle.op_model.specs.Programs.{programs_of};
ghost use Rattle.eager_model.specs.Runs.{start as start_of};
ghost use Rattle.event_tally.specs.Tallies.{tally_of};
ghost use Rattle.eager_report.specs.Moments.{moments};

use crate::eager::EagerMachine;

impl EagerMachine {
    /// The numbers of all counts, in their order.
    pub(crate) fn counts(&self) -> &[u64; 27]
        ensures { result.now ≡ tally_of self.now.sizes (moments self.now.sizes (programs_of self.now.programs) (start_of self.now.sizes) self.now.events) }
    {
        &self.run.journal.counts
    }
}
