//! A machine that is driven and reported.

ghost use Rattle.std.specs.Prelude.{◌≡◌, refl};

use dir_header::Sharers;
use lane_queues::Lanes;
use machine::Machine1;
use machine_face::MachineFace;
use op_model::Event;
use time_view::Viewed;

/// A machine that is driven through a run, and whose texts are of that run.
pub trait Playable: MachineFace + Viewed {
    /// The events that the machine has made, in their order.
    fn events(&self) -> &[Event]
        ensures { result.now ≡ (Self.MachineFace.meaning self.now).events };

    ghost same: { (m : Self) → Self.Reported.meaning m ≡ Self.MachineFace.meaning m };
}

impl<D: Sharers, Q: Lanes> Playable for Machine1<D, Q> {
    ghost same = { λ m. refl };

    fn events(&self) -> &[Event] {
        Machine1::events(self)
    }
}
