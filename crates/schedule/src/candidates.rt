//! The candidates of a random step: what the processors may do, the messages, the reclaims.

mod processors;
mod reclaims;
mod takes;

ghost use Rattle.std.specs.Prelude.{◌≡◌, [], ◌∷◌, ◌++◌, OnOk};
ghost use Rattle.op_model.specs.Run.Machines.{IsEventOf};
ghost use Rattle.schedule.specs.Candidates.{candidates_on, enabled_of};

use crate::candidates::processors::offer_processors;
use crate::candidates::reclaims::offer_reclaims;
use crate::candidates::takes::offer_takes;
use machine_face::MachineFace;
use op_model::{Event, NoMemory};

/// Puts an event at the end of the list.
pub(crate) fn put(list: &mut Vec<Event>, event: Event) -> Result<(), NoMemory>
    ensures { OnOk result (list.new.items ≡ list.old.items ++ event ∷ []) }
{
    list.push(event).map_err(|_| NoMemory)
}

/// Puts an event at the end of the list, where it is enabled.
pub(crate) fn offer<M: MachineFace>(
    m: &M,
    event: Event,
    list: &mut Vec<Event>,
) -> Result<(), NoMemory>
    requires { IsEventOf (M.meaning m.now).sizes event }
    ensures { OnOk result (list.new.items ≡ list.old.items ++ enabled_of (M.meaning m.now) (event ∷ [])) }
{
    if m.enabled(&event).is_ok() {
        put(list, event)?;
    }
    Ok(())
}

/// Lists all candidates, in place of what the list held.
pub(crate) fn list_candidates<M: MachineFace>(m: &M, list: &mut Vec<Event>) -> Result<(), NoMemory>
    ensures { OnOk result (list.new.items ≡ candidates_on (M.meaning m.now)) }
{
    list.clear();
    offer_processors(m, list)?;
    offer_takes(m, list)?;
    offer_reclaims(m, list)
}
