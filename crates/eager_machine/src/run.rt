//! All nodes and lanes of the machine, with the journal of their events.

ghost use Rattle.std.specs.Prelude.{◌≡◌, ◌∷◌, ◌++◌, [], OnOk, OnErr, IfErr};
ghost use Rattle.op_model.specs.Run.Machines.{IsEventOf};
ghost use Rattle.eager_machine.specs.Answers.{IsCauseIn};
ghost use Rattle.eager_machine.specs.Kept.{programs_in};
ghost use Rattle.eager_machine.specs.Lanes.{lane_in};
ghost use Rattle.eager_machine.specs.Outboxes.{under_way};
ghost use Rattle.eager_machine.specs.Runs.{IsRunKept};

use crate::acts::do_event;
use crate::journal::Journal;
use crate::lanes::AgedLanes;
use crate::sending::{Outbox, send_all, take_off};
use eager_home::EagerNode;
use event_tally::naks_of;
use line_map::Machine;
use machine_face::ApplyError;
use op_model::{Event, NoMemory};

/// The nodes of a machine in the order of their numbers, the lanes between them, what the last event sent, and the journal.
#[derive(Drop)]
pub(crate) struct EagerRun {
    pub(crate) cfg: Machine,
    pub(crate) nodes: Vec<EagerNode>,
    pub(crate) lanes: AgedLanes,
    pub(crate) out: Outbox,
    pub(crate) journal: Journal,
}

impl EagerRun {
    /// What the last event sent goes into its lanes, which then hold all that is under way. Want of memory leaves the last messages where they are. Nothing else changes.
    pub(crate) fn settle(&mut self) -> Result<(), NoMemory>
        requires { IsRunKept self.old.cfg self.old.nodes.items self.old.lanes self.old.out self.old.journal }
        ensures kept { IsRunKept self.new.cfg self.new.nodes.items self.new.lanes self.new.out self.new.journal }
        ensures cfg { self.new.cfg ≡ self.old.cfg }
        ensures nodes { self.new.nodes ≡ self.old.nodes }
        ensures journal { self.new.journal ≡ self.old.journal }
        ensures settled { OnOk result (lane_in self.new.lanes ≡ under_way self.old.lanes self.old.out) }
    {
        send_all(&mut self.lanes, &mut self.out)
    }

    /// Makes an event, or refuses it for its first cause. A refusal, and want of memory, change nothing but what of the last event's messages has gone into the lanes already.
    pub(crate) fn apply(&mut self, event: Event) -> Result<(), ApplyError>
        requires kept { IsRunKept self.old.cfg self.old.nodes.items self.old.lanes self.old.out self.old.journal }
        requires of_machine { IsEventOf self.old.cfg event }
        ensures cfg { self.new.cfg ≡ self.old.cfg }
        ensures kept { IsRunKept self.new.cfg self.new.nodes.items self.new.lanes self.new.out self.new.journal }
        ensures programs { programs_in self.new.nodes.items ≡ programs_in self.old.nodes.items }
        ensures ok { OnOk result (self.new.journal.events.items ≡ self.old.journal.events.items ++ event ∷ []) }
        ensures err { OnErr result (self.new.journal.events.items ≡ self.old.journal.events.items) }
        ensures cause { IfErr result (IsCauseIn self.old.cfg self.old.nodes.items (under_way self.old.lanes self.old.out) event) }
    {
        let Ok(()) = self.journal.reserve() else {
            return Err(ApplyError::Memory);
        };
        let Ok(()) = send_all(&mut self.lanes, &mut self.out) else {
            return Err(ApplyError::Memory);
        };
        let act = match do_event(
            self.cfg,
            &mut self.nodes,
            &self.lanes,
            &mut self.out.sends,
            event,
        ) {
            Ok(act) => act,
            Err(cause) => return Err(ApplyError::NotEnabled(cause)),
        };
        take_off(&mut self.lanes, event);
        self.out.node = act.node;
        self.out.given = act.given;
        let naks = naks_of(&self.out.sends);
        self.journal.note(event, &act, naks);
        Ok(())
    }
}
