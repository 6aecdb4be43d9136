//! All nodes and lanes of the machine, with the journal of their events.

ghost use Rattle.std.specs.Prelude.{◌≡◌, ◌∷◌, ◌++◌, [], map, All, OnOk, OnErr, IfErr};
ghost use Rattle.machine.specs.Kept.{charge_in, programs_in};
ghost use Rattle.machine.specs.Journals.{IsKeptWith};
ghost use Rattle.op_model.specs.Run.Machines.{IsEventOf};
ghost use Rattle.machine.specs.Faces.{face_of, dir_of};
ghost use Rattle.machine.specs.Answers.{IsCauseIn};

use crate::acts::do_event;
use crate::journal::Journal;
use crate::sending::move_messages;
use dir_header::Sharers;
use event_tally::naks_of;
use lane_queues::Lanes;
use line_map::Machine;
use machine_face::ApplyError;
use magic_node::MagicNode;
use msg_words::Sends;
use op_model::Event;
use std::alloc::Global;

/// The nodes of a machine in the order of their numbers, the lanes between them, the journal, and room for what an event sends.
#[derive(Drop)]
pub(crate) struct Run<D: Sharers, Q: Lanes> {
    pub(crate) cfg: Machine,
    pub(crate) nodes: Vec<MagicNode<D>>,
    pub(crate) lanes: Q,
    pub(crate) journal: Journal,
    pub(crate) out: Sends,
    pub(crate) alloc: Global,
}

impl<D: Sharers, Q: Lanes> Run<D, Q> {
    /// Makes an event, or refuses it for its first cause. A refusal, and want of memory, change nothing.
    pub(crate) fn apply(&mut self, event: Event) -> Result<(), ApplyError>
        requires kept { IsKeptWith self.old.cfg (map face_of self.old.nodes.items) (Q.meaning self.old.lanes) self.old.journal self.old.out }
        requires dirs { All D.is_sound (map dir_of self.old.nodes.items) }
        requires of_machine { IsEventOf self.old.cfg event }
        ensures cfg { self.new.cfg ≡ self.old.cfg }
        ensures kept { IsKeptWith self.new.cfg (map face_of self.new.nodes.items) (Q.meaning self.new.lanes) self.new.journal self.new.out }
        ensures dirs { All D.is_sound (map dir_of self.new.nodes.items) }
        ensures programs { programs_in (map face_of self.new.nodes.items) ≡ programs_in (map face_of self.old.nodes.items) }
        ensures charge { charge_in (map face_of self.new.nodes.items) ≡ charge_in (map face_of self.old.nodes.items) }
        ensures ok { OnOk result (self.new.journal.events.items ≡ self.old.journal.events.items ++ event ∷ []) }
        ensures err { OnErr result ((self.new.journal.events.items ≡ self.old.journal.events.items) × (self.new.nodes.items ≡ self.old.nodes.items)) }
        ensures cause { IfErr result (IsCauseIn self.old.cfg (map face_of self.old.nodes.items) (Q.meaning self.old.lanes).lane event) }
    {
        self.journal.reserve().map_err(|_| ApplyError::Memory)?;
        let act = match do_event(self.cfg, &mut self.nodes, &self.lanes, &mut self.out, event) {
            Ok(act) => act,
            Err(cause) => return Err(ApplyError::NotEnabled(cause)),
        };
        move_messages(&mut self.lanes, event, act.departs, act.node, &self.out);
        let naks = naks_of(&self.out);
        self.out.clear();
        self.journal.note(event, &act, naks);
        Ok(())
    }
}
