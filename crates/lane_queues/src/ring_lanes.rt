//! The body of lanes over rings of message words.

ghost use Rattle.std.specs.Prelude.{◌≡◌, ◌+◌, ◌-◌, ◌^◌, ◌<◌, ◌≤◌, ◌∷◌, [], length, slice_index, slice_set, if◌then◌else◌, IfOk};
ghost use Rattle.op_model.specs.Events.Step.{departures};
ghost use Rattle.lane_queues.specs.LaneStates.{no_messages};
ghost use Rattle.lane_queues.specs.Queues.{meaning_of};

use crate::busy::BusyLanes;
use crate::numbers::{lane_number, pair_number};
use crate::rings::Rings;
use crate::traits::Lanes;
use line_map::Machine;
use op_model::{Class, Full, Msg, NoMemory};
use std::alloc::Global;
use std::marker::Model;

/// The lanes of a machine as rings of message words, with counts of evictions and the set of busy lanes. It takes memory only where it is made.
#[derive(Drop)]
pub struct RingLanes {
    rings: Rings,
    evictions: Vec<u32>,
    busy: BusyLanes,
}

impl Model for RingLanes {
    ghost use Rattle.lane_queues.specs.Queues.{Queues};
    ghost use Rattle.lane_queues.specs.Counted.{AreCounted};

    ghost Value = { Queues };

    ghost view = { λ l. l.rings };

    ghost invariant = { λ l. AreCounted l.rings l.evictions.items l.busy };
}

// Counts a message that comes to a lane of this pair.
fn count_in(counts: &mut [u32], pair: usize, msg: &Msg)
    requires below { pair < length counts.old }
    requires room { slice_index counts.old pair + departures (msg.now ∷ []) < 2 ^ 32 }
    ensures { counts.new ≡ slice_set counts.old pair (slice_index counts.old pair + departures (msg.now ∷ [])) }
{
    if msg.is_departure() {
        counts[pair] += 1;
    }
}

// Counts a message that leaves a lane of this pair.
fn count_out(counts: &mut [u32], pair: usize, departs: bool)
    requires below { pair < length counts.old }
    requires some { (if departs then 1 else 0) ≤ slice_index counts.old pair }
    ensures { counts.new ≡ slice_set counts.old pair (slice_index counts.old pair - (if departs then 1 else 0)) }
{
    if departs {
        counts[pair] -= 1;
    }
}

impl RingLanes {
    /// Empty lanes of this machine, which hold so many messages of each class. All room is reserved here.
    pub fn new(
        alloc: Global,
        cfg: Machine,
        requests: u32,
        replies: u32,
    ) -> Result<RingLanes, NoMemory>
        ensures { IfOk result (λ lanes. meaning_of lanes ≡ no_messages cfg requests replies) }
    {
        let rings = Rings::new(alloc, cfg, requests, replies)?;
        let nodes = cfg.nodes() as usize;
        let Ok(evictions) = vec![in alloc; 0u32; nodes * nodes] else {
            return Err(NoMemory);
        };
        Ok(RingLanes {
            rings,
            evictions,
            busy: BusyLanes::new(),
        })
    }
}

impl Lanes for RingLanes {
    ghost meaning = { meaning_of };

    fn front(&self, src: u32, dst: u32, class: Class) -> Option<Msg> {
        let number = lane_number(&self.rings.cfg(), src, dst, class);
        if self.rings.len(number) == 0 {
            None
        } else {
            Some(self.rings.at(number, 0))
        }
    }

    fn drop_front(&mut self, src: u32, dst: u32, class: Class, departs: bool) {
        let cfg = self.rings.cfg();
        let number = lane_number(&cfg, src, dst, class);
        self.rings.pop(number);
        let left = self.rings.len(number);
        self.busy.put(src, dst, class, left > 0);
        count_out(&mut self.evictions, pair_number(&cfg, src, dst), departs);
    }

    fn push(&mut self, src: u32, dst: u32, msg: Msg) -> Result<(), Full> {
        let cfg = self.rings.cfg();
        let number = lane_number(&cfg, src, dst, msg.class());
        if self.rings.len(number) == self.rings.room(number) {
            return Err(Full);
        }
        self.rings.push(number, &msg);
        self.busy.mark(src, dst, msg.class());
        count_in(&mut self.evictions, pair_number(&cfg, src, dst), &msg);
        Ok(())
    }

    fn len(&self, src: u32, dst: u32, class: Class) -> u32 {
        self.rings
            .len(lane_number(&self.rings.cfg(), src, dst, class))
    }

    fn evictions(&self, src: u32, dst: u32) -> u32 {
        self.evictions[pair_number(&self.rings.cfg(), src, dst)]
    }

    fn at(&self, src: u32, dst: u32, class: Class, i: u32) -> Msg {
        let number = lane_number(&self.rings.cfg(), src, dst, class);
        self.rings.at(number, i)
    }

    fn first_busy(&self) -> Option<(u32, u32, Class)> {
        self.busy.first()
    }

    fn next_busy(&self, src: u32, dst: u32, class: Class) -> Option<(u32, u32, Class)> {
        self.busy.next(src, dst, class)
    }
}
