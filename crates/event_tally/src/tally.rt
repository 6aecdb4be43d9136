//! By which counts an event is counted, and the numbers of all counts.

ghost use Rattle.std.specs.Prelude.{◌≡◌, ℕ, ◌+◌, ◌<◌, ◌^◌, ◌||◌, slice_index};
ghost use Rattle.op_model.specs.Run.Counts.{is_reclaim, calls_victim};
ghost use Rattle.event_tally.specs.Marks.{own_marks_of, AreTakeMarks, marks_of, marked_up};

use crate::naks::Naks;
use op_model::{Event, EvictKind};

// Whether an event calls a line in, by itself or for a message.
fn calls_in(event: Event) -> bool
    ensures { result ≡ (is_reclaim event || calls_victim event) }
{
    match event {
        Event::Reclaim { .. } => true,
        Event::Take { victim, .. } => victim.is_some(),
        _ => false,
    }
}

// By which counts of what a processor does.
fn own_marks(event: Event, done: bool) -> [bool; 6]
    ensures { result ≡ own_marks_of event done }
{
    match event {
        Event::Hit { .. } => [true, false, false, false, false, false],
        Event::Issue { .. } => [false, true, done, false, false, false],
        Event::Evict { kind, .. } => match kind {
            EvictKind::Wb => [false, false, false, true, false, false],
            EvictKind::Hint => [false, false, false, false, true, false],
            EvictKind::Silent => [false, false, false, false, false, true],
        },
        Event::Take { .. } | Event::Reclaim { .. } => [false; 6],
    }
}

/// By which counts an event is counted, in their order. `takes` are the marks of the message that it took, `done` is whether its node's own operation was done, `naks` are those that it sent, and `marked` is whether it took the Put of a marked load.
pub fn marks(event: Event, takes: &[bool; 14], done: bool, naks: Naks, marked: bool) -> [bool; 27]
    requires { AreTakeMarks takes.now }
    ensures { result ≡ marks_of event takes.now done naks marked }
{
    let own = own_marks(event, done);
    [
        true,
        own[0],
        own[1],
        own[2],
        own[3],
        own[4],
        own[5],
        takes[0],
        takes[1],
        takes[2],
        takes[3],
        takes[4],
        takes[5],
        takes[6],
        takes[7],
        takes[8],
        takes[9],
        takes[10],
        takes[11],
        takes[12],
        takes[13],
        naks.pending,
        naks.no_link,
        naks.budget,
        naks.gone,
        calls_in(event),
        marked,
    ]
}

/// Adds one to each count whose mark is set. None may be at its most.
pub fn count_up(counts: &mut [u64; 27], marks: &[bool; 27])
    requires { (i : ℕ) → i < 27 → slice_index counts.old i + 1 < 2 ^ 64 }
    ensures { counts.new ≡ marked_up counts.old marks.now }
{
    for i in 0..27 {
        counts[i] += u64::from(marks[i]);
    }
}
