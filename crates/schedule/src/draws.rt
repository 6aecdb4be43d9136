//! The random part of the seeded schedule.

ghost use Rattle.std.specs.Prelude.{◌≡◌, ◌+◌, ◌<◌, ◌^◌, [], length, IfNone, IfSome, OnOk, OnErr};
ghost use Rattle.op_model.specs.Run.Machines.{IsRunning};
ghost use Rattle.op_model.specs.Run.Seeded.{IsDrawn};
ghost use Rattle.rand_pcg.specs.Pcg.{pcg32};
ghost use Rattle.seeded_laws.specs.Command.{word_of};
ghost use Rattle.schedule.specs.Draws.{HasDrawn, HasDrawnAll};

use crate::candidates::list_candidates;
use crate::making::make;
use crate::steps::Steps;
use machine_face::MachineFace;
use op_model::{Event, NoMemory};
use picker::{Choice, Picker};
use rand_core::SeedableRng;
use rand_core::utils::NextWord;
use rand_pcg::Pcg32;
use std::sync::ledger::Ledger;

/// Draws one of these events by the generator's next word. Where there is none, no word is drawn.
fn draw<F: Choice>(list: &[Event], generator: &mut Pcg32, picker: &Picker<F>) -> Option<Event>
    requires { length list.now < 2 ^ 32 }
    ensures none { IfNone result (list.now ≡ []) }
    ensures drawn { IfSome result (IsDrawn (F.answers picker.now) (pcg32 generator.old).0 list.now) }
    ensures next { IfSome result (λ event. generator.new ≡ (pcg32 generator.old).1) }
{
    let count = list.len() as u32;
    if count == 0 {
        return None;
    }
    let word = generator.next_word();
    let place = picker.pick(u64::from(word), count);
    Some(list[place as usize])
}

/// Makes the random part of the seeded schedule: at most so many events, each drawn among all that are enabled by the next word of the seed's generator. It ends early where there is no candidate. After want of memory the machine has made the first events of that part.
pub fn seeded<M: MachineFace, F: Choice, L: Ledger>(
    m: &mut M,
    seed: u64,
    picker: &Picker<F>,
    random: u64,
    steps: &mut Steps<L>,
) -> Result<(), NoMemory>
    ensures ok { OnOk result (HasDrawnAll (F.answers picker.now) (word_of seed) random (M.meaning m.old) (M.meaning m.new)) }
    ensures err { OnErr result (HasDrawn (F.answers picker.now) (word_of seed) random (M.meaning m.old) (M.meaning m.new)) }
    ensures counted { steps.new + length (M.meaning m.old).events ≡ steps.old + length (M.meaning m.new).events }
    ensures kept { IsRunning (M.meaning m.new) }
{
    // The machine says here what it keeps.
    let _cfg = m.cfg();
    let mut generator = Pcg32::seed_from_u64(seed);
    let mut list = Vec::new(m.alloc());
    for _ in 0..random {
        list_candidates(m, &mut list)?;
        let Some(event) = draw(list.as_slice(), &mut generator, picker) else {
            return Ok(());
        };
        make(m, event)?;
        steps.tick();
    }
    Ok(())
}
