//! A choice among some things, by a closure that takes remainders.

ghost use Rattle.std.specs.Prelude.{◌≡◌};
ghost use Rattle.picker.specs.Choices.{IsChoice};

use picker::{Choice, Picker};

fn two_picks<F: Choice + Drop>(f: F) -> (u32, u32)
    requires { IsChoice (F.can_answer f) (F.answers f) }
    ensures first { F.answers f 7 3 result.0 }
    ensures second { F.answers f 6 1 result.1 }
{
    let picker = Picker::new(f);
    (picker.pick(7, 3), picker.pick(6, 1))
}

#[test]
fn remainders(rt: HostRuntime) {
    let picked = two_picks(|w, n| (w % u64::from(n)) as u32);
    prove!(picked == (1, 0));
    assert!(rt; picked == (1, 0));
}
