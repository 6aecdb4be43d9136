//! The messages that an event has sent, as letters.

ghost use Rattle.std.specs.Prelude.{◌≡◌, ◌++◌, ◌<◌, OnOk};
ghost use Rattle.run_chart.specs.Lettered.{new_letters, AreOfClass, ArePosted};

use crate::letters::count_in;
use chart_strokes::Letter;
use op_model::{Class, NoMemory};
use time_view::Viewed;

/// Puts the messages of a lane that aren't letters yet behind the letters, with this number.
fn post<M: Viewed>(
    letters: &mut Vec<Letter>,
    m: &M,
    number: u64,
    src: u32,
    dst: u32,
    class: Class,
) -> Result<(), NoMemory>
    requires from { src < (M.meaning m.now).sizes.nodes }
    requires to { dst < (M.meaning m.now).sizes.nodes }
    ensures { OnOk result (letters.new.items ≡ letters.old.items ++ new_letters number src dst class letters.old.items ((M.meaning m.now).past.state.lane src dst class)) }
{
    let known = count_in(letters, src, dst, class);
    for i in known..m.lane_len(src, dst, class) as usize {
        let msg = m.lane_at(src, dst, class, i as u32);
        let letter = Letter {
            sent: number,
            src,
            dst,
            msg,
        };
        let Ok(()) = letters.push(letter) else {
            return Err(NoMemory);
        };
    }
    Ok(())
}

/// Does so with all lanes from a node.
pub(crate) fn post_all<M: Viewed>(
    letters: &mut Vec<Letter>,
    m: &M,
    number: u64,
    src: u32,
) -> Result<(), NoMemory>
    requires { src < (M.meaning m.now).sizes.nodes }
    ensures { OnOk result (AreOfClass src (M.meaning m.now).sizes.nodes (M.meaning m.now).past.state.lane → ArePosted number src (M.meaning m.now).sizes.nodes (M.meaning m.now).past.state.lane letters.old.items letters.new.items) }
{
    for dst in 0..m.cfg().nodes() {
        post(letters, m, number, src, dst, Class::Request)?;
        post(letters, m, number, src, dst, Class::Reply)?;
    }
    Ok(())
}
