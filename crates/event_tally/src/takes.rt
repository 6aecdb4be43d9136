//! What is counted of the message that an event takes.

ghost use Rattle.std.specs.Prelude.{◌≡◌, ◌<◌, set, replicate, true, false, Some};
ghost use Rattle.op_model.specs.MessageWords.{IsMsgOf};
ghost use Rattle.event_tally.specs.Marks.{take_marks_of, is_marked_put};

use line_map::Machine;
use op_model::{Msg, Want};

// The mark at this place alone.
fn only(place: usize) -> [bool; 14]
    requires { place < 14 }
    ensures { result ≡ set (replicate 14 false) place true }
{
    let mut marks = [false; 14];
    marks[place] = true;
    marks
}

/// By which counts of messages a message is counted when it is taken. Where none is taken, no mark is set.
pub fn take_marks(msg: &Msg) -> [bool; 14]
    ensures { result ≡ take_marks_of (Some msg.now) }
{
    match msg {
        Msg::Get { .. } => only(0),
        Msg::GetX { .. } => only(1),
        Msg::FwdGet { .. } => only(2),
        Msg::FwdGetX { .. } => only(3),
        Msg::Inv { .. } => only(4),
        Msg::Wb { .. } => only(5),
        Msg::Rpl { .. } => only(6),
        Msg::Put { .. } => only(7),
        Msg::PutX { .. } => only(8),
        Msg::Nak { .. } => only(9),
        Msg::InvAck { .. } => only(10),
        Msg::ShWb { .. } => only(11),
        Msg::FAck { .. } => only(12),
        Msg::Nakc { .. } => only(13),
    }
}

/// Whether a message is the Put of a load that was marked, elsewhere than at the line's home: row N9. `want` is what its taker, the node `dst`, wants before it takes the message.
pub fn is_marked_load(cfg: &Machine, dst: u32, want: Option<Want>, msg: &Msg) -> bool
    requires { IsMsgOf cfg.now msg.now }
    ensures { result ≡ is_marked_put cfg.now dst want msg.now }
{
    let Msg::Put { line, .. } = *msg else {
        return false;
    };
    let Some(want) = want else {
        return false;
    };
    dst != cfg.home_of(line) && want.op.word / cfg.words() == line && want.marked
}
