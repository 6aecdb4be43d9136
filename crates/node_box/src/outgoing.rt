//! What a node sends at an event goes into its outbox, and from there lane by lane to the table.

ghost use Rattle.std.specs.Prelude.{◌≡◌, ◌<◌, ◌∷◌, [], length};
ghost use Rattle.op_model.specs.Messages.{msg_class};
ghost use Rattle.op_model.specs.Run.Bounds.{lane_bound};
ghost use Rattle.out_space.specs.Boxes.{waiting};
ghost use Rattle.node_box.specs.Outgoing.{HasRoomFor, IsPut};

use msg_words::Sends;
use op_model::Msg;
use out_space::Outbox;

// Puts a message at the end of a lane that isn't full.
fn put_one(out: &mut Outbox, dst: u32, msg: Msg)
    requires node { dst < out.old.sizes.nodes }
    requires room { length (waiting out.old dst (msg_class msg)) < lane_bound out.old.sizes (msg_class msg) }
    ensures { IsPut out.old out.new ((dst, msg) ∷ []) }
{
    let within = dst < out.cfg().nodes();
    prove!(within);
    let Ok(()) = out.push(dst, msg) else {
        unreachable!();
    };
}

/// Puts what a node sends at the ends of its lanes, which have room for it, and empties the list.
pub(crate) fn put_all(out: &mut Outbox, sends: &mut Sends)
    requires { HasRoomFor out.old sends.old.list }
    ensures out { IsPut out.old out.new sends.old.list }
    ensures sends { sends.new ≡ record sends.old { list = [] } }
{
    for i in 0..sends.len() {
        let (dst, msg) = sends.at(i);
        put_one(out, dst, msg);
    }
    sends.clear();
}
