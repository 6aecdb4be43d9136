//! The Naks among the messages of an event.

ghost use Rattle.std.specs.Prelude.{◌≡◌};
ghost use Rattle.op_model.specs.Messages.{msg_content};
ghost use Rattle.event_tally.specs.Marks.{naks_in, naks_with};

use msg_words::Sends;
use op_model::{Msg, NakCause};

/// Whether a Nak of each cause was sent.
#[derive(Clone, Copy)]
pub struct Naks {
    pub pending: bool,
    pub no_link: bool,
    pub budget: bool,
    pub gone: bool,
}

// With the cause of one message more, if it is a Nak.
fn with_nak(mut naks: Naks, msg: Msg) -> Naks
    ensures { result ≡ naks_with naks (msg_content msg) }
{
    if let Msg::Nak { cause, .. } = msg {
        match cause {
            NakCause::Pending => naks.pending = true,
            NakCause::NoLink => naks.no_link = true,
            NakCause::Budget => naks.budget = true,
            NakCause::Gone => naks.gone = true,
        }
    }
    naks
}

/// The causes of the Naks among the messages.
pub fn naks_of(sends: &Sends) -> Naks
    ensures { result ≡ naks_in sends.now.list }
{
    let mut naks = Naks {
        pending: false,
        no_link: false,
        budget: false,
        gone: false,
    };
    for i in 0..sends.len() {
        naks = with_nak(naks, sends.at(i).1);
    }
    naks
}
