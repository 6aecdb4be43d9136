//! The strokes of a chart.

ghost use Rattle.std.specs.Prelude.{◌≡◌};
ghost use Rattle.chart_strokes.specs.Strokes.{is_about};

use op_model::{Entry, Event, Msg};

/// A message on its way: the number of the event that sent it, the nodes between which it goes, and the message. Events count from 1.
#[derive(Clone, Copy)]
pub struct Letter {
    pub sent: u64,
    pub src: u32,
    pub dst: u32,
    pub msg: Msg,
}

/// What a chart shows of an event: its number, counted from 1, the event, the node at which it happens, the line that it is about, the letter that it takes, the operation that it serves, and the operation that it completes.
#[derive(Clone, Copy)]
pub struct Stroke {
    pub number: u64,
    pub event: Event,
    pub node: u32,
    pub line: Option<u32>,
    pub letter: Option<Letter>,
    pub served: Option<Entry>,
    pub completed: Option<Entry>,
}

impl Stroke {
    /// Whether the event is about a line, or calls it in.
    pub fn is_about(&self, line: u32) -> bool
        ensures { result ≡ is_about line self.now }
    {
        let called_in = match self.event {
            Event::Take { victim, .. } => victim,
            _ => None,
        };
        self.line == Some(line) || called_in == Some(line)
    }
}
