//! The headers that one line has had.

ghost use Rattle.std.specs.Prelude.{◌≡◌, ◌+◌, ◌<◌, [], length, IfOk, OnOk, OnErr};
ghost use Rattle.line_map.specs.Sizes.{all_lines};
ghost use Rattle.op_model.specs.declared.events.Event.{Event};
ghost use Rattle.op_model.specs.Run.Machines.{MachineRun, IsApplied};
ghost use Rattle.dir_report.specs.declared.mode.Mode.TheVariants.{Delayed};
ghost use Rattle.dir_report.specs.Reports.{header_at, header_words};
ghost use Rattle.time_view.specs.Stories.{changed, first_story, noted, text_of, story_of, story_text};

use crate::viewed::Viewed;
use decimal_text::{put_bytes, put_decimal, put_named};
use dir_report::put_header;
use op_model::NoMemory;
use std::alloc::Global;
use std::marker::Model;

/// The story of one line, seen as the line, the number of events noted, what its header printed after the last of them, and the text of the lines so far.
#[derive(Drop)]
pub struct Story {
    alloc: Global,
    line: u32,
    steps: u64,
    last: Vec<u8>,
    text: Vec<u8>,
}

impl Model for Story {
    ghost use Rattle.time_view.specs.Stories.{StoryView};

    ghost Value = { StoryView };

    ghost view = { λ s. record { line = s.line; steps = s.steps; last = s.last.items; text = s.text.items } };
}

/// The line of a story after so many events, where the header prints otherwise than before. Else nothing.
pub(crate) fn change(
    alloc: Global,
    steps: u64,
    before: &[u8],
    now: &[u8],
) -> Result<Vec<u8>, NoMemory>
    ensures { IfOk result (λ v. v.items ≡ changed steps before.now now.now) }
{
    let mut out = Vec::new(alloc);
    if now == before {
        return Ok(out);
    }
    put_decimal(&mut out, steps)?;
    put_bytes(&mut out, b" ")?;
    put_bytes(&mut out, now)?;
    put_bytes(&mut out, b"\n")?;
    Ok(out)
}

impl Story {
    /// The story of a line before any event.
    pub fn start(alloc: Global, line: u32) -> Result<Story, NoMemory>
        ensures first { IfOk result (λ story. story ≡ first_story line) }

        // It is the story of the line in each run without events.
        ensures told { IfOk result (λ story. (m : MachineRun) → m.events ≡ [] → story ≡ story_of m line) }
    {
        let mut last = Vec::new(alloc);
        put_bytes(&mut last, b"- clean idle -")?;
        let mut text = Vec::new(alloc);
        put_bytes(&mut text, b"0 - clean idle -\n")?;
        Ok(Story {
            alloc,
            line,
            steps: 0,
            last,
            text,
        })
    }

    /// The line.
    pub fn line(&self) -> u32
        ensures { result ≡ self.now.line }
    {
        self.line
    }

    /// How many events were noted.
    pub fn steps(&self) -> u64
        ensures { result ≡ self.now.steps }
    {
        self.steps
    }

    /// Notes the header that the line has after one event more. It takes time of that header alone. Want of memory changes nothing.
    pub fn note<M: Viewed>(&mut self, m: &M) -> Result<(), NoMemory>
        requires line { self.old.line < all_lines (M.meaning m.now).sizes }
        requires next { length (M.meaning m.now).events ≡ self.old.steps + 1 }
        ensures noted { OnOk result (self.new ≡ noted self.old (header_words Delayed (header_at (M.meaning m.now).sizes (M.meaning m.now).past.state self.old.line))) }
        ensures err { OnErr result (self.new ≡ self.old) }

        // What was the story of a run is then the story of the run with its next event.
        ensures told { (before : MachineRun) (event : Event) → IsApplied before event (M.meaning m.now) → self.old ≡ story_of before self.old.line → OnOk result (self.new ≡ story_of (M.meaning m.now) self.old.line) }
    {
        // The machine says here that its events run.
        let _cfg = m.cfg();
        let mut words = Vec::new(self.alloc);
        put_header(&mut words, m, self.line)?;
        let steps = m.event_count();
        let change = change(self.alloc, steps, &self.last, &words)?;
        put_bytes(&mut self.text, &change)?;
        self.steps = steps;
        self.last = words;
        Ok(())
    }

    /// The story so far, as bytes.
    pub fn text(&self, alloc: Global) -> Result<Vec<u8>, NoMemory>
        ensures text { IfOk result (λ v. v.items ≡ text_of self.now) }
        ensures told { (m : MachineRun) → self.now ≡ story_of m self.now.line → IfOk result (λ v. v.items ≡ story_text m self.now.line) }
    {
        let mut out = Vec::new(alloc);
        put_bytes(&mut out, b"flash story 1\n")?;
        put_named(&mut out, b"line ", u64::from(self.line))?;
        put_bytes(&mut out, &self.text)?;
        put_named(&mut out, b"steps ", self.steps)?;
        put_bytes(&mut out, b"end\n")?;
        Ok(out)
    }
}
