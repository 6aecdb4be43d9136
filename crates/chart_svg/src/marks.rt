//! The marks of events, and the words beside them.

ghost use Rattle.std.specs.Prelude.{◌≡◌, ◌≤◌, ◌++◌, length, filter, OnOk};
ghost use Rattle.std.specs.List.{flat_map};
ghost use Rattle.chart_strokes.specs.Strokes.{called_in as calls_in};
ghost use Rattle.chart_svg.specs.Places.{is_shown as shows};
ghost use Rattle.chart_svg.specs.Pictures.{mark_name as mark_at, side_name as name_of_side, served_entry, served_text, completed_entry, completed_text, calling_words, calling_text, number_words, step_label, stroke_at, stroke_words};

use crate::arrows::put_letter;
use crate::pieces::{put_closing, put_mark, put_opening};
use crate::places::{Place, Side, above, below, beside, is_shown, on, place_of, side_of};
use chart_strokes::Stroke;
use decimal_text::{put_bytes, put_decimal};
use dir_report::put_entry;
use op_model::{Entry, Event, NoMemory};
use step_journal::put_steps;

fn mark_name(event: Event) -> &'static [u8]
    ensures { result.now ≡ mark_at event }
{
    match event {
        Event::Hit { .. } | Event::Issue { .. } | Event::Take { .. } => b"event",
        Event::Evict { .. } => b"eviction",
        Event::Reclaim { .. } => b"reclaim",
    }
}

fn side_name(side: Side) -> &'static [u8]
    ensures { result.now ≡ name_of_side side }
{
    match side {
        Side::Left => b"left",
        Side::Right => b"right",
    }
}

/// The line that an event calls in.
fn called_in(event: Event) -> Option<u32>
    ensures { result ≡ calls_in event }
{
    match event {
        Event::Take { victim, .. } => victim,
        _ => None,
    }
}

#[tactic(auto, unfolding(crate::specs::Pictures::served_entry))]
fn put_served_entry(
    out: &mut Vec<u8>,
    side: Side,
    place: Place,
    entry: &Entry,
) -> Result<(), NoMemory>
    ensures { OnOk result (out.new.items ≡ out.old.items ++ served_entry side place entry.now) }
{
    put_mark(out, b"served", place)?;
    let x = beside(side, place.node);
    put_opening(out, side_name(side), x, above(place.row))?;
    put_entry(out, entry)?;
    put_closing(out)
}

/// Appends the mark of an operation that is served, and its entry above the line.
fn put_served(
    out: &mut Vec<u8>,
    side: Side,
    place: Place,
    served: &Option<Entry>,
) -> Result<(), NoMemory>
    ensures { OnOk result (out.new.items ≡ out.old.items ++ served_text side place served.now) }
{
    match served {
        None => Ok(()),
        Some(entry) => put_served_entry(out, side, place, entry),
    }
}

#[tactic(auto, unfolding(crate::specs::Pictures::completed_entry))]
fn put_completed_entry(
    out: &mut Vec<u8>,
    side: Side,
    place: Place,
    entry: &Entry,
) -> Result<(), NoMemory>
    ensures { OnOk result (out.new.items ≡ out.old.items ++ completed_entry side place entry.now) }
{
    put_mark(out, b"completed", place)?;
    let x = beside(side, place.node);
    put_opening(out, side_name(side), x, below(place.row))?;
    put_entry(out, entry)?;
    put_closing(out)
}

/// Appends the ring of an operation that is completed, and its entry below the line.
fn put_completed(
    out: &mut Vec<u8>,
    side: Side,
    place: Place,
    completed: &Option<Entry>,
) -> Result<(), NoMemory>
    ensures { OnOk result (out.new.items ≡ out.old.items ++ completed_text side place completed.now) }
{
    match completed {
        None => Ok(()),
        Some(entry) => put_completed_entry(out, side, place, entry),
    }
}

#[tactic(auto, unfolding(crate::specs::Pictures::calling_words))]
fn put_calling_words(out: &mut Vec<u8>, side: Side, place: Place, line: u32) -> Result<(), NoMemory>
    ensures { OnOk result (out.new.items ≡ out.old.items ++ calling_words side place line) }
{
    let x = beside(side, place.node);
    put_opening(out, side_name(side), x, below(place.row))?;
    put_bytes(out, b"calls in ")?;
    put_decimal(out, u64::from(line))?;
    put_closing(out)
}

/// Appends which line a home calls in for its links.
fn put_calling(
    out: &mut Vec<u8>,
    side: Side,
    place: Place,
    victim: Option<u32>,
) -> Result<(), NoMemory>
    ensures { OnOk result (out.new.items ≡ out.old.items ++ calling_text side place victim) }
{
    match victim {
        None => Ok(()),
        Some(line) => put_calling_words(out, side, place, line),
    }
}

#[tactic(auto, unfolding(crate::specs::Pictures::number_words))]
fn put_number(out: &mut Vec<u8>, row: u32, number: u64) -> Result<(), NoMemory>
    ensures { OnOk result (out.new.items ≡ out.old.items ++ number_words row number) }
{
    put_opening(out, b"number", 50, on(row))?;
    put_decimal(out, number)?;
    put_closing(out)
}

#[tactic(auto, unfolding(crate::specs::Pictures::step_label))]
fn put_step(out: &mut Vec<u8>, row: u32, event: Event) -> Result<(), NoMemory>
    ensures { OnOk result (out.new.items ≡ out.old.items ++ step_label row event) }
{
    put_opening(out, b"step", 60, on(row))?;
    put_steps(out, &[event])?;
    put_closing(out)
}

#[tactic(auto, unfolding(crate::specs::Pictures::stroke_at))]
fn put_stroke(out: &mut Vec<u8>, side: Side, place: Place, stroke: &Stroke) -> Result<(), NoMemory>
    ensures { OnOk result (out.new.items ≡ out.old.items ++ stroke_at side place stroke.now) }
{
    put_number(out, place.row, stroke.number)?;
    put_step(out, place.row, stroke.event)?;
    put_mark(out, mark_name(stroke.event), place)?;
    put_served(out, side, place, &stroke.served)?;
    put_completed(out, side, place, &stroke.completed)?;
    put_calling(out, side, place, called_in(stroke.event))
}

/// Appends the mark and the words of a stroke.
fn put_words(
    out: &mut Vec<u8>,
    chosen: Option<u32>,
    strokes: &[Stroke],
    stroke: &Stroke,
) -> Result<(), NoMemory>
    requires { length strokes.now ≤ 65536 }
    ensures { OnOk result (out.new.items ≡ out.old.items ++ stroke_words chosen strokes.now stroke.now) }
{
    let place = place_of(chosen, strokes, stroke);
    put_letter(out, chosen, strokes, place, &stroke.letter)?;
    put_stroke(out, side_of(stroke), place, stroke)
}

/// Appends the mark and the words of each stroke that is shown.
pub(crate) fn put_all_words(
    out: &mut Vec<u8>,
    chosen: Option<u32>,
    strokes: &[Stroke],
) -> Result<(), NoMemory>
    requires { length strokes.now ≤ 65536 }
    ensures { OnOk result (out.new.items ≡ out.old.items ++ flat_map (stroke_words chosen strokes.now) (filter (shows chosen) strokes.now)) }
{
    for stroke in strokes {
        if is_shown(chosen, stroke) {
            put_words(out, chosen, strokes, stroke)?;
        }
    }
    Ok(())
}
