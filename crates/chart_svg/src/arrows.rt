//! The arrows of letters, from the event that sent one to the event that takes it.

ghost use Rattle.std.specs.Prelude.{◌≡◌, ◌≤◌, ◌++◌, codes, length, filter, OnOk};
ghost use Rattle.std.specs.List.{flat_map};
ghost use Rattle.op_model.specs.Messages.{msg_content};
ghost use Rattle.time_view.specs.Messages.{cause_word};
ghost use Rattle.chart_svg.specs.Places.{is_shown as shows};
ghost use Rattle.chart_svg.specs.Pictures.{style_of as style_at, cause_part as cause_at, letter_words, letter_label, letter_line, letter_text, stroke_lines};

use crate::pieces::{put_arrow, put_closing, put_guide, put_opening};
use crate::places::{Place, gap, is_shown, near_head, on, origin, place_of, x_of};
use chart_strokes::{Letter, Stroke};
use decimal_text::{put_bytes, put_decimal};
use op_model::{Msg, NakCause, NoMemory};
use time_view::name_part;

/// How an arrow is drawn: as a request, as a reply, or as a refusal among these.
fn style_of(msg: &Msg) -> &'static [u8]
    ensures { result.now ≡ style_at (msg_content msg.now) }
{
    match msg {
        Msg::Get { .. }
        | Msg::GetX { .. }
        | Msg::FwdGet { .. }
        | Msg::FwdGetX { .. }
        | Msg::Inv { .. }
        | Msg::Wb { .. }
        | Msg::Rpl { .. } => b"request",
        Msg::Put { .. }
        | Msg::PutX { .. }
        | Msg::InvAck { .. }
        | Msg::ShWb { .. }
        | Msg::FAck { .. } => b"reply",
        Msg::Nak { .. } | Msg::Nakc { .. } => b"refusal",
    }
}

/// The cause of a Nak, with a space before it.
fn cause_name(cause: NakCause) -> &'static [u8]
    ensures { result.now ≡ codes " " ++ cause_word cause }
{
    match cause {
        NakCause::Pending => b" Pending",
        NakCause::NoLink => b" NoLink",
        NakCause::Budget => b" Budget",
        NakCause::Gone => b" Gone",
    }
}

/// What a message says of a cause.
fn cause_part(msg: &Msg) -> &'static [u8]
    ensures { result.now ≡ cause_at (msg_content msg.now) }
{
    match msg {
        Msg::Nak { cause, .. } => cause_name(*cause),
        _ => b"",
    }
}

#[tactic(auto, unfolding(crate::specs::Pictures::letter_words))]
fn put_letter_words(out: &mut Vec<u8>, msg: &Msg) -> Result<(), NoMemory>
    ensures { OnOk result (out.new.items ≡ out.old.items ++ letter_words msg.now) }
{
    put_bytes(out, name_part(msg))?;
    put_decimal(out, u64::from(msg.line()))?;
    put_bytes(out, cause_part(msg))
}

/// Appends what a letter says, near the head of its arrow.
#[tactic(auto, unfolding(crate::specs::Pictures::letter_label))]
fn put_letter_label(out: &mut Vec<u8>, msg: &Msg, tail: Place, head: Place) -> Result<(), NoMemory>
    ensures { OnOk result (out.new.items ≡ out.old.items ++ letter_label msg.now tail head) }
{
    let columns = gap(tail.node, head.node);
    let x = near_head(columns, x_of(tail.node), x_of(head.node));
    let y = near_head(columns, on(tail.row), on(head.row));
    put_opening(out, b"middle", x, y)?;
    put_letter_words(out, msg)?;
    put_closing(out)
}

/// Appends the arrow of a letter, from the event that sent it.
fn put_letter_line(
    out: &mut Vec<u8>,
    chosen: Option<u32>,
    strokes: &[Stroke],
    head: Place,
    letter: &Option<Letter>,
) -> Result<(), NoMemory>
    requires { length strokes.now ≤ 65536 }
    ensures { OnOk result (out.new.items ≡ out.old.items ++ letter_line chosen strokes.now head letter.now) }
{
    match letter {
        None => Ok(()),
        Some(letter) => {
            let tail = origin(chosen, strokes, letter);
            put_arrow(out, style_of(&letter.msg), tail, head)
        }
    }
}

/// Appends what the letter that is taken says, if one is.
pub(crate) fn put_letter(
    out: &mut Vec<u8>,
    chosen: Option<u32>,
    strokes: &[Stroke],
    head: Place,
    letter: &Option<Letter>,
) -> Result<(), NoMemory>
    requires { length strokes.now ≤ 65536 }
    ensures { OnOk result (out.new.items ≡ out.old.items ++ letter_text chosen strokes.now head letter.now) }
{
    match letter {
        None => Ok(()),
        Some(letter) => {
            let tail = origin(chosen, strokes, letter);
            put_letter_label(out, &letter.msg, tail, head)
        }
    }
}

/// Appends the lines of a stroke.
fn put_lines(
    out: &mut Vec<u8>,
    chosen: Option<u32>,
    strokes: &[Stroke],
    stroke: &Stroke,
) -> Result<(), NoMemory>
    requires { length strokes.now ≤ 65536 }
    ensures { OnOk result (out.new.items ≡ out.old.items ++ stroke_lines chosen strokes.now stroke.now) }
{
    let head = place_of(chosen, strokes, stroke);
    put_guide(out, head)?;
    put_letter_line(out, chosen, strokes, head, &stroke.letter)
}

/// Appends the lines of each stroke that is shown.
pub(crate) fn put_all_lines(
    out: &mut Vec<u8>,
    chosen: Option<u32>,
    strokes: &[Stroke],
) -> Result<(), NoMemory>
    requires { length strokes.now ≤ 65536 }
    ensures { OnOk result (out.new.items ≡ out.old.items ++ flat_map (stroke_lines chosen strokes.now) (filter (shows chosen) strokes.now)) }
{
    for stroke in strokes {
        if is_shown(chosen, stroke) {
            put_lines(out, chosen, strokes, stroke)?;
        }
    }
    Ok(())
}
