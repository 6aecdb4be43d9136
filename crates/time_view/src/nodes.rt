//! The nodes: the place of each one, and what it has begun.

ghost use Rattle.std.specs.Prelude.{◌≡◌, ◌++◌, [], ◌∷◌, decimal, drop, OnOk};
ghost use Rattle.text_lines.specs.Printing.{line_text};
ghost use Rattle.trace_text.specs.Printing.{op_words, value_words};
ghost use Rattle.time_view.specs.States.{mark_words, want_words, nodes_text};

use crate::viewed::Viewed;
use decimal_text::{letter_of, put_address, put_bytes, put_decimal, put_named};
use op_model::{Kind, NoMemory, Op, Want};

/// The end of a line, with the mark of what is begun.
fn mark_end(marked: bool) -> &'static [u8]
    ensures { result.now ≡ line_text ([] ∷ mark_words marked) }
{
    if marked { b" marked\n" } else { b"\n" }
}

/// The end of an operation's line: its value, where it has one, and the mark.
fn put_value(out: &mut Vec<u8>, kind: Kind, value: u64, marked: bool) -> Result<(), NoMemory>
    ensures { OnOk result (out.new.items ≡ out.old.items ++ line_text ([] ∷ value_words kind value ++ mark_words marked)) }
{
    match kind {
        Kind::Load => put_bytes(out, mark_end(marked)),
        _ => {
            put_bytes(out, b" ")?;
            put_decimal(out, value)?;
            put_bytes(out, mark_end(marked))
        }
    }
}

/// An operation without its node, and the mark.
fn put_begun(out: &mut Vec<u8>, op: &Op, marked: bool) -> Result<(), NoMemory>
    ensures { OnOk result (out.new.items ≡ out.old.items ++ line_text (drop 1 (op_words op.now) ++ mark_words marked)) }
{
    put_bytes(out, letter_of(op.kind).as_bytes())?;
    put_bytes(out, b" ")?;
    put_address(out, op.word)?;
    put_value(out, op.kind, op.value, marked)
}

fn put_want(out: &mut Vec<u8>, want: Option<Want>) -> Result<(), NoMemory>
    ensures { OnOk result (out.new.items ≡ out.old.items ++ line_text (want_words want)) }
{
    match want {
        None => put_bytes(out, b"-\n"),
        Some(want) => put_begun(out, &want.op, want.marked),
    }
}

pub(crate) fn put_node(
    out: &mut Vec<u8>,
    node: u32,
    place: u32,
    want: Option<Want>,
) -> Result<(), NoMemory>
    ensures { OnOk result (out.new.items ≡ out.old.items ++ line_text (decimal node ∷ decimal place ∷ want_words want)) }
{
    put_decimal(out, u64::from(node))?;
    put_bytes(out, b" ")?;
    put_decimal(out, u64::from(place))?;
    put_bytes(out, b" ")?;
    put_want(out, want)
}

/// Appends the number of nodes and a line for each one.
#[tactic(auto, unfolding(crate::specs::States::nodes_text))]
pub(crate) fn put_nodes<M: Viewed>(out: &mut Vec<u8>, m: &M) -> Result<(), NoMemory>
    ensures { OnOk result (out.new.items ≡ out.old.items ++ nodes_text (M.meaning m.now).sizes (M.meaning m.now).past.state) }
{
    let nodes = m.cfg().nodes();
    put_named(out, b"nodes ", u64::from(nodes))?;
    for node in 0..nodes {
        put_node(out, node, m.place(node), m.want(node))?;
    }
    Ok(())
}
