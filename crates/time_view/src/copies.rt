//! The copies in the caches.

ghost use Rattle.std.specs.Prelude.{◌≡◌, ◌≤◌, ◌<◌, ◌++◌, [], ◌∷◌, codes, decimal, length, IfOk, OnOk};
ghost use Rattle.line_map.specs.Sizes.{all_lines};
ghost use Rattle.op_model.specs.Shares.{copy_of};
ghost use Rattle.text_lines.specs.Printing.{line_text};
ghost use Rattle.time_view.specs.States.{numbers_word, state_word, copy_lines, node_copies, all_copies, copies_text};
ghost use Rattle.time_view.specs.Puts.{ArePut};

use crate::lines::{put_section, put_words};
use crate::viewed::Viewed;
use decimal_text::{put_bytes, put_decimal};
use line_map::Body;
use op_model::{CopyState, NoMemory};
use std::alloc::Global;

/// The state of a copy, between two spaces.
fn state_part(state: CopyState) -> &'static [u8]
    ensures { result.now ≡ codes " " ++ (state_word state ++ codes " ") }
{
    match state {
        CopyState::Absent => b" absent ",
        CopyState::Shared => b" shared ",
        CopyState::Exclusive => b" exclusive ",
    }
}

pub(crate) fn put_copy(
    out: &mut Vec<u8>,
    node: u32,
    line: u32,
    state: CopyState,
    body: &Body,
    words: u32,
) -> Result<(), NoMemory>
    requires some { 1 ≤ words }
    requires width { length body.now ≡ words }
    ensures { OnOk result (out.new.items ≡ out.old.items ++ line_text (decimal node ∷ decimal line ∷ state_word state ∷ numbers_word body.now ∷ [])) }
{
    put_decimal(out, u64::from(node))?;
    put_bytes(out, b" ")?;
    put_decimal(out, u64::from(line))?;
    put_bytes(out, state_part(state))?;
    put_words(out, body, words)?;
    put_bytes(out, b"\n")
}

/// Appends the line of a node's copy, where it has one, and answers how many lines that are.
fn put_if_copied<M: Viewed>(out: &mut Vec<u8>, m: &M, node: u32, line: u32) -> Result<u32, NoMemory>
    requires node { node < (M.meaning m.now).sizes.nodes }
    requires line { line < all_lines (M.meaning m.now).sizes }
    ensures put { IfOk result (λ n. ArePut out.old.items out.new.items n (copy_lines node line (copy_of ((M.meaning m.now).past.state.share node) line))) }
    ensures few { IfOk result (λ n. n ≤ 1) }
{
    let state = m.cached(node, line);
    if state == CopyState::Absent {
        return Ok(0);
    }
    let words = m.cfg().words();
    put_copy(out, node, line, state, &m.cached_words(node, line), words)?;
    Ok(1)
}

fn put_copies_of<M: Viewed>(out: &mut Vec<u8>, m: &M, node: u32) -> Result<u32, NoMemory>
    requires { node < (M.meaning m.now).sizes.nodes }
    ensures put { IfOk result (λ n. ArePut out.old.items out.new.items n (node_copies (M.meaning m.now).sizes (M.meaning m.now).past.state node)) }
    ensures few { IfOk result (λ n. n ≤ 262144) }
{
    let mut count = 0;
    for line in 0..m.cfg().all_lines() {
        count += put_if_copied(out, m, node, line)?;
    }
    Ok(count)
}

fn put_all_copies<M: Viewed>(out: &mut Vec<u8>, m: &M) -> Result<u32, NoMemory>
    ensures { IfOk result (λ n. ArePut out.old.items out.new.items n (all_copies (M.meaning m.now).sizes (M.meaning m.now).past.state)) }
{
    let mut count = 0;
    for node in 0..m.cfg().nodes() {
        count += put_copies_of(out, m, node)?;
    }
    Ok(count)
}

/// Appends the number of copies and a line for each one.
#[tactic(auto, unfolding(crate::specs::States::copies_text))]
pub(crate) fn put_copies<M: Viewed>(alloc: Global, out: &mut Vec<u8>, m: &M) -> Result<(), NoMemory>
    ensures { OnOk result (out.new.items ≡ out.old.items ++ copies_text (M.meaning m.now).sizes (M.meaning m.now).past.state) }
{
    let mut text = Vec::new(alloc);
    let count = put_all_copies(&mut text, m)?;
    put_section(out, b"copies ", u64::from(count), &text)
}
