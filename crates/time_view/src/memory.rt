//! The lines whose words in memory aren't all 0.

ghost use Rattle.std.specs.Prelude.{◌≡◌, ◌≤◌, ◌<◌, ◌++◌, [], ◌∷◌, decimal, length, IfOk, OnOk};
ghost use Rattle.line_map.specs.Sizes.{all_lines};
ghost use Rattle.text_lines.specs.Printing.{line_text};
ghost use Rattle.time_view.specs.States.{numbers_word, memory_lines, all_memory, memory_text};
ghost use Rattle.time_view.specs.Puts.{ArePut};

use crate::lines::{is_zeros, put_section, put_words};
use crate::viewed::Viewed;
use decimal_text::{put_bytes, put_decimal};
use line_map::Body;
use op_model::NoMemory;
use std::alloc::Global;

pub(crate) fn put_memory_line(
    out: &mut Vec<u8>,
    line: u32,
    body: &Body,
    words: u32,
) -> Result<(), NoMemory>
    requires some { 1 ≤ words }
    requires width { length body.now ≡ words }
    ensures { OnOk result (out.new.items ≡ out.old.items ++ line_text (decimal line ∷ numbers_word body.now ∷ [])) }
{
    put_decimal(out, u64::from(line))?;
    put_bytes(out, b" ")?;
    put_words(out, body, words)?;
    put_bytes(out, b"\n")
}

/// Appends the line of a line's words, where they aren't all 0, and answers how many lines that are.
pub(crate) fn put_if_written(
    out: &mut Vec<u8>,
    line: u32,
    body: &Body,
    words: u32,
) -> Result<u32, NoMemory>
    requires some { 1 ≤ words }
    requires width { length body.now ≡ words }
    ensures put { IfOk result (λ n. ArePut out.old.items out.new.items n (memory_lines line body.now)) }
    ensures few { IfOk result (λ n. n ≤ 1) }
{
    if is_zeros(body, words) {
        return Ok(0);
    }
    put_memory_line(out, line, body, words)?;
    Ok(1)
}

fn put_all_memory<M: Viewed>(out: &mut Vec<u8>, m: &M) -> Result<u32, NoMemory>
    ensures { IfOk result (λ n. ArePut out.old.items out.new.items n (all_memory (M.meaning m.now).sizes (M.meaning m.now).past.state)) }
{
    let words = m.cfg().words();
    let mut count = 0;
    for line in 0..m.cfg().all_lines() {
        count += put_if_written(out, line, &m.memory(line), words)?;
    }
    Ok(count)
}

/// Appends the number of lines with words that aren't all 0, and a line for each one.
#[tactic(auto, unfolding(crate::specs::States::memory_text))]
pub(crate) fn put_memory<M: Viewed>(alloc: Global, out: &mut Vec<u8>, m: &M) -> Result<(), NoMemory>
    ensures { OnOk result (out.new.items ≡ out.old.items ++ memory_text (M.meaning m.now).sizes (M.meaning m.now).past.state) }
{
    let mut text = Vec::new(alloc);
    let count = put_all_memory(&mut text, m)?;
    put_section(out, b"memory ", u64::from(count), &text)
}
