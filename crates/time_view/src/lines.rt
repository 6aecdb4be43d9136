//! The words of one line, and a section of lines.

ghost use Rattle.std.specs.Prelude.{◌≡◌, ◌≤◌, ◌++◌, length, OnOk};
ghost use Rattle.decimal_text.specs.Text.{named};
ghost use Rattle.time_view.specs.States.{numbers_word, are_zeros};

use decimal_text::{put_bytes, put_decimal, put_named};
use line_map::Body;
use op_model::NoMemory;

/// Appends the words of a line, with commas between.
pub(crate) fn put_words(out: &mut Vec<u8>, body: &Body, words: u32) -> Result<(), NoMemory>
    requires some { 1 ≤ words }
    requires width { length body.now ≡ words }
    ensures { OnOk result (out.new.items ≡ out.old.items ++ numbers_word body.now) }
{
    put_decimal(out, body.get(0))?;
    for i in 1..words {
        put_bytes(out, b",")?;
        put_decimal(out, body.get(i))?;
    }
    Ok(())
}

/// Whether all words of a line are 0.
pub(crate) fn is_zeros(body: &Body, words: u32) -> bool
    requires width { length body.now ≡ words }
    ensures { result ≡ are_zeros body.now }
{
    for i in 0..words {
        if body.get(i) != 0 {
            return false;
        }
    }
    true
}

/// Appends a section: its name, which has the space behind it, with the number of its lines, and the text of these.
pub(crate) fn put_section(
    out: &mut Vec<u8>,
    name: &[u8],
    count: u64,
    text: &[u8],
) -> Result<(), NoMemory>
    ensures { OnOk result (out.new.items ≡ out.old.items ++ (named name.now count ++ text.now)) }
{
    put_named(out, name, count)?;
    put_bytes(out, text)
}
