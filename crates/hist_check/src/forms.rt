//! The forms of a line, word by word.

ghost use Rattle.std.specs.Prelude.{◌≡◌};
ghost use Rattle.text_lines.specs.Lines.{words_of};
ghost use Rattle.hist_check.specs.Forms.{report_line, small_word, entry_numbers as entry_numbers_of, plain_kind as plain_kind_of, exchange_kind as exchange_kind_of, entry_with as entry_with_of, entry_form};

use line_map::Machine;
use op_model::{Entry, Kind};
use text_lines::{WordCause, Words, address, both, cut_word, decimal, split_words};
use trace_text::{TraceCause, of_words, word_in};

/// The first line of a report, which has to be of this version.
#[tactic(auto, unfolding(crate::specs::Forms::report_line))]
pub fn report(version: u32, text: &[u8]) -> Result<(), TraceCause>
    ensures { result ≡ report_line version (words_of text.now) }
{
    match split_words(text) {
        Words::Three(first, second, number) => {
            if first != b"flash".as_slice() || second != b"report".as_slice() {
                return Err(TraceCause::Shape);
            }
            let number = of_words(decimal(number))?;
            if number == u64::from(version) {
                Ok(())
            } else {
                Err(TraceCause::Version)
            }
        }
        _ => Err(TraceCause::Shape),
    }
}

/// A number below 2^32.
fn small(word: &[u8]) -> Result<u32, WordCause>
    ensures { result ≡ small_word word.now }
{
    let number = decimal(word)?;
    if number <= u64::from(u32::MAX) {
        Ok(number as u32)
    } else {
        Err(WordCause::Number)
    }
}

/// The numbers that every entry has: its node, its index, the byte address of its word and its value.
#[derive(Clone, Copy)]
pub struct Numbers {
    pub node: u32,
    pub index: u32,
    pub byte: u64,
    pub value: u64,
}

#[tactic(auto, unfolding(crate::specs::Forms::entry_numbers))]
fn entry_numbers(
    node: &[u8],
    index: &[u8],
    place: &[u8],
    value: &[u8],
) -> Result<Numbers, WordCause>
    ensures { result ≡ entry_numbers_of node.now index.now place.now value.now }
{
    let (node, (index, (byte, value))) = both(
        small(node),
        both(small(index), both(address(place), decimal(value))),
    )?;
    Ok(Numbers {
        node,
        index,
        byte,
        value,
    })
}

/// The kind of an entry without an old value.
#[tactic(auto, unfolding(crate::specs::Forms::plain_kind))]
fn plain_kind(word: &[u8]) -> Result<Kind, TraceCause>
    ensures { result ≡ plain_kind_of word.now }
{
    if word == b"L".as_slice() {
        return Ok(Kind::Load);
    }
    if word == b"S".as_slice() {
        return Ok(Kind::Store);
    }
    Err(TraceCause::Shape)
}

/// The kind of an entry with an old value, of which version 1 has none.
#[tactic(auto, unfolding(crate::specs::Forms::exchange_kind))]
fn exchange_kind(version: u32, word: &[u8]) -> Result<Kind, TraceCause>
    ensures { result ≡ exchange_kind_of version word.now }
{
    if version != 2 {
        return Err(TraceCause::Shape);
    }
    if word == b"X".as_slice() {
        return Ok(Kind::Swap);
    }
    if word == b"A".as_slice() {
        return Ok(Kind::Add);
    }
    Err(TraceCause::Shape)
}

/// The entry of an operation of this kind on the word at its address.
#[tactic(auto, unfolding(crate::specs::Forms::entry_with))]
fn entry_with(
    machine: &Machine,
    kind: Kind,
    numbers: Numbers,
    old: u64,
) -> Result<Entry, TraceCause>
    ensures { result ≡ entry_with_of machine.now kind numbers old }
{
    let word = word_in(machine, numbers.byte)?;
    Ok(Entry {
        node: numbers.node,
        index: numbers.index,
        kind,
        word,
        value: numbers.value,
        old,
    })
}

/// An entry of a history: that of a load or a store in five words, that of a swap or an add in six, the last of which is the old value.
#[tactic(auto, unfolding(crate::specs::Forms::entry_form))]
pub fn entry(machine: &Machine, version: u32, text: &[u8]) -> Result<Entry, TraceCause>
    ensures { result ≡ entry_form machine.now version (words_of text.now) }
{
    let Some((node, rest)) = cut_word(text) else {
        return Err(TraceCause::Shape);
    };
    match split_words(rest) {
        Words::Four(index, kind, place, value) => {
            let kind = plain_kind(kind)?;
            let numbers = of_words(entry_numbers(node, index, place, value))?;
            entry_with(machine, kind, numbers, 0)
        }
        Words::Five(index, kind, place, value, old) => {
            let kind = exchange_kind(version, kind)?;
            let numbers = entry_numbers(node, index, place, value);
            let (numbers, old) = of_words(both(numbers, decimal(old)))?;
            entry_with(machine, kind, numbers, old)
        }
        _ => Err(TraceCause::Shape),
    }
}
