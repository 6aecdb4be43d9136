//! The letters under way, in the order in which they were sent.

ghost use Rattle.std.specs.Prelude.{◌≡◌, ℕ, length, drop, slice_get};
ghost use Rattle.std.specs.List.{position};
ghost use Rattle.op_model.specs.Events.Step.{one_off, off_of};
ghost use Rattle.chart_strokes.specs.Strokes.{letter_taken};
ghost use Rattle.run_chart.specs.Charts.{is_in_lane, in_lane};

use chart_strokes::Letter;
use op_model::{Class, Event};

/// Whether a letter goes through a lane.
fn is_in(letter: &Letter, src: u32, dst: u32, class: Class) -> bool
    ensures { result ≡ is_in_lane src dst class letter.now }
{
    letter.src == src && letter.dst == dst && letter.msg.class() == class
}

/// How many letters a lane has.
pub(crate) fn count_in(letters: &[Letter], src: u32, dst: u32, class: Class) -> usize
    ensures { result ≡ length (in_lane letters.now src dst class) }
{
    let mut count = 0;
    for letter in letters {
        if is_in(letter, src, dst, class) {
            count += 1;
        }
    }
    count
}

/// Where the first letter of a lane stands.
fn first_in(letters: &[Letter], src: u32, dst: u32, class: Class) -> Option<usize>
    ensures { result ≡ position (is_in_lane src dst class) letters.now }
{
    letters
        .iter()
        .position(|letter| is_in(letter, src, dst, class))
}

/// Takes the first letter of a lane.
fn take_first(letters: &mut Vec<Letter>, src: u32, dst: u32, class: Class) -> Option<Letter>
    ensures taken { result ≡ slice_get (in_lane letters.old.items src dst class) 0 }
    ensures left { (a b : ℕ) (k : Class) → in_lane letters.new.items a b k ≡ drop (one_off src dst class a b k) (in_lane letters.old.items a b k) }
{
    let place = first_in(letters, src, dst, class)?;
    Some(letters.remove(place))
}

/// Takes the letter that an event takes, if it takes one.
pub(crate) fn take(letters: &mut Vec<Letter>, event: Event) -> Option<Letter>
    ensures taken { result ≡ letter_taken (in_lane letters.old.items) event }
    ensures left { (a b : ℕ) (k : Class) → in_lane letters.new.items a b k ≡ drop (off_of event a b k) (in_lane letters.old.items a b k) }
{
    match event {
        Event::Take {
            src,
            dst,
            class,
            ..
        } => take_first(letters, src, dst, class),
        _ => None,
    }
}
