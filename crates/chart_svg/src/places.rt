//! Where the parts of a picture stand: a column for each node, a row for each stroke.

ghost use Rattle.std.specs.Prelude.{◌≡◌, ◌≤◌, length};
ghost use Rattle.chart_svg.specs.Places.{is_shown as shows, rows_of, row_number, stroke_place, origin as origin_of, x_of as x_at, y_of as y_at, y_on, y_above, y_below, gap as gap_of, near_head as near, side_of as side_at, x_beside};

use chart_strokes::{Letter, Stroke};

/// Where the lifeline of a node crosses a row.
#[derive(Clone, Copy)]
pub(crate) struct Place {
    pub node: u32,
    pub row: u32,
}

/// The side of a lifeline on which words stand.
#[derive(Clone, Copy)]
pub(crate) enum Side {
    Left,
    Right,
}

/// All strokes are shown, or those about a chosen line.
pub(crate) fn is_shown(chosen: Option<u32>, stroke: &Stroke) -> bool
    ensures { result ≡ shows chosen stroke.now }
{
    match chosen {
        None => true,
        Some(line) => stroke.is_about(line),
    }
}

/// How many strokes are shown.
pub(crate) fn count_rows(chosen: Option<u32>, strokes: &[Stroke]) -> u32
    requires { length strokes.now ≤ 65536 }
    ensures { result ≡ rows_of chosen strokes.now }
{
    let mut rows = 0;
    for stroke in strokes {
        if is_shown(chosen, stroke) {
            rows += 1;
        }
    }
    rows
}

/// How many strokes are shown above the event with this number.
pub(crate) fn row_of(chosen: Option<u32>, strokes: &[Stroke], number: u64) -> u32
    requires { length strokes.now ≤ 65536 }
    ensures { result ≡ row_number chosen strokes.now number }
{
    let mut row = 0;
    for stroke in strokes {
        if is_shown(chosen, stroke) && stroke.number < number {
            row += 1;
        }
    }
    row
}

/// The place of a stroke.
pub(crate) fn place_of(chosen: Option<u32>, strokes: &[Stroke], stroke: &Stroke) -> Place
    requires { length strokes.now ≤ 65536 }
    ensures { result ≡ stroke_place chosen strokes.now stroke.now }
{
    Place {
        node: stroke.node,
        row: row_of(chosen, strokes, stroke.number),
    }
}

/// The place from which a letter comes.
pub(crate) fn origin(chosen: Option<u32>, strokes: &[Stroke], letter: &Letter) -> Place
    requires { length strokes.now ≤ 65536 }
    ensures { result ≡ origin_of chosen strokes.now letter.now }
{
    Place {
        node: letter.src,
        row: row_of(chosen, strokes, letter.sent),
    }
}

pub(crate) fn x_of(node: u32) -> u64
    ensures { result ≡ x_at node }
{
    280 + 130 * u64::from(node)
}

pub(crate) fn y_of(row: u32) -> u64
    ensures { result ≡ y_at row }
{
    200 + 28 * u64::from(row)
}

/// Where words stand on the line of a row.
pub(crate) fn on(row: u32) -> u64
    ensures { result ≡ y_on row }
{
    204 + 28 * u64::from(row)
}

/// Where words stand above the line of a row.
pub(crate) fn above(row: u32) -> u64
    ensures { result ≡ y_above row }
{
    194 + 28 * u64::from(row)
}

/// Where words stand below the line of a row.
pub(crate) fn below(row: u32) -> u64
    ensures { result ≡ y_below row }
{
    213 + 28 * u64::from(row)
}

/// How many columns lie from one node to another.
pub(crate) fn gap(a: u32, b: u32) -> u32
    ensures { result ≡ gap_of a b }
{
    if a < b { b - a } else { a - b }
}

/// A number near the head of an arrow over so many columns: less than half a column away, so that no words stand on a lifeline.
pub(crate) fn near_head(columns: u32, tail: u64, head: u64) -> u64
    ensures { result ≡ near columns tail head }
{
    let parts = 2 * u64::from(columns) + 1;
    if tail < head {
        head - (head - tail) / parts
    } else {
        head + (tail - head) / parts
    }
}

/// The side of a stroke's words: that from which no letter comes.
pub(crate) fn side_of(stroke: &Stroke) -> Side
    ensures { result ≡ side_at stroke.now }
{
    match &stroke.letter {
        Some(letter) if stroke.node < letter.src => Side::Left,
        _ => Side::Right,
    }
}

/// Where words stand beside the lifeline of a node.
pub(crate) fn beside(side: Side, node: u32) -> u64
    ensures { result ≡ x_beside side node }
{
    match side {
        Side::Left => 268 + 130 * u64::from(node),
        Side::Right => 292 + 130 * u64::from(node),
    }
}
