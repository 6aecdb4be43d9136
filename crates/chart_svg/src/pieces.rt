//! The pieces of a picture: lines, marks and words. Each call appends one; where memory is wanting, a part of it may have been appended.

ghost use Rattle.std.specs.Prelude.{◌≡◌, ◌++◌, OnOk};
ghost use Rattle.chart_svg.specs.Pieces.{lifeline, guide, arrow, mark, opening, closing, document_opening, document_closing};

use crate::places::{Place, x_of, y_of};
use decimal_text::{put_bytes, put_decimal};
use op_model::NoMemory;

/// The line on which a node stands, from its name down to a height.
#[tactic(auto, unfolding(crate::specs::Pieces::lifeline))]
pub(crate) fn put_lifeline(out: &mut Vec<u8>, x: u64, bottom: u64) -> Result<(), NoMemory>
    ensures { OnOk result (out.new.items ≡ out.old.items ++ lifeline x bottom) }
{
    put_bytes(out, b"<path class='life' d='M")?;
    put_decimal(out, x)?;
    put_bytes(out, b" 176V")?;
    put_decimal(out, bottom)?;
    put_bytes(out, b"'/>\n")
}

/// A thin line from the words of a step to its place.
#[tactic(auto, unfolding(crate::specs::Pieces::guide))]
pub(crate) fn put_guide(out: &mut Vec<u8>, place: Place) -> Result<(), NoMemory>
    ensures { OnOk result (out.new.items ≡ out.old.items ++ guide place) }
{
    put_bytes(out, b"<path class='guide' d='M196 ")?;
    put_decimal(out, y_of(place.row))?;
    put_bytes(out, b"H")?;
    put_decimal(out, x_of(place.node))?;
    put_bytes(out, b"'/>\n")
}

/// An arrow of this style from one place to another.
#[tactic(auto, unfolding(crate::specs::Pieces::arrow))]
pub(crate) fn put_arrow(
    out: &mut Vec<u8>,
    style: &[u8],
    tail: Place,
    head: Place,
) -> Result<(), NoMemory>
    ensures { OnOk result (out.new.items ≡ out.old.items ++ arrow style.now tail head) }
{
    put_bytes(out, b"<path class='")?;
    put_bytes(out, style)?;
    put_bytes(out, b"' d='M")?;
    put_decimal(out, x_of(tail.node))?;
    put_bytes(out, b" ")?;
    put_decimal(out, y_of(tail.row))?;
    put_bytes(out, b"L")?;
    put_decimal(out, x_of(head.node))?;
    put_bytes(out, b" ")?;
    put_decimal(out, y_of(head.row))?;
    put_bytes(out, b"'/>\n")
}

/// One of the marks that the sheet defines, at a place.
#[tactic(auto, unfolding(crate::specs::Pieces::mark))]
pub(crate) fn put_mark(out: &mut Vec<u8>, name: &[u8], place: Place) -> Result<(), NoMemory>
    ensures { OnOk result (out.new.items ≡ out.old.items ++ mark name.now place) }
{
    put_bytes(out, b"<use href='#")?;
    put_bytes(out, name)?;
    put_bytes(out, b"' x='")?;
    put_decimal(out, x_of(place.node))?;
    put_bytes(out, b"' y='")?;
    put_decimal(out, y_of(place.row))?;
    put_bytes(out, b"'/>\n")
}

/// What stands before words in this style at a point.
#[tactic(auto, unfolding(crate::specs::Pieces::opening))]
pub(crate) fn put_opening(out: &mut Vec<u8>, style: &[u8], x: u64, y: u64) -> Result<(), NoMemory>
    ensures { OnOk result (out.new.items ≡ out.old.items ++ opening style.now x y) }
{
    put_bytes(out, b"<text class='")?;
    put_bytes(out, style)?;
    put_bytes(out, b"' x='")?;
    put_decimal(out, x)?;
    put_bytes(out, b"' y='")?;
    put_decimal(out, y)?;
    put_bytes(out, b"'>")
}

/// What stands behind them.
#[tactic(auto, unfolding(crate::specs::Pieces::closing))]
pub(crate) fn put_closing(out: &mut Vec<u8>) -> Result<(), NoMemory>
    ensures { OnOk result (out.new.items ≡ out.old.items ++ closing) }
{
    put_bytes(out, b"</text>\n")
}

/// What stands before all else in a document of this size.
#[tactic(auto, unfolding(crate::specs::Pieces::document_opening))]
pub(crate) fn put_document_opening(
    out: &mut Vec<u8>,
    width: u64,
    height: u64,
) -> Result<(), NoMemory>
    ensures { OnOk result (out.new.items ≡ out.old.items ++ document_opening width height) }
{
    put_bytes(out, b"<svg xmlns='http://www.w3.org/2000/svg' width='")?;
    put_decimal(out, width)?;
    put_bytes(out, b"' height='")?;
    put_decimal(out, height)?;
    put_bytes(out, b"' viewBox='0 0 ")?;
    put_decimal(out, width)?;
    put_bytes(out, b" ")?;
    put_decimal(out, height)?;
    put_bytes(out, b"' font-family='monospace' font-size='11'>\n")
}

/// What stands behind all else.
#[tactic(auto, unfolding(crate::specs::Pieces::document_closing))]
pub(crate) fn put_document_closing(out: &mut Vec<u8>) -> Result<(), NoMemory>
    ensures { OnOk result (out.new.items ≡ out.old.items ++ document_closing) }
{
    put_bytes(out, b"</svg>\n")
}
