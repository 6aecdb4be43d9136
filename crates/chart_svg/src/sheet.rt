//! What each picture has alike: how things are drawn, the marks, and what they mean.

ghost use Rattle.std.specs.Prelude.{◌≡◌, ◌++◌, OnOk};
ghost use Rattle.chart_svg.specs.Sheet.{styles, arrow_heads, mark_shapes, line_legend, mark_legend, entry_legend};

use decimal_text::put_bytes;
use op_model::NoMemory;

const STYLES: &[u8] = b"<title>Events of a run</title>
<style>
text{stroke:white;stroke-width:6;paint-order:stroke}
.title{font-size:16px}
.number,.left{text-anchor:end}
.middle{text-anchor:middle}
.left,.right{font-size:10px}
.life{stroke:#999}
.guide{stroke:#ddd}
.request{stroke:#0072B2;stroke-width:1.5;marker-end:url(#request-head)}
.reply{stroke:#D55E00;stroke-width:1.5;stroke-dasharray:10 4;marker-end:url(#reply-head)}
.refusal{stroke:black;stroke-width:2.5;stroke-dasharray:3 3;marker-end:url(#refusal-head)}
</style>
";

const ARROW_HEADS: &[u8] = b"<defs>
<marker id='request-head' refX='16' refY='5' markerWidth='20' markerHeight='10' markerUnits='userSpaceOnUse' orient='auto'><path d='M0 1L10 5L0 9z' fill='#0072B2'/></marker>
<marker id='reply-head' refX='16' refY='5' markerWidth='20' markerHeight='10' markerUnits='userSpaceOnUse' orient='auto'><path d='M0 1L10 5L0 9z' fill='#D55E00'/></marker>
<marker id='refusal-head' refX='16' refY='5' markerWidth='20' markerHeight='10' markerUnits='userSpaceOnUse' orient='auto'><path d='M0 1L10 5L0 9z'/></marker>
";

const MARK_SHAPES: &[u8] = b"<circle id='event' r='4' fill='white' stroke='black'/>
<rect id='eviction' x='-4' y='-4' width='8' height='8' fill='white' stroke='black'/>
<path id='reclaim' d='M0 -6L6 0L0 6L-6 0z' fill='white' stroke='black'/>
<circle id='served' r='4'/>
<circle id='completed' r='7' fill='none' stroke='black' stroke-width='1.5'/>
</defs>
<rect width='100%' height='100%' fill='white'/>
";

const LINE_LEGEND: &[u8] = b"<path class='request' d='M20 48H74'/><text x='80' y='52'>request</text>
<path class='reply' d='M20 70H74'/><text x='80' y='74'>reply</text>
<path class='refusal' d='M20 92H74'/><text x='80' y='96'>refusal (Nak, Nakc)</text>
";

const MARK_LEGEND: &[u8] =
    b"<use href='#event' x='260' y='48'/><text x='280' y='52'>hit, issue or take</text>
<use href='#eviction' x='260' y='70'/><text x='280' y='74'>eviction</text>
<use href='#reclaim' x='260' y='92'/><text x='280' y='96'>reclaim</text>
";

const ENTRY_LEGEND: &[u8] =
    b"<use href='#served' x='30' y='114'/><text x='80' y='118'>serves: entry above</text>
<use href='#event' x='260' y='114'/><use href='#completed' x='260' y='114'/><text x='280' y='118'>completes: entry below</text>
<text x='20' y='138'>entry: node, place, kind, address, value, old value</text>
<text x='20' y='152'>arrow: message, line, cause of a Nak</text>
<text class='number' x='50' y='168'>event</text><text x='60' y='168'>step</text>
";

/// Appends the title, and how text and lines are drawn.
#[tactic(auto, unfolding(crate::specs::Sheet::styles))]
pub(crate) fn put_styles(out: &mut Vec<u8>) -> Result<(), NoMemory>
    ensures { OnOk result (out.new.items ≡ out.old.items ++ styles) }
{
    put_bytes(out, STYLES)
}

/// Appends the heads of arrows.
#[tactic(auto, unfolding(crate::specs::Sheet::arrow_heads))]
pub(crate) fn put_arrow_heads(out: &mut Vec<u8>) -> Result<(), NoMemory>
    ensures { OnOk result (out.new.items ≡ out.old.items ++ arrow_heads) }
{
    put_bytes(out, ARROW_HEADS)
}

/// Appends the marks, and the white ground.
#[tactic(auto, unfolding(crate::specs::Sheet::mark_shapes))]
pub(crate) fn put_mark_shapes(out: &mut Vec<u8>) -> Result<(), NoMemory>
    ensures { OnOk result (out.new.items ≡ out.old.items ++ mark_shapes) }
{
    put_bytes(out, MARK_SHAPES)
}

/// Appends what the styles of arrows mean.
#[tactic(auto, unfolding(crate::specs::Sheet::line_legend))]
pub(crate) fn put_line_legend(out: &mut Vec<u8>) -> Result<(), NoMemory>
    ensures { OnOk result (out.new.items ≡ out.old.items ++ line_legend) }
{
    put_bytes(out, LINE_LEGEND)
}

/// Appends what the marks of events mean.
#[tactic(auto, unfolding(crate::specs::Sheet::mark_legend))]
pub(crate) fn put_mark_legend(out: &mut Vec<u8>) -> Result<(), NoMemory>
    ensures { OnOk result (out.new.items ≡ out.old.items ++ mark_legend) }
{
    put_bytes(out, MARK_LEGEND)
}

/// Appends what the marks and words of operations mean, and the heads of the columns.
#[tactic(auto, unfolding(crate::specs::Sheet::entry_legend))]
pub(crate) fn put_entry_legend(out: &mut Vec<u8>) -> Result<(), NoMemory>
    ensures { OnOk result (out.new.items ≡ out.old.items ++ entry_legend) }
{
    put_bytes(out, ENTRY_LEGEND)
}
