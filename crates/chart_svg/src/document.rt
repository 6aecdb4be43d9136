//! The whole picture.

ghost use Rattle.std.specs.Prelude.{◌≡◌, ◌≤◌, ◌++◌, length, OnOk, IfOk};
ghost use Rattle.chart_svg.specs.Pictures.{sheet, legend, chosen_words, heading, node_name, node_text, lifelines_text, picture_text};

use crate::arrows::put_all_lines;
use crate::marks::put_all_words;
use crate::pieces::{
    put_closing, put_document_closing, put_document_opening, put_lifeline, put_opening,
};
use crate::places::{count_rows, x_of, y_of};
use crate::sheet::{
    put_arrow_heads, put_entry_legend, put_line_legend, put_mark_legend, put_mark_shapes,
    put_styles,
};
use chart_strokes::Stroke;
use decimal_text::{put_bytes, put_decimal};
use op_model::NoMemory;
use std::alloc::Global;

#[tactic(auto, unfolding(crate::specs::Pictures::legend))]
fn put_legend(out: &mut Vec<u8>) -> Result<(), NoMemory>
    ensures { OnOk result (out.new.items ≡ out.old.items ++ legend) }
{
    put_line_legend(out)?;
    put_mark_legend(out)?;
    put_entry_legend(out)
}

/// Appends the beginning of the document, and what each picture has alike.
#[tactic(auto, unfolding(crate::specs::Pictures::sheet))]
fn put_sheet(out: &mut Vec<u8>, nodes: u32, rows: u32) -> Result<(), NoMemory>
    ensures { OnOk result (out.new.items ≡ out.old.items ++ sheet nodes rows) }
{
    let width = 340 + 130 * u64::from(nodes);
    let height = 212 + 28 * u64::from(rows);
    put_document_opening(out, width, height)?;
    put_styles(out)?;
    put_arrow_heads(out)?;
    put_mark_shapes(out)?;
    put_legend(out)
}

fn put_chosen(out: &mut Vec<u8>, chosen: Option<u32>) -> Result<(), NoMemory>
    ensures { OnOk result (out.new.items ≡ out.old.items ++ chosen_words chosen) }
{
    match chosen {
        None => put_bytes(out, b"all lines"),
        Some(line) => {
            put_bytes(out, b"line ")?;
            put_decimal(out, u64::from(line))
        }
    }
}

#[tactic(auto, unfolding(crate::specs::Pictures::heading))]
fn put_heading(out: &mut Vec<u8>, chosen: Option<u32>) -> Result<(), NoMemory>
    ensures { OnOk result (out.new.items ≡ out.old.items ++ heading chosen) }
{
    put_opening(out, b"title", 20, 28)?;
    put_bytes(out, b"Events of ")?;
    put_chosen(out, chosen)?;
    put_closing(out)
}

#[tactic(auto, unfolding(crate::specs::Pictures::node_name))]
fn put_node_name(out: &mut Vec<u8>, node: u32) -> Result<(), NoMemory>
    ensures { OnOk result (out.new.items ≡ out.old.items ++ node_name node) }
{
    put_opening(out, b"middle", x_of(node), 168)?;
    put_bytes(out, b"node ")?;
    put_decimal(out, u64::from(node))?;
    put_closing(out)
}

/// Appends a node's name, and its line down to below the last row.
fn put_node(out: &mut Vec<u8>, rows: u32, node: u32) -> Result<(), NoMemory>
    ensures { OnOk result (out.new.items ≡ out.old.items ++ node_text rows node) }
{
    put_node_name(out, node)?;
    put_lifeline(out, x_of(node), y_of(rows))
}

fn put_nodes(out: &mut Vec<u8>, nodes: u32, rows: u32) -> Result<(), NoMemory>
    ensures { OnOk result (out.new.items ≡ out.old.items ++ lifelines_text nodes rows) }
{
    for node in 0..nodes {
        put_node(out, rows, node)?;
    }
    Ok(())
}

/// The picture of strokes of a machine of so many nodes, as one SVG document; of a chosen line, the strokes alone that are about it.
#[tactic(auto, unfolding(crate::specs::Pictures::picture_text))]
pub fn picture(
    alloc: Global,
    nodes: u32,
    chosen: Option<u32>,
    strokes: &[Stroke],
) -> Result<Vec<u8>, NoMemory>
    requires { length strokes.now ≤ 65536 }
    ensures { IfOk result (λ text. text.items ≡ picture_text nodes chosen strokes.now) }
{
    let mut text = Vec::new(alloc);
    let rows = count_rows(chosen, strokes);
    put_sheet(&mut text, nodes, rows)?;
    put_heading(&mut text, chosen)?;
    put_nodes(&mut text, nodes, rows)?;
    put_all_lines(&mut text, chosen, strokes)?;
    put_all_words(&mut text, chosen, strokes)?;
    put_document_closing(&mut text)?;
    Ok(text)
}
