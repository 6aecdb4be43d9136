//! One row of the book.

use row_calls::ends;
use std::alloc::Global;
use std::test::Fail;

/// A call of the program, and how it is to end: its exit code in a line, then what is written.
#[derive(Clone, Copy)]
pub(crate) struct Row<'a> {
    pub(crate) title: &'a str,
    pub(crate) words: &'a str,
    pub(crate) input: &'a str,
    pub(crate) wanted: &'a str,
}

impl<'a> Row<'a> {
    /// The row that a text has, without the mark before its title.
    pub(crate) fn of_text(text: &'a str) -> Option<Row<'a>> {
        let (title, rest) = text.split_once("\n$ ")?;
        let (call, wanted) = rest.split_once("\n= ")?;
        let (words, input) = call.split_once('\n').unwrap_or((call, ""));
        Some(Row {
            title,
            words,
            input,
            wanted,
        })
    }
}

/// How a row ends: its exit code in a line, what was written, and what was told, without the end of the last line.
pub(crate) fn outcome(alloc: Global, row: &Row<'_>) -> Result<Vec<u8>, Fail> {
    let mut input = row.input.as_bytes().to_vec(alloc)?;
    if !input.is_empty() {
        input.push(b'\n')?;
    }
    let ended = ends(alloc, row.words, &input)?;
    let mut text = Vec::new(alloc);
    text.extend_from_slice(format!(in alloc; "{}\n", ended.code)?.as_bytes())?;
    text.extend_from_slice(&ended.output)?;
    if !ended.told.is_empty() {
        text.extend_from_slice(b"! ")?;
        text.extend_from_slice(&ended.told)?;
    }
    if text.last() == Some(&b'\n') {
        text.pop();
    }
    Ok(text)
}
