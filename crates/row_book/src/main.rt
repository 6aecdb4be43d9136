//! Runs the rows of the file `stdin`, each worked by hand, through the top call, and prints how each of them ended.
//!
//! A row begins with a line `@ ` and its title. Then come a line `$ ` and the words of the command, the lines of the input, a line `= ` and the exit code, and the lines that are to be written. A line for the error sink has `! ` before it.
#![tactic(auto)]

mod row;

use byte_io::{read_all, write_all};
use flash_top::{StdSink, StdSource};
use row::{Row, outcome};
use std::alloc::Global;
use std::test::Fail;

/// Puts the row's title behind how it ended; where that isn't as it should be, also what it wrote.
fn tell(alloc: Global, text: &str, out: &mut Vec<u8>) -> Result<(), Fail> {
    let Some(row) = Row::of_text(text) else {
        out.extend_from_slice(b"no row: ")?;
        out.extend_from_slice(text.as_bytes())?;
        out.push(b'\n')?;
        return Ok(());
    };
    let ended = outcome(alloc, &row)?;
    let is_so = ended.as_slice() == row.wanted.as_bytes();
    out.extend_from_slice(if is_so {
        b"ok: ".as_slice()
    } else {
        b"not so: ".as_slice()
    })?;
    out.extend_from_slice(row.title.as_bytes())?;
    out.push(b'\n')?;
    if !is_so {
        out.extend_from_slice(&ended)?;
        out.push(b'\n')?;
    }
    Ok(())
}

/// How each row of a book ended.
fn told(alloc: Global, book: &str) -> Result<Vec<u8>, Fail> {
    let mut out = Vec::new(alloc);
    let rows = book.strip_prefix("@ ").unwrap_or(book);
    let rows = rows.strip_suffix('\n').unwrap_or(rows);
    for text in rows.split("\n@ ") {
        tell(alloc, text, &mut out)?;
    }
    Ok(out)
}

fn main(rt: HostRuntime) -> Result<(), Fail> {
    let Ok(bytes) = read_all(rt.alloc(), &mut StdSource::new(rt.stdin())) else {
        return Err(Fail::new("the book can't be read"));
    };
    let Ok(book) = String::from_utf8(bytes) else {
        return Err(Fail::new("the book is no text"));
    };
    let out = told(rt.alloc(), &book)?;
    match write_all(&mut StdSink::new(rt.stdout()), &out) {
        Ok(()) => Ok(()),
        Err(_) => Err(Fail::new("the rows can't be told")),
    }
}
