//! Checks of documents and of lines; here is what both share: how an input is read, and what is
//! written.
use crate::tests::{Tested, in_blocks};
use jcheck::{DocumentChecker, Failure, Style, check_document, check_lines};
use programs::Channel;
use std::io::{self, ErrorKind, Write};
use std::process::Abort;
use std::test::Fail;

mod documents;
mod lines;

// Of an error the place, the reason and the kind, the text of its line, and the caret.
type Report = [&'static str; 5];

const BLANK: &str = "expected a value, found only whitespace";

const MORE: &str = "more text after the document";

const OPEN: &str = "the string that begins here has no end";

const VALUE: &str = "expected a value, found `x`";

fn text_of(rt: &impl AllocGlobal, reports: &[Report]) -> Result<String, Fail> {
    let mut text = String::new(rt.alloc());
    for [place, reason, kind, line, caret] in reports {
        writeln!(text, "{place}: {reason} [{kind}]")?;
        writeln!(text, "{line}")?;
        writeln!(text, "{caret}")?;
    }
    Ok(text)
}

fn plain(width: usize) -> Style {
    Style {
        width,
        is_colored: false,
    }
}

// How an input is read: as one document, or as lines in blocks of this size.
#[derive(Clone, Copy)]
enum Form {
    Document,
    Lines(usize),
}

fn check<W: Write>(
    rt: &impl AllocGlobal,
    out: &mut Channel<W>,
    input: &[u8],
    form: Form,
    style: Style,
) -> Result<bool, Failure> {
    let mut checker = DocumentChecker::new(rt.alloc(), 4);
    match form {
        Form::Document => check_document(&mut checker, out, "f", input, style),
        Form::Lines(size) => {
            let mut reader = Channel::new(in_blocks(input, size));
            check_lines(&mut checker, &mut reader, out, "f", style)
        }
    }
}

// The reports on an input are written; it is clean where there are none.
fn assert_written(
    rt: &(impl AllocGlobal + Abort),
    input: &[u8],
    reports: &[Report],
    form: Form,
    style: Style,
) -> Tested {
    let mut out = Channel::new(Vec::new(rt.alloc()));
    let clean = check(rt, &mut out, input, form, style)?;
    let text = text_of(rt, reports)?;
    assert_eq!(rt;
        String::from_utf8(out.into_inner())?.as_str(),
        text.as_str()
    );
    assert_eq!(rt; clean, reports.is_empty(), "{text}");
    Ok(())
}

// Takes some bytes, and then fails.
#[derive(Drop)]
struct Short {
    taken: Vec<u8>,
    room: usize,
}

impl Write for Short {
    fn write(&mut self, buf: &[u8]) -> io::Result<usize> {
        if self.room == 0 {
            return Err(io::Error::from(ErrorKind::StorageFull));
        }
        let piece = &buf[..buf.len().min(self.room)];
        self.taken.extend_from_slice(piece)?;
        self.room -= piece.len();
        Ok(piece.len())
    }

    fn flush(&mut self) -> io::Result<()> {
        Ok(())
    }
}

// A writer that is full at each byte of the reports in turn: its error is returned, and it has
// taken all that it had room for.
fn assert_stopped(
    rt: &(impl AllocGlobal + Abort),
    input: &[u8],
    reports: &[Report],
    form: Form,
) -> Tested {
    let text = text_of(rt, reports)?;
    for room in 0..text.len() {
        let taken = Vec::new(rt.alloc());
        let mut out = Channel::new(Short { taken, room });
        let kind = match check(rt, &mut out, input, form, plain(80)) {
            Err(Failure::Output(e)) => Some(e.kind()),
            _ => None,
        };
        assert_eq!(rt; kind, Some(ErrorKind::StorageFull));
        assert_eq!(rt;
            Some(out.into_inner().taken.as_slice()),
            text.as_bytes().get(..room)
        );
    }
    Ok(())
}
