//! Lines as a reader gives them, each of which is checked as a document.
ghost use Rattle.std.specs.Prelude.{◌≡◌, [], ℕ, List, false, true};
ghost use Rattle.std.specs.Prelude.{IfOk, IfErr, IsOk, OnOk, OnErr};
ghost use Rattle.std.specs.Io.KnownBytes.{Appends, Consumes};
ghost use Rattle.std.specs.List.{list_all};
ghost use Rattle.jcheck.specs.Reports.{is_clean_line, line_text, lines_text};
ghost use Rattle.jcheck.specs.Writings.{HasPutLines, HasPutSome, HasStopped, TakesLine};
ghost use Rattle.programs.specs.Ports.{HasRead};
ghost use Rattle.simd_json_parts.specs.Pieces.{is_blank, pieces};
ghost use Rattle.simd_json_print.specs.Texts.{Adds};

use crate::checker::DocumentChecker;
use crate::excerpt::Style;
use crate::failure::Failure;
use crate::report::{FilePlace, PIECE};
use programs::{Channel, Event, Lines};
use simd_json_parts::charutils::is_blank;
use simd_json_print::text::{Target, Text};
use std::alloc::AllocError;
use std::io::{Read, Write};

/// Checks each line of what a reader gives as a document, and writes the place and the reason of
/// each error, with the text around it in this style, before it reads more. Only the line that has
/// begun and the block that was read last are kept. Returns whether there is no error.
///
/// Fails with `Output` exactly if the writer does, and with `Input` if the reader or an allocation
/// fails, or if the input does not end within 2^64 - 1 lines and blocks (`OutOfMemory`). A beginning
/// of the output of what has been read is written then.
pub fn check_lines<R: Read, W: Write>(
    checker: &mut DocumentChecker,
    reader: &mut Channel<R>,
    out: &mut Channel<W>,
    file: &str,
    style: Style,
) -> Result<bool, Failure>
    requires reader { reader.old.failed ≡ false }
    requires out { out.old.failed ≡ false }
    ensures checked { IfOk result (λ clean. (input : List ℕ)
        × HasRead (R.remaining reader.old.inner) (R.remaining reader.new.inner) input
        × Appends (W.contents out.old.inner) (W.contents out.new.inner)
        (lines_text file.now style checker.old.depth 1 0 (pieces input))
        × (clean ≡ list_all (is_clean_line checker.old.depth) (pieces input))) }
    ensures sound { OnOk result ((reader.new.failed ≡ false) × (out.new.failed ≡ false)) }
    ensures stopped { IfErr result (λ e. (input : List ℕ)
        × Consumes (R.remaining reader.old.inner) (R.remaining reader.new.inner) input
        × HasStopped e reader.new.failed out.new.failed
        (W.contents out.old.inner) (W.contents out.new.inner)
        (lines_text file.now style checker.old.depth 1 0 (pieces input))) }
{
    let mut text = Text::<Channel<W>, PIECE>::new(out);
    let put = put_lines(checker, reader, &mut text, file, style);
    if reader.failed() {
        // All text was written before it read.
        return put;
    }
    text.finish().map_err(Failure::Output)?;
    put
}

// Appends the reports on the lines of a reader, and returns whether there is none. If the target
// fails, this ends at once, and the result is unspecified.
fn put_lines<R: Read, T: Target, const SIZE: usize>(
    checker: &mut DocumentChecker,
    reader: &mut Channel<R>,
    text: &mut Text<'_, T, SIZE>,
    file: &str,
    style: Style,
) -> Result<bool, Failure>
    requires { reader.old.failed ≡ false }
    ensures put { IfOk result (HasPutLines T.state text.old text.new file.now style
        checker.old.depth (R.remaining reader.old.inner) (R.remaining reader.new.inner)
        reader.new.failed) }
    ensures stopped { IfErr result (HasPutSome T.state text.old text.new file.now style
        checker.old.depth (R.remaining reader.old.inner) (R.remaining reader.new.inner)
        reader.new.failed) }
{
    let mut reports = LineReports::new(file, style);
    let mut lines = Lines::new(usize::MAX);
    let mut line = Vec::new(checker.alloc());
    for _ in 0..u64::MAX {
        if text.has_failed() {
            return Ok(reports.all_clean);
        }
        let event = match lines.next(reader, &mut line) {
            Ok(event) => event,
            Err(_) => return Err(Failure::of_input(reader.fault())),
        };
        match event {
            Event::Line => reports.put(checker, text, line.as_slice())?,
            Event::Block => text.flush(),
            Event::End => {
                reports.put(checker, text, line.as_slice())?;
                return Ok(reports.all_clean);
            }
        }
    }
    Err(Failure::from(AllocError))
}

// The lines that have ended.
#[derive(Drop)]
struct LineReports<'a> {
    style: Style,
    // where the next line begins
    place: FilePlace<'a>,
    // whether each is blank or a document
    all_clean: bool,
}

impl<'a> LineReports<'a> {
    fn new(file: &'a str, style: Style) -> LineReports<'a>
        ensures style { result.style ≡ style }
        ensures file { result.place.file.now ≡ file.now }
        ensures start { (result.place.line ≡ 1) × (result.place.byte ≡ 0)
            × (result.all_clean ≡ true) }
    {
        LineReports {
            style,
            place: FilePlace {
                file,
                line: 1,
                byte: 0,
            },
            all_clean: true,
        }
    }

    // Appends the report on the next line. If an allocation fails, nothing is appended; one that is
    // blank takes none.
    fn put<T: Target, const SIZE: usize>(
        &mut self,
        checker: &mut DocumentChecker,
        text: &mut Text<'_, T, SIZE>,
        line: &[u8],
    ) -> Result<(), AllocError>
        ensures taken { OnOk result (TakesLine T.state text.old text.new checker.old.depth
            self.old self.new line.now) }
        ensures none { OnErr result (Adds T.state text.old text.new []) }
        ensures blank { is_blank line.now ≡ true → IsOk result }
        ensures style { self.new.style ≡ self.old.style }
        ensures file { self.new.place.file.now ≡ self.old.place.file.now }
        ensures depth { checker.new.depth ≡ checker.old.depth }
    {
        self.all_clean &= put_line(checker, text, self.place, line, self.style)?;
        self.place.line = self.place.line.saturating_add(1);
        self.place.byte = self.place.byte.saturating_add(line.len()).saturating_add(1);
        Ok(())
    }
}

// Appends the report on a line that begins at this place, and returns whether it is empty.
fn put_line<T: Target, const SIZE: usize>(
    checker: &mut DocumentChecker,
    text: &mut Text<'_, T, SIZE>,
    start: FilePlace<'_>,
    line: &[u8],
    style: Style,
) -> Result<bool, AllocError>
    ensures clean { IfOk result (λ clean. clean
        ≡ is_clean_line checker.old.depth line.now) }
    ensures put { OnOk result (Adds T.state text.old text.new
        (line_text start.entry.file.now style checker.old.depth
        start.entry.line start.entry.byte line.now)) }
    ensures none { OnErr result (Adds T.state text.old text.new []) }
    ensures blank { is_blank line.now ≡ true → IsOk result }
    ensures depth { checker.new.depth ≡ checker.old.depth }
{
    if is_blank(line) {
        return Ok(true);
    }
    start.check(checker, text, line, style)
}
