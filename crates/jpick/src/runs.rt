//! What is picked of the lines of a reader, or of its document.
ghost use Rattle.std.specs.Prelude.{◌≡◌, ℕ, List, false, true, is_some};
ghost use Rattle.jpick.specs.Picked.{no_line, picked_document, picked_lines, picked_of};
ghost use Rattle.jpick.specs.Putting.{Knows, TakesAll};
ghost use Rattle.jpick.specs.Runs.{Picks};
ghost use Rattle.jpick.specs.declared.fields.Wanted.{Wanted};

use crate::fields::Wanted;
use crate::lines::{Picker, Taken};
use programs::{Channel, Event, Failure, Lines, read_all};
use simd_json_print::text::{Target, Text};
use std::alloc::Allocator;
use std::io::{Read, Write};

// How many bytes of rows are collected before they are written.
const PIECE: usize = 65_536;

/// Writes the rows of the lines of a reader, or of its one document, and names each rejected text
/// on `rejections`. Returns whether none was rejected, or [`Taken::Document`] if the first line ends
/// within a document: then the file is one, and it stops there.
///
/// All rows so far are written before more is read, and before a rejected text is named. However
/// many values are selected, only the line or document that they are of is kept.
///
/// Fails with `Read` if reading fails, with `Write` if writing rows does, or with `Closed` in its
/// place, with `Name` if naming a rejected text does, and with `Resources` if an allocation fails,
/// or if the input does not end within 2^64 - 1 lines and blocks. After an error a prefix of the
/// rows and of the names of rejected texts was written.
pub fn run<A: Allocator + Copy, R: Read, W: Write, E: Write>(
    a: A,
    wanted: &Wanted<'_>,
    file: &str,
    reader: &mut Channel<R>,
    out: &mut Channel<W>,
    rejections: &mut Channel<E>,
) -> Result<Taken, Failure>
    requires reader { reader.old.failed ≡ false }
    requires out { out.old.failed ≡ false }
    requires rejections { rejections.old.failed ≡ false }
    ensures { Picks R.remaining W.contents E.contents wanted.now file.now
        reader.old reader.new out.old out.new rejections.old rejections.new result }
{
    let mut picker = Picker::new(a, wanted, file).map_err(|_| Failure::Resources)?;
    write_rows(a, &mut picker, reader, out, rejections)
}

// Writes the rows of all lines, or of the document, that a new picker takes.
fn write_rows<A: Allocator + Copy, R: Read, W: Write, E: Write>(
    a: A,
    picker: &mut Picker<'_, '_, '_, A>,
    reader: &mut Channel<R>,
    out: &mut Channel<W>,
    rejections: &mut Channel<E>,
) -> Result<Taken, Failure>
    requires reader { reader.old.failed ≡ false }
    requires out { out.old.failed ≡ false }
    requires rejections { rejections.old.failed ≡ false }
    ensures { (w : Wanted) (file : List ℕ)
        → Knows picker.old w file no_line → Picks R.remaining W.contents E.contents w file
        reader.old reader.new out.old out.new rejections.old rejections.new result }
{
    let mut rows = Text::<Channel<W>, PIECE>::new(out);
    let taken = take_all(a, picker, reader, &mut rows, rejections);
    if reader.failed() || rejections.failed() {
        // All rows were written before it read, and before it named a rejected text.
        return taken;
    }
    match rows.finish() {
        Ok(()) => taken,
        Err(_) => Err(Failure::of_output(out.closed(), picker.all_taken())),
    }
}

// Takes all lines, or the document, and returns what was taken. If the target of the
// rows fails, this ends at once, and the result is unspecified.
fn take_all<A: Allocator + Copy, R: Read, T: Target, const SIZE: usize, E: Write>(
    a: A,
    picker: &mut Picker<'_, '_, '_, A>,
    reader: &mut Channel<R>,
    rows: &mut Text<'_, T, SIZE>,
    rejections: &mut Channel<E>,
) -> Result<Taken, Failure>
    requires reader { reader.old.failed ≡ false }
    requires rows { is_some rows.old.fault ≡ false }
    requires rejections { rejections.old.failed ≡ false }
    ensures taken { TakesAll R.remaining T.state E.contents picked_of picker.old picker.new
        reader.old reader.new rows.old rows.new rejections.old rejections.new result }
    ensures same_target { rows.new.target.ghost_name ≡ rows.old.target.ghost_name }
{
    if picker.wanted().is_document {
        return take_document(a, picker, reader, rows, rejections);
    }
    take_lines(a, picker, reader, rows, rejections)
}

fn take_document<A: Allocator + Copy, R: Read, T: Target, const SIZE: usize, E: Write>(
    a: A,
    picker: &mut Picker<'_, '_, '_, A>,
    reader: &mut Channel<R>,
    rows: &mut Text<'_, T, SIZE>,
    rejections: &mut Channel<E>,
) -> Result<Taken, Failure>
    requires document { picker.old.wanted.now.is_document ≡ true }
    requires reader { reader.old.failed ≡ false }
    requires rows { is_some rows.old.fault ≡ false }
    requires rejections { rejections.old.failed ≡ false }
    ensures taken { TakesAll R.remaining T.state E.contents picked_document picker.old picker.new
        reader.old reader.new rows.old rows.new rejections.old rejections.new result }
    ensures same_target { rows.new.target.ghost_name ≡ rows.old.target.ghost_name }
{
    let mut input = read_all(a, reader)?;
    picker.take_document(input.as_mut_slice(), rows, rejections)?;
    Ok(picker.taken())
}

fn take_lines<A: Allocator + Copy, R: Read, T: Target, const SIZE: usize, E: Write>(
    a: A,
    picker: &mut Picker<'_, '_, '_, A>,
    reader: &mut Channel<R>,
    rows: &mut Text<'_, T, SIZE>,
    rejections: &mut Channel<E>,
) -> Result<Taken, Failure>
    requires lines { picker.old.wanted.now.is_document ≡ false }
    requires reader { reader.old.failed ≡ false }
    requires rejections { rejections.old.failed ≡ false }
    ensures taken { TakesAll R.remaining T.state E.contents picked_lines picker.old picker.new
        reader.old reader.new rows.old rows.new rejections.old rejections.new result }
    ensures same_target { rows.new.target.ghost_name ≡ rows.old.target.ghost_name }
{
    let longest = picker.wanted().longest;
    let mut line = Vec::with_capacity(a, longest.saturating_add(1))?;
    let mut lines = Lines::new(longest);
    for _ in 0..u64::MAX {
        if rows.has_failed() || picker.is_over() {
            return Ok(picker.taken());
        }
        match lines.next(reader, &mut line)? {
            Event::Line => picker.take_line(line.as_mut_slice(), rows, rejections)?,
            Event::Block => rows.flush(),
            Event::End => {
                picker.take_line(line.as_mut_slice(), rows, rejections)?;
                return Ok(picker.taken());
            }
        }
    }
    Err(Failure::Resources)
}
