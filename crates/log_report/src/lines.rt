//! The lines so far, counted in memory that is reserved at the start.
ghost use Rattle.std.specs.Prelude.{◌≡◌, IfOk, OnOk, false};
ghost use Rattle.log_report.specs.Report.{notice_words, rejection_line};
ghost use Rattle.programs.specs.Failures.{Begins, Ends};
ghost use Rattle.programs.specs.Rejections.{rejection_words};
ghost use Rattle.log_report.specs.Runs.{AddsValue, BeginsInput, BeginsCountedLine, BeginsNotice};
ghost use Rattle.log_report.specs.Runs.{BeginsReport, CountsMore, EndsInput, EndsReport};
ghost use Rattle.log_report.specs.Runs.{CountsRejection, HasNoLine, Notes, Prints, TakesInput};
ghost use Rattle.log_report.specs.Runs.{CountsLine, counts_of};
ghost use Rattle.log_report.specs.Table.{lines_of, others};
ghost use Rattle.simd_json.specs.Viewed.{doc};

use crate::rows::{Row, Wanted, append_row};
use indexmap::IndexMap;
use jsonl::{Record, Records};
use programs::{Channel, Event, Failure, Words, put_name, rejection_words};
use simd_json::tape::Value;
use simd_json::{DEFAULT_MAX_DEPTH, Error, StaticNode};
use simd_json_print::text::Text;
use std::alloc::{AllocError, Allocator};
use std::hash::{BuildHasherDefault, FoldHasher};
use std::io::{self, Read, Write};

type Ended = Result<(), Failure>;

/// The lines so far, and the memory for all that follow.
#[derive(Drop)]
pub struct Lines<'k, A: Allocator> {
    wanted: &'k Wanted<'k>,
    file: &'k str,
    records: Records<A>,
    all_taken: bool,
    counts: IndexMap<Vec<u8, A>, u64, BuildHasherDefault<FoldHasher>, A>,
}

impl<'k, A: Allocator + Copy> Lines<'k, A> {
    /// Returns the memory for the lines that are wanted.
    pub fn new(a: A, wanted: &'k Wanted<'k>) -> simd_json::Result<Lines<'k, A>>
        ensures { IfOk result (HasNoLine wanted.now) }
    {
        let mut lines = Lines {
            wanted,
            file: "",
            records: Records::reserved(a, wanted.longest, DEFAULT_MAX_DEPTH)?,
            all_taken: true,
            counts: IndexMap::with_capacity(a, wanted.most_texts())?,
        };
        lines.add(wanted.no_value(), 0)?;
        lines.add(wanted.others(), 0)?;
        lines.add(wanted.rejected(), 0)?;
        Ok(lines)
    }

    /// Whether no line was rejected.
    pub fn all_taken(&self) -> bool
        ensures { result ≡ self.now.all_taken }
    {
        self.all_taken
    }

    /// Counts the lines of a reader, with numbers from 1 on and with this file's name if they are
    /// rejected. `line` may be overwritten.
    pub fn read<R: Read, E: Write>(
        &mut self,
        file: &'k str,
        reader: &mut Channel<R>,
        line: &mut Vec<u8, A>,
        err: &mut Channel<E>,
    ) -> Ended
        requires reader { reader.old.failed ≡ false }
        requires err { err.old.failed ≡ false }
        ensures { EndsInput reader.new.failed err.new.failed
            (TakesInput R.remaining E.contents self.old self.new reader.old reader.new
            err.old err.new file.now)
            (BeginsInput R.remaining E.contents self.old reader.old reader.new err.old err.new
            file.now) result }
    {
        self.file = file;
        self.records.restart();
        let mut lines = programs::Lines::new(self.wanted.longest);
        for _ in 0..u64::MAX {
            match lines.next(reader, line)? {
                Event::Line => self.count(line.as_mut_slice(), err)?,
                Event::Block => {}
                Event::End => return self.count(line.as_mut_slice(), err),
            }
        }
        Err(Failure::Resources)
    }

    /// Counts a line. Of one that is too long, the first bytes are enough: one more than it may
    /// have.
    pub fn count<E: Write>(&mut self, line: &mut [u8], err: &mut Channel<E>) -> Ended
        ensures { Ends err.old err.new
            (CountsLine E.contents self.old self.new err.old err.new line.old)
            (BeginsCountedLine E.contents self.old err.old err.new line.old) result }
    {
        match self.records.next(line)? {
            Record::Blank => Ok(()),
            Record::Value(tape) => {
                self.add_value(tape.as_value())?;
                self.records.keep(tape);
                Ok(())
            }
            Record::Rejected(error) => self.reject(error, err),
        }
    }

    // Names the last line as rejected, and counts it. Without an error it is too long.
    fn reject<E: Write>(&mut self, error: Option<Error>, err: &mut Channel<E>) -> Ended
        ensures { Ends err.old err.new
            (CountsRejection E.contents self.old self.new err.old err.new error)
            (Begins (E.contents err.old.inner) (E.contents err.new.inner)
            (rejection_line self.old.wanted.now self.old.file.now self.old.records.number
            self.old.records.text error)) result }
    {
        let words = self.naming_words(error).map_err(|_| Failure::Resources)?;
        put_name(err, self.file, words.as_slice())?;
        self.all_taken = false;
        self.add(self.wanted.rejected(), 1)?;
        Ok(())
    }

    // What names the last line after the name of the file.
    fn naming_words(&self, error: Option<Error>) -> io::Result<Words>
        ensures { IfOk result (λ words. words.items ≡ rejection_words self.now.wanted.now.longest
            self.now.records.number self.now.records.text error) }
    {
        rejection_words(
            self.wanted.longest,
            self.records.number(),
            self.records.text(),
            error,
        )
    }

    // Counts a line by the row of its value, or under `*` if that has more than 1,024 bytes.
    fn add_value(&mut self, value: Value<'_, '_>) -> Result<(), AllocError>
        ensures { OnOk result (AddsValue self.old self.new (doc value.entry)) }
    {
        let mut row = Row::new();
        append_row(&mut row, self.wanted, value)?;
        if row.is_full() {
            return self.add(self.wanted.others(), 1);
        }
        self.add(row.as_slice(), 1)
    }

    // Counts `more` lines under this text, or under `*` if all places for texts are taken.
    fn add(&mut self, text: &[u8], more: u64) -> Result<(), AllocError>
        ensures { OnOk result (CountsMore self.old self.new text.now more) }
    {
        if let Some(place) = self.counts.get_index_of(text) {
            self.counts[place] = self.counts[place].saturating_add(more);
        } else if self.counts.len() < self.wanted.most_texts() {
            let text = Vec::from_slice(*self.counts.allocator(), text)?;
            self.counts.insert(text, more)?;
        } else if let Some(place) = self.counts.get_index_of(self.wanted.others()) {
            self.counts[place] = self.counts[place].saturating_add(more);
        }
        Ok(())
    }

    /// Says how many lines have no count of their own, if there are any.
    pub fn note<E: Write>(&self, err: &mut Channel<E>) -> Ended
        ensures { Ends err.old err.new (Notes E.contents self.now err.old err.new)
            (BeginsNotice E.contents self.now err.old err.new) result }
    {
        let count = self.others();
        if count == 0 {
            return Ok(());
        }
        let words = self.notice(count).map_err(|_| Failure::Resources)?;
        put_name(err, "log_report: ", words.as_slice())
    }

    // How many lines have no count of their own.
    fn others(&self) -> u64
        ensures { result ≡ lines_of (others self.now.wanted.now.is_tsv) (counts_of self.now) }
    {
        match self.counts.get_index_of(self.wanted.others()) {
            Some(place) => self.counts[place],
            None => 0,
        }
    }

    fn notice(&self, count: u64) -> io::Result<Words>
        ensures { IfOk result (λ words. words.items ≡ notice_words self.now.wanted.now count) }
    {
        let (mark, values) = (self.wanted.others_mark(), self.wanted.values);
        let mut words = Words::new();
        writeln!(
            words,
            "lines under {mark}: {count} (--values for more than {values} values; \
             a row has at most 1024 bytes)"
        )?;
        Ok(words)
    }

    /// Writes a line for each text under which lines count, the greatest count first.
    pub fn write<W: Write>(&mut self, out: &mut Channel<W>) -> Ended
        ensures printed { EndsReport self.old.all_taken out.old out.new
            (Prints W.contents self.old out.old out.new)
            (BeginsReport W.contents self.old out.old out.new) result }
        ensures taken { self.new.all_taken ≡ self.old.all_taken }
    {
        self.counts.sort_by(|_, count, _, other| other.cmp(count))?;
        let mut text = Text::<Channel<W>, 4096>::new(out);
        for (label, count) in self.counts.iter() {
            if *count > 0 {
                text.put_static(b"", StaticNode::U64(*count), self.wanted.separator());
                text.put_between(b"", label.as_slice(), b"\n");
            }
        }
        match text.finish() {
            Ok(()) => Ok(()),
            Err(_) => Err(Failure::of_output(out.closed(), self.all_taken)),
        }
    }
}
