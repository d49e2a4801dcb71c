//! The lines of an input, and what is picked of them.
ghost use Rattle.std.specs.Prelude.{◌≡◌, false, is_some, IfOk, OnOk};
ghost use Rattle.simd_json.specs.Viewed.{doc};
ghost use Rattle.jpick.specs.Picked.{begins_document, ends_early, naming_words, no_line};
ghost use Rattle.jpick.specs.Picked.{rows_of, taken_by};
ghost use Rattle.jpick.specs.Putting.{Knows, Puts, TakesDocument, TakesLine, TakesRecord};
ghost use Rattle.jsonl.specs.Records.{IsWhole, outcome_read, rejected};

use crate::fields::{Spare, Wanted};
use crate::rows::put_rows_of;
use jsonl::{Record, Records};
use programs::{Channel, Failure, Words, put_name, rejection_words};
use simd_json::tape::Value;
use simd_json::{Error, ErrorType};
use simd_json_print::text::{Target, Text};
use std::alloc::{AllocError, Allocator};
use std::io::{self, Write};

type Ended = Result<(), Failure>;

/// What a run took of its input.
#[derive(Clone, Copy, Debug, PartialEq, Eq)]
pub enum Taken {
    /// Each text.
    All,
    /// Not those that were rejected.
    NotAll,
    /// The first line, which was rejected: it ends within a document. Nothing after it was taken.
    Document,
}

/// The lines of a file so far, and the memory for those that follow.
#[derive(Drop)]
pub struct Picker<'w, 'q, 'f, A: Allocator> {
    wanted: &'w Wanted<'q>,
    file: &'f str,
    records: Records<A>,
    spare: Spare<A>,
    all_taken: bool,
    // whether the first line begins a document
    is_over: bool,
}

impl<'w, 'q, 'f, A: Allocator + Copy> Picker<'w, 'q, 'f, A> {
    /// Returns a picker of no lines yet, with all memory reserved that lines need.
    ///
    /// Returns an error if an allocation fails.
    pub fn new(
        a: A,
        wanted: &'w Wanted<'q>,
        file: &'f str,
    ) -> simd_json::Result<Picker<'w, 'q, 'f, A>>
        ensures { IfOk result (λ picker. Knows picker wanted.now file.now no_line) }
    {
        let records = Records::new(a, wanted.longest, wanted.depth)?;
        let mut spare = Spare::new(a);
        spare.reserve(wanted.longest, wanted.depth)?;
        Ok(Picker {
            wanted,
            file,
            records,
            spare,
            all_taken: true,
            is_over: false,
        })
    }

    /// Returns what is picked.
    pub fn wanted(&self) -> &'w Wanted<'q>
        ensures { result.now ≡ self.now.wanted.now }
    {
        self.wanted
    }

    /// Returns whether no line was rejected so far.
    pub fn all_taken(&self) -> bool
        ensures { result ≡ self.now.all_taken }
    {
        self.all_taken
    }

    /// Returns whether nothing more is to be taken, since the first line begins a document.
    pub fn is_over(&self) -> bool
        ensures { result ≡ self.now.is_over }
    {
        self.is_over
    }

    /// Returns what was taken so far.
    pub fn taken(&self) -> Taken
        ensures { result ≡ taken_by self.now.is_over self.now.all_taken }
    {
        match (self.is_over, self.all_taken) {
            (true, _) => Taken::Document,
            (false, true) => Taken::All,
            (false, false) => Taken::NotAll,
        }
    }

    /// Takes a line, unless it is over. Of one that is too long, the first bytes are enough: one more than it may
    /// have. Before a rejected one is named, its earlier rows are written: if that fails, it is
    /// not.
    pub fn take_line<T: Target, const SIZE: usize, E: Write>(
        &mut self,
        line: &mut [u8],
        rows: &mut Text<'_, T, SIZE>,
        err: &mut Channel<E>,
    ) -> Ended
        requires before { self.old.is_over ≡ false }
        requires sound { is_some rows.old.fault ≡ false }
        requires rejections { err.old.failed ≡ false }
        ensures taken { TakesLine T.state E.contents self.old self.new rows.old rows.new
            err.old err.new line.old result }
        ensures silent { OnOk result (err.new.failed ≡ false) }
        ensures same_target { rows.new.target.ghost_name ≡ rows.old.target.ghost_name }
    {
        let read = self.records.next(line)?;
        self.take(read, rows, err)
    }

    /// Takes an input that is one document, before any line.
    pub fn take_document<T: Target, const SIZE: usize, E: Write>(
        &mut self,
        input: &mut [u8],
        rows: &mut Text<'_, T, SIZE>,
        err: &mut Channel<E>,
    ) -> Ended
        requires sound { is_some rows.old.fault ≡ false }
        requires rejections { err.old.failed ≡ false }
        ensures taken { TakesDocument T.state E.contents self.old self.new rows.old rows.new
            err.old err.new input.old result }
        ensures same_target { rows.new.target.ghost_name ≡ rows.old.target.ghost_name }
    {
        let read = self.records.next_document(input)?;
        self.take(read, rows, err)
    }

    // Takes the last text.
    fn take<T: Target, const SIZE: usize, E: Write>(
        &mut self,
        read: Record<'_, A>,
        rows: &mut Text<'_, T, SIZE>,
        err: &mut Channel<E>,
    ) -> Ended
        requires whole { IsWhole self.old.records.depth read }
        requires sound { is_some rows.old.fault ≡ false }
        requires rejections { err.old.failed ≡ false }
        ensures taken { TakesRecord T.state E.contents self.old self.new rows.old rows.new
            err.old err.new (outcome_read read.entry) result }
        ensures silent { OnOk result (err.new.failed ≡ false) }
        ensures same_target { rows.new.target.ghost_name ≡ rows.old.target.ghost_name }
    {
        match read {
            Record::Blank => Ok(()),
            Record::Value(tape) => {
                self.pick(tape.as_value(), rows)?;
                self.records.keep(tape);
                Ok(())
            }
            Record::Rejected(error) => self.reject(error, rows, err),
        }
    }

    // Puts the rows of a value.
    fn pick<T: Target, const SIZE: usize>(
        &mut self,
        value: Value<'_, '_>,
        rows: &mut Text<'_, T, SIZE>,
    ) -> Result<(), AllocError>
        ensures rows { Puts T.state rows.old rows.new result
            (rows_of self.old.wanted.now (doc value.entry)) }
        ensures same { self.new ≡ record self.old { spare = self.new.spare } }
    {
        put_rows_of(rows, &mut self.spare, self.wanted, value)
    }

    // Names the last text as rejected, after its earlier rows are written, or does not if that
    // fails. Without an error the text is too long.
    fn reject<T: Target, const SIZE: usize, E: Write>(
        &mut self,
        error: Option<Error>,
        rows: &mut Text<'_, T, SIZE>,
        err: &mut Channel<E>,
    ) -> Ended
        requires sound { is_some rows.old.fault ≡ false }
        requires rejections { err.old.failed ≡ false }
        ensures taken { TakesRecord T.state E.contents self.old self.new rows.old rows.new
            err.old err.new (rejected error) result }
        ensures silent { OnOk result (err.new.failed ≡ false) }
        ensures same_target { rows.new.target.ghost_name ≡ rows.old.target.ghost_name }
    {
        self.all_taken = false;
        self.is_over = self.begins_document(&error);
        if self.wanted.is_quiet {
            return Ok(());
        }
        rows.flush();
        if rows.has_failed() {
            return Ok(());
        }
        let words = self.naming_words(error).map_err(|_| Failure::Resources)?;
        put_name(err, self.file, words.as_slice())
    }

    // What names the last text after the name of the file, and how a document is read.
    fn naming_words(&self, error: Option<Error>) -> io::Result<Words>
        ensures { IfOk result (λ words. words.items
            ≡ naming_words self.now.wanted.now self.now.records.number self.now.records.text
            error) }
    {
        let begins_document = self.begins_document(&error);
        let (number, longest) = (self.records.number(), self.wanted.longest);
        let mut words = rejection_words(longest, number, self.records.text(), error)?;
        if !begins_document {
            return Ok(words);
        }
        writeln!(
            words,
            "jpick: to read a file as one document, type: jpick -d .."
        )?;
        Ok(words)
    }

    // Whether the last text is the first line, and ends within a document. Where rejected lines are
    // not named it does not matter.
    fn begins_document(&self, error: &Option<Error>) -> bool
        ensures { result
            ≡ begins_document self.now.wanted.now self.now.records.number error.now }
    {
        let is_read_by_lines = !(self.wanted.is_document || self.wanted.is_quiet);
        is_read_by_lines && self.records.number() == 1 && ends_early(error)
    }
}

// Whether the input ends within a document.
fn ends_early(error: &Option<Error>) -> bool
    ensures { result ≡ ends_early error.now }
{
    match error {
        Some(e) => *e.error() == ErrorType::Syntax && e.character().is_some(),
        None => false,
    }
}
