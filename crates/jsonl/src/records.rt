//! The texts of lines, parsed one after another in memory that is reserved once.
ghost use Rattle.std.specs.Prelude.{◌≡◌, [], IfOk, OnOk};
ghost use Rattle.jsonl.specs.Records.{IsTaken, Reads, outcome_of_line, outcome_of_text};
ghost use Rattle.programs.specs.Rejections.{one_more};

use simd_json::{Buffers, Error, ErrorType, Tape, refill_tape, reserve};
use simd_json_parts::charutils::is_blank;
use std::alloc::{AllocError, Allocator};
use std::marker::Model;
use std::mem;

// For lines of how many bytes memory is reserved at first: it is filled, and longer ones may be
// allowed where none comes.
const RESERVED: usize = 1 << 20;

/// What a text is.
#[derive(Drop)]
pub enum Record<'input, A: Allocator> {
    /// Empty, or whitespace alone.
    Blank,
    /// A document, which is on the tape.
    Value(Tape<'input, A>),
    /// None, by this error; or without one, longer than it may be.
    Rejected(Option<Error>),
}

/// Parses texts, one after another, and keeps the last one as it was before its parse.
#[derive(Drop)]
pub struct Records<A: Allocator> {
    longest: usize,
    number: u64,
    text: Vec<u8, A>,
    buffers: Buffers<A>,
    tape: Tape<'static, A>,
}

impl<A: Allocator> Model for Records<A> {
    ghost use Rattle.jsonl.specs.Records.{Numbered};

    ghost Value = { Numbered };

    ghost view = { λ r. record {
      longest = r.longest;
      depth = r.buffers.limit;
      number = r.number;
      text = r.text.items;
    } };
}

impl<A: Allocator + Copy> Records<A> {
    /// Returns the memory for lines of at most `longest` bytes, whose documents have at most
    /// `max_depth` levels. No later line of at most a MiB takes more.
    ///
    /// Returns an error if an allocation fails.
    pub fn new(a: A, longest: usize, max_depth: usize) -> simd_json::Result<Records<A>>
        ensures { IfOk result (λ records. records
            ≡ record { longest = longest; depth = max_depth; number = 0; text = [] }) }
    {
        Records::with_memory(a, longest, max_depth, longest.min(RESERVED))
    }

    /// The same, with the memory for each line that is not too long: none takes more.
    ///
    /// Returns an error if an allocation fails.
    pub fn reserved(a: A, longest: usize, max_depth: usize) -> simd_json::Result<Records<A>>
        ensures { IfOk result (λ records. records
            ≡ record { longest = longest; depth = max_depth; number = 0; text = [] }) }
    {
        Records::with_memory(a, longest, max_depth, longest)
    }

    // With the memory for lines of at most so many bytes.
    fn with_memory(
        a: A,
        longest: usize,
        max_depth: usize,
        reserved: usize,
    ) -> simd_json::Result<Records<A>>
        ensures { IfOk result (λ records. records
            ≡ record { longest = longest; depth = max_depth; number = 0; text = [] }) }
    {
        let mut buffers = Buffers::empty(a, max_depth);
        let mut tape = Tape::null(a)?;
        reserve(reserved, &mut buffers, &mut tape)?;
        Ok(Records {
            longest,
            number: 0,
            text: Vec::with_capacity(a, reserved.saturating_add(1))?,
            buffers,
            tape,
        })
    }

    /// Returns how many texts there are so far.
    pub fn number(&self) -> u64
        ensures { result ≡ self.now.number }
    {
        self.number
    }

    /// Returns the last text, as it was before its parse.
    pub fn text(&self) -> &[u8]
        ensures { result.now ≡ self.now.text }
    {
        self.text.as_slice()
    }

    /// Counts from 1 on again.
    pub fn restart(&mut self)
        ensures { self.new ≡ record self.old { number = 0 } }
    {
        self.number = 0;
    }

    /// Counts a line, and parses it if it is neither too long nor blank. Of one that is too long,
    /// the first bytes are enough: one more than it may have.
    ///
    /// Returns an error if an allocation fails.
    pub fn next<'input>(&mut self, line: &'input mut [u8]) -> Result<Record<'input, A>, AllocError>
        ensures { IfOk result (Reads self.old self.new line.old
            (outcome_of_line self.old.longest self.old.depth line.old)) }
    {
        self.count(line)?;
        if line.len() > self.longest {
            return Ok(Record::Rejected(None));
        } else if is_blank(line) {
            return Ok(Record::Blank);
        }
        self.parse(line)
    }

    /// Counts a text that is to be one document, of any length, and parses it.
    ///
    /// Returns an error if an allocation fails.
    pub fn next_document<'input>(
        &mut self,
        text: &'input mut [u8],
    ) -> Result<Record<'input, A>, AllocError>
        ensures { IfOk result (Reads self.old self.new text.old
            (outcome_of_text self.old.depth text.old)) }
    {
        self.count(text)?;
        self.parse(text)
    }

    /// Takes a tape back, so that later texts are parsed in its memory.
    pub fn keep(&mut self, tape: Tape<'_, A>)
        ensures { self.new ≡ self.old }
    {
        drop(mem::replace(&mut self.tape, tape.reset()));
    }

    fn count(&mut self, text: &[u8]) -> Result<(), AllocError>
        ensures { OnOk result (self.new
            ≡ record self.old { number = one_more self.old.number; text = text.now }) }
    {
        self.number = self.number.saturating_add(1);
        self.text.clear();
        self.text.extend_from_slice(text)
    }

    fn parse<'input>(&mut self, text: &'input mut [u8]) -> Result<Record<'input, A>, AllocError>
        ensures { IfOk result (λ read. (self.new ≡ self.old)
            × IsTaken self.old.depth (outcome_of_text self.old.depth text.old) read) }
    {
        let kept = mem::replace(&mut self.tape, Tape::empty(*self.text.allocator()));
        let (parsed, tape) = refill_tape(text, &mut self.buffers, kept);
        let Err(e) = parsed else {
            return Ok(Record::Value(tape));
        };
        self.keep(tape);
        if *e.error() == ErrorType::OutOfMemory {
            return Err(AllocError);
        }
        Ok(Record::Rejected(Some(e)))
    }
}
