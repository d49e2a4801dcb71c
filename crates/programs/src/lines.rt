//! The lines of a reader, one after another, in memory that does not depend on their number.
ghost use Rattle.std.specs.Prelude.{◌≡◌, [], false, true, Ok, IfOk, IsTrue, IsFalse};
ghost use Rattle.programs.specs.Failures.{EndsRead};
ghost use Rattle.programs.specs.Lines.{Fills, IsBetween, Moves, Takes, begun_of};

use crate::channel::Channel;
use crate::failure::Failure;
use memchr::memchr;
use std::alloc::{AllocError, Allocator};
use std::io::Read;
use std::marker::Model;

// How many bytes are read at a time.
const BLOCK: usize = 65_536;

/// What the next bytes of an input are.
#[derive(Clone, Copy, Debug, PartialEq, Eq)]
pub enum Event {
    /// The end of a line.
    Line,
    /// All that was read: more of the line, or the next one, has to be read.
    Block,
    /// None: the input has ended, and its last line with it.
    End,
}

/// Cuts what a reader gives into lines. Of a line that is longer than it may be it keeps the first
/// bytes, one more than it may have.
#[derive(Drop)]
pub struct Lines {
    longest: usize,
    // whether the line that was read last has ended
    has_ended: bool,
    block: [u8; BLOCK],
    // where in the block the bytes that are not taken yet begin and end
    start: usize,
    end: usize,
}

impl Model for Lines {
    ghost use Rattle.std.specs.Prelude.{◌≤◌, drop, take};
    ghost use Rattle.programs.specs.Lines.{Cut};

    ghost Value = { Cut };

    ghost view = { λ l. record {
      longest = l.longest;
      has_ended = l.has_ended;
      unread = drop l.start (take l.end l.block);
    } };

    ghost invariant = { λ l. (l.start ≤ l.end) × (l.end ≤ 65_536) };
}

impl Lines {
    /// The lines of a reader of which nothing is read yet, with at most `longest` bytes each.
    pub fn new(longest: usize) -> Lines
        ensures { result ≡ record { longest = longest; has_ended = true; unread = [] } }
    {
        Lines {
            longest,
            has_ended: true,
            block: [0; BLOCK],
            start: 0,
            end: 0,
        }
    }

    /// Goes on to the next end of a line, or else to the end of what was read. Of the line that has
    /// begun the bytes are in `line`, which may be overwritten after a `Line`. It reads at most
    /// once, where nothing is left of what was read before, and not where a line ended there: then
    /// it returns `Block` first, since a reader may wait for more.
    ///
    /// Fails with `Read` if reading fails, and with `Resources` if an allocation does: a line takes
    /// a capacity of one byte more than it may have.
    pub fn next<R: Read, A: Allocator>(
        &mut self,
        reader: &mut Channel<R>,
        line: &mut Vec<u8, A>,
    ) -> Result<Event, Failure>
        requires { reader.old.failed ≡ false }
        ensures moves { EndsRead reader.new.failed (R.remaining reader.old.inner)
            (R.remaining reader.new.inner)
            (Moves self.old self.new line.old.items line.new.items
            (R.remaining reader.old.inner) (R.remaining reader.new.inner)) result }
        ensures waits { IsBetween self.old
            → (result ≡ Ok Event.Block) × (reader.new ≡ reader.old) }
    {
        let is_between = self.is_between();
        self.begin(line);
        if is_between {
            return Ok(Event::Block);
        }
        if !self.fill(reader)? {
            return Ok(Event::End);
        }
        if self.take(line)? {
            return Ok(Event::Line);
        }
        Ok(Event::Block)
    }

    // Whether a line has ended, and nothing is left of what was read.
    fn is_between(&self) -> bool
        ensures yes { IsTrue result → IsBetween self.now }
        ensures no { IsFalse result → IsBetween self.now → ⊥ }
    {
        self.has_ended && self.start == self.end
    }

    // Lets a line go that has ended.
    fn begin<A: Allocator>(&mut self, line: &mut Vec<u8, A>)
        ensures cut { self.new ≡ record self.old { has_ended = false } }
        ensures line { line.new.items ≡ begun_of self.old line.old.items }
    {
        if self.has_ended {
            line.clear();
            self.has_ended = false;
        }
    }

    // Reads, where nothing is left of what was read before, and returns whether anything is now.
    fn fill<R: Read>(&mut self, reader: &mut Channel<R>) -> Result<bool, Failure>
        requires { reader.old.failed ≡ false }
        ensures { EndsRead reader.new.failed (R.remaining reader.old.inner)
            (R.remaining reader.new.inner)
            (Fills self.old self.new (R.remaining reader.old.inner)
            (R.remaining reader.new.inner)) result }
    {
        if self.start < self.end {
            return Ok(true);
        }
        let count = reader.read(&mut self.block).map_err(|_| Failure::Read)?;
        self.start = 0;
        self.end = count;
        Ok(count > 0)
    }

    // Takes the bytes up to a line feed, and that, or all, and returns whether a line has ended.
    fn take<A: Allocator>(&mut self, line: &mut Vec<u8, A>) -> Result<bool, AllocError>
        ensures { IfOk result (Takes self.old self.new line.old.items line.new.items) }
    {
        let unread = &self.block[self.start..self.end];
        let found = memchr(b'\n', unread);
        let front = &unread[..found.unwrap_or(unread.len())];
        let room = self.longest.saturating_add(1).saturating_sub(line.len());
        line.extend_from_slice(&front[..front.len().min(room)])?;
        let Some(count) = found else {
            self.has_ended = false;
            self.start = self.end;
            return Ok(false);
        };
        self.has_ended = true;
        self.start += count + 1;
        Ok(true)
    }
}
