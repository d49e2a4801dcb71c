//! Where an input is wrong and why, for people.
ghost use Rattle.std.specs.Prelude.{◌≡◌, ◌≤◌, length, IfOk, OnErr};
ghost use Rattle.simd_json_check.specs.Checkers.{KeepsChecker};
ghost use Rattle.simd_json_check.specs.Reasons.{found_in, location_in, location_of, shown_byte};
ghost use Rattle.simd_json_parts.specs.Limits.{max_length};

mod context;
mod display;
mod opening;
mod place;
mod reason;
mod scan;

use crate::check::Checker;
use context::reason_for;
pub use display::{Message, ShownKind};
use opening::opening_of;
pub use opening::{Opened, Opening};
use place::{byte_of, column, file_line, line};
pub use reason::Reason;
use scan::next_position;
use simd_json_parts::error::{Error, ErrorType};
use std::alloc::{AllocError, Allocator};

/// An error, and for people where it is in the input and why: a line and a column for an editor,
/// and a [`Reason`] with the [`Opening`] of what is open there. It prints as
/// `1:10: a line feed in the string that begins at 1:7`.
#[derive(Debug, Drop, PartialEq, Eq)]
pub struct Location {
    error: Error,
    byte: usize,
    line: usize,
    column: usize,
    reason: Reason,
    opening: Option<Opening>,
}

impl Location {
    /// Finds where in the input an error of its parse is, and why it was rejected. `input` holds
    /// the bytes as they were before the parse, which may have decoded strings in place. Allocates
    /// nothing.
    ///
    /// An error with a character is at its index, but for more text after the document: a parse
    /// names the document's last token then, and the place is the first byte of that text. For an
    /// error of the whole input the place is found by a scan:
    ///
    /// - `InvalidUtf8`: the first byte that begins no UTF-8 character (RFC 3629)
    /// - `Syntax`: the first control byte inside a string, or the opening quote of the string that
    ///   is left open (RFC 8259, section 7), whichever comes first
    /// - `Eof`: the end of the input
    /// - `InputTooLarge`: the first byte too many
    ///
    /// ```
    /// use simd_json_check::{Checker, DEFAULT_MAX_DEPTH, Location};
    ///
    /// fn line_of_error(rt: &impl AllocGlobal) -> Option<usize> {
    ///     let input = b"[1,\n2,]";
    ///     let mut checker = Checker::empty(rt.alloc());
    ///     let error = checker.check(input, DEFAULT_MAX_DEPTH).err()?;
    ///     Some(Location::new(input, error).line())
    /// }
    /// ```
    #[tactic(auto, unfolding(crate::specs::Reasons::location_of))]
    pub fn new(input: &[u8], error: Error) -> Location
        ensures { result ≡ location_of input.now error }
    {
        let reason = reason_for(input, &error);
        let byte = shown_byte(input, &error, reason);
        Location {
            error,
            byte,
            line: line(input, byte),
            column: column(input, byte),
            reason,
            opening: opening_of(input, byte, reason),
        }
    }

    /// The location in a file of which the input begins in line `first`: all lines are those of the
    /// file, as far as 64 bits hold them.
    pub fn in_file(self, first: usize) -> Location
        ensures { result ≡ location_in first self }
    {
        Location {
            line: file_line(first, self.line),
            opening: self.opening.map(|opening| opening.in_file(first)),
            ..self
        }
    }

    /// The error as the parse returned it.
    pub fn error(&self) -> &Error
        ensures { result.now ≡ self.now.error }
    {
        &self.error
    }

    /// What prints the kind of the error as people are shown it. A parse has two for more text
    /// after the document, by what its root is; both print as `TrailingData`.
    pub fn kind(&self) -> ShownKind<'_>
        ensures { result.location.now ≡ self.now }
    {
        ShownKind { location: self }
    }

    /// The byte offset of the place.
    pub fn byte(&self) -> usize
        ensures { result ≡ self.now.byte }
    {
        self.byte
    }

    /// The line of the place: from 1, by line feeds.
    pub fn line(&self) -> usize
        ensures { result ≡ self.now.line }
    {
        self.line
    }

    /// The column of the place: from 1, in characters.
    pub fn column(&self) -> usize
        ensures { result ≡ self.now.column }
    {
        self.column
    }

    /// Why the input is rejected.
    pub fn reason(&self) -> Reason
        ensures { result ≡ self.now.reason }
    {
        self.reason
    }

    /// What is open at the place, if the reason is a control character or the end of the input.
    pub fn opening(&self) -> Option<Opening>
        ensures { result ≡ self.now.opening }
    {
        self.opening
    }

    /// The reason in words, with what is open there.
    pub fn message(&self) -> Message
        ensures reason { result.reason ≡ self.now.reason }
        ensures opening { result.opening ≡ self.now.opening }
    {
        Message {
            reason: self.reason,
            opening: self.opening,
        }
    }
}

// The byte that is shown of an error with this reason.
fn shown_byte(input: &[u8], error: &Error, reason: Reason) -> usize
    ensures { result ≡ shown_byte input.now error.now reason }
{
    match reason {
        Reason::MoreText => next_position(input, error.index()),
        _ => byte_of(input, error),
    }
}

impl<A: Allocator> Checker<A> {
    /// Checks whether the bytes are one document, as [`check`](Checker::check) does, and finds the
    /// place of the error if not. Returns `None` if they are, otherwise the location of the error.
    ///
    /// Returns `AllocError` if an allocation fails. So `OutOfMemory` is never the error of a
    /// location.
    #[tactic(auto, using(crate::proofs::Whole::size_right))]
    pub fn locate(&mut self, input: &[u8], max_depth: usize) -> Result<Option<Location>, AllocError>
        ensures found { IfOk result (λ found. found ≡ found_in input.now max_depth) }
        ensures size { OnErr result (length input.now ≤ max_length) }
        ensures kept { KeepsChecker self.old self.new }
    {
        match self.check(input, max_depth).err() {
            None => Ok(None),
            Some(e) if *e.error() == ErrorType::OutOfMemory => Err(AllocError),
            Some(e) => Ok(Some(Location::new(input, e))),
        }
    }
}

/// Checks one input, and finds the place of its error, as [`Checker::locate`] does, over memory of
/// its own.
///
/// `input` holds the bytes as they were before a parse. A caller who has parsed the bytes already
/// has the error, and needs only [`Location::new`].
///
/// ```
/// use simd_json_check::locate;
/// use std::alloc::AllocError;
///
/// fn line_of_error(rt: &impl AllocGlobal) -> Result<Option<usize>, AllocError> {
///     let location = locate(rt.alloc(), b"[1,\n2,]", 1024)?;
///     Ok(location.map(|location| location.line()))
/// }
/// ```
pub fn locate<A: Allocator + Copy>(
    alloc: A,
    input: &[u8],
    max_depth: usize,
) -> Result<Option<Location>, AllocError>
    ensures found { IfOk result (λ found. found ≡ found_in input.now max_depth) }
    ensures size { OnErr result (length input.now ≤ max_length) }
{
    Checker::empty(alloc).locate(input, max_depth)
}
