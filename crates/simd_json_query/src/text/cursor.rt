//! A text from which characters are read at the front.
ghost use Rattle.std.specs.Prelude.{◌≡◌, ◌<◌, ◌≤◌, ◌++◌, [], length, encode_utf8};
ghost use Rattle.std.specs.Prelude.{IfSome, MatchOption};
ghost use Rattle.simd_json_parts.specs.Bytes.{is_whitespace};
ghost use Rattle.simd_json_query.specs.Steps.{Blanks};
ghost use Rattle.simd_json_query.specs.Spans.{Mark};

use crate::text::{PathError, PathExpected};
use std::alloc::{AllocError, AllocFailed};

// Where reading stopped: how many bytes were left, and what was expected.
#[derive(Clone, Copy, Debug, Drop)]
pub(super) struct Stop {
    pub(super) left: usize,
    pub(super) expected: PathExpected,
}

impl From<AllocError> for Stop {
    fn from(_: AllocError) -> Stop {
        Stop {
            left: 0,
            expected: PathExpected::Memory,
        }
    }
}

impl<T: Drop> From<AllocFailed<T>> for Stop {
    fn from(_: AllocFailed<T>) -> Stop {
        Stop {
            left: 0,
            expected: PathExpected::Memory,
        }
    }
}

impl Stop {
    // The error in the text that was read.
    pub(super) fn in_text(self, text: &str) -> PathError
        ensures { result.index ≤ length text.now }
    {
        PathError {
            index: text.len().saturating_sub(self.left),
            expected: self.expected,
        }
    }

    pub(super) fn at(rest: &str, expected: PathExpected) -> Stop {
        Stop {
            left: rest.len(),
            expected,
        }
    }
}

// The first character, and what is after it.
#[tactic(auto, using(crate::proofs::Shorter::behind_shorter))]
pub(super) fn next(rest: &str) -> Option<(char, &str)>
    ensures character { MatchOption result (rest.now ≡ [])
        (λ r. rest.now ≡ encode_utf8 r.0 ++ r.1.now) }
    ensures shorter { IfSome result (λ r. length r.1.now < length rest.now) }
{
    let mut chars = rest.chars();
    let first = chars.next()?;
    Some((first, chars.as_str()))
}

// What is after a character, if it is the first.
pub(super) fn after(rest: &str, mark: char) -> Option<&str>
    ensures mark { IfSome result (λ r. Mark mark rest.now r.now) }
    ensures shorter { IfSome result (λ r. length r.now < length rest.now) }
{
    let (first, others) = next(rest)?;
    if first == mark { Some(others) } else { None }
}

// What is after these characters, if the text begins with them.
pub(super) fn word<'t>(rest: &'t str, characters: &str) -> Option<&'t str>
    ensures word { IfSome result (λ r. rest.now ≡ characters.now ++ r.now) }
    ensures shorter { IfSome result (λ r. length r.now ≤ length rest.now) }
{
    rest.strip_prefix(characters)
}

// What is after the blanks at the front.
pub(super) fn skip_blanks(rest: &str) -> &str
    ensures blanks { Blanks rest.now result.now }
    ensures shorter { length result.now ≤ length rest.now }
{
    let mut left = rest;
    'blanks: while let Some((first, others)) = next(left) {
        if !is_blank(first) {
            return left;
        }
        left = others;
    }
    left
}

// A blank (section 2.1.1).
fn is_blank(c: char) -> bool
    ensures { result ≡ is_whitespace c }
{
    matches!(c, ' ' | '\t' | '\n' | '\r')
}
