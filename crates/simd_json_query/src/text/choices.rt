//! Selectors that are no filters (RFC 9535, sections 2.3.1 to 2.3.4).
ghost use Rattle.std.specs.Prelude.{◌≡◌, ◌≤◌, length, IfOk, IfSome};
ghost use Rattle.simd_json_query.specs.Choices.{ChoiceText, Optional, SliceStep};
ghost use Rattle.simd_json_query.specs.Steps.{Blanks};
ghost use Rattle.simd_json_query.specs.Spans.{◌then◌, Mark};

use crate::query::{Choice, Slice};
use crate::text::PathExpected;
use crate::text::cursor::{Stop, after, skip_blanks};
use crate::text::integers::{begins_integer, optional};
use crate::text::strings::quoted;
use bumpalo::Bump;
use std::alloc::Allocator;

// A choice, if one is there, and what is after it.
pub(super) fn choice<'path, 't, A: Allocator>(
    arena: &'path Bump<A>,
    rest: &'t str,
) -> Result<Option<(Choice<'path>, &'t str)>, Stop>
    ensures choice { IfOk result (λ found. IfSome found (λ r. ChoiceText r.0 rest.now r.1.now)) }
    ensures shorter { IfOk result (λ found. IfSome found (λ r. length r.1.now ≤ length rest.now)) }
{
    if let Some(others) = after(rest, '*') {
        return Ok(Some((Choice::Wildcard, others)));
    }
    if let Some((name, others)) = quoted(arena, rest)? {
        return Ok(Some((Choice::Name(name), others)));
    }
    if begins_integer(rest) || after(rest, ':').is_some() {
        return Ok(Some(index_or_slice(rest)?));
    }
    Ok(None)
}

fn index_or_slice<'path, 't>(rest: &'t str) -> Result<(Choice<'path>, &'t str), Stop>
    ensures choice { IfOk result (λ r. ChoiceText r.0 rest.now r.1.now) }
    ensures shorter { IfOk result (λ r. length r.1.now ≤ length rest.now) }
{
    let (start, others) = optional(rest)?;
    if let Some(others) = after(skip_blanks(others), ':') {
        let (slice, others) = slice(start, others)?;
        return Ok((Choice::Slice(slice), others));
    }
    match start {
        Some(index) => Ok((Choice::Index(index), others)),
        None => Err(Stop::at(rest, PathExpected::Selector)),
    }
}

// What is after the first colon of a slice.
fn slice(start: Option<i64>, rest: &str) -> Result<(Slice, &str), Stop>
    ensures start { IfOk result (λ r. r.0.start ≡ start) }
    ensures others { IfOk result (λ r.
        (Blanks then Optional r.0.end then SliceStep r.0.step) rest.now r.1.now) }
    ensures shorter { IfOk result (λ r. length r.1.now ≤ length rest.now) }
{
    let (end, others) = optional(skip_blanks(rest))?;
    let Some(behind) = after(skip_blanks(others), ':') else {
        return Ok((
            Slice {
                start,
                end,
                step: 1,
            },
            others,
        ));
    };
    let (written, last) = optional(skip_blanks(behind))?;
    match written {
        Some(step) => Ok((Slice { start, end, step }, last)),
        None => Ok((
            Slice {
                start,
                end,
                step: 1,
            },
            behind,
        )),
    }
}
