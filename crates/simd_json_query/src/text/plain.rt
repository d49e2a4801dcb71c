//! The segments of a filter's query, which hold no filter (RFC 9535, section 2.5).
//!
//! They are read as in `segments` and `selectors`, over another type: a trait of both types, with a
//! method that reads into the arena, gets no proof.
ghost use Rattle.std.specs.Prelude.{◌≤◌, Bool, List, ℕ, length, IfOk};
ghost use Rattle.simd_json_parts.specs.Bytes.{left_bracket};
ghost use Rattle.simd_json_query.specs.Choices.{ChoiceText};
ghost use Rattle.simd_json_query.specs.Filters.{PlainSegment, PlainSegments};
ghost use Rattle.simd_json_query.specs.Segments.{Opening, Selection};
ghost use Rattle.simd_json_query.specs.Spans.{Mark};

use crate::query::{Choice, Segment};
use crate::text::PathExpected;
use crate::text::choices::choice;
use crate::text::cursor::{Stop, after, skip_blanks};
use crate::text::openings::opening;
use crate::text::steps::steps;
use bumpalo::Bump;
use bumpalo::collections::into_bump_slice;
use std::alloc::Allocator;

// The segments that come first, and what is after them.
pub(super) fn segments<'path, 't, A: Allocator>(
    arena: &'path Bump<A>,
    rest: &'t str,
) -> Result<(&'path [Segment<'path, Choice<'path>>], &'t str), Stop>
    ensures segments { IfOk result (λ r. PlainSegments r.0.now rest.now r.1.now) }
    ensures shorter { IfOk result (λ r. length r.1.now ≤ length rest.now) }
{
    let mut segments = Vec::new(arena);
    let mut left = rest;
    'segments: while let Some((is_descendant, member, begin)) = opening(arena, skip_blanks(left))? {
        let (selectors, others) = held(arena, member, begin)?;
        let (steps, behind) = steps(arena, others)?;
        segments.push(Segment {
            selectors,
            is_descendant,
            steps,
        })?;
        left = behind;
    }
    Ok((into_bump_slice(segments), left))
}

// The selectors of a segment: its member, or those up to `]`.
fn held<'path, 't, A: Allocator>(
    arena: &'path Bump<A>,
    member: Option<Choice<'path>>,
    rest: &'t str,
) -> Result<(&'path [Choice<'path>], &'t str), Stop>
    ensures held { IfOk result (λ r. (is_descendant : Bool) (text : List ℕ)
        → Opening is_descendant member.entry text rest.now
        → PlainSegment is_descendant r.0.now text r.1.now) }
    ensures shorter { IfOk result (λ r. length r.1.now ≤ length rest.now) }
{
    match member {
        Some(choice) => {
            let selectors = [choice];
            Ok((arena.try_alloc_slice_copy(&selectors)?, rest))
        }
        None => selection(arena, rest),
    }
}

// The selectors up to `]`, and what is after that. The `[` is read.
fn selection<'path, 't, A: Allocator>(
    arena: &'path Bump<A>,
    rest: &'t str,
) -> Result<(&'path [Choice<'path>], &'t str), Stop>
    ensures selection { IfOk result (λ r. (text : List ℕ) → Mark left_bracket text rest.now
        → Selection ChoiceText r.0.now text r.1.now) }
    ensures shorter { IfOk result (λ r. length r.1.now ≤ length rest.now) }
{
    let mut selectors = Vec::new(arena);
    let begin = skip_blanks(rest);
    let (first, mut left) = selector(arena, begin)?;
    selectors.push(first)?;
    'more: loop {
        let end = skip_blanks(left);
        if let Some(others) = after(end, ']') {
            return Ok((into_bump_slice(selectors), others));
        }
        let Some(others) = after(end, ',') else {
            return Err(Stop::at(end, PathExpected::Separator));
        };
        let (next, others) = selector(arena, skip_blanks(others))?;
        selectors.push(next)?;
        left = others;
    }
}

fn selector<'path, 't, A: Allocator>(
    arena: &'path Bump<A>,
    rest: &'t str,
) -> Result<(Choice<'path>, &'t str), Stop>
    ensures selector { IfOk result (λ r. ChoiceText r.0 rest.now r.1.now) }
    ensures shorter { IfOk result (λ r. length r.1.now ≤ length rest.now) }
{
    if after(rest, '?').is_some() {
        return Err(Stop::at(rest, PathExpected::WithoutFilter));
    }
    match choice(arena, rest)? {
        Some((choice, others)) => Ok((choice, others)),
        None => Err(Stop::at(rest, PathExpected::Selector)),
    }
}
