//! The segments of a whole query (RFC 9535, section 2.5).
ghost use Rattle.std.specs.Prelude.{◌≤◌, Bool, List, ℕ, length, IfOk};
ghost use Rattle.simd_json_query.specs.Queries.{PathSegment, PathSegments};
ghost use Rattle.simd_json_query.specs.Segments.{Opening};

use crate::query::{Choice, Segment, Selector};
use crate::text::cursor::{Stop, skip_blanks};
use crate::text::openings::opening;
use crate::text::selectors::selection;
use crate::text::steps::steps;
use bumpalo::Bump;
use bumpalo::collections::into_bump_slice;
use std::alloc::Allocator;

// The segments that come first, and what is after them.
pub(super) fn segments<'path, 't, A: Allocator>(
    arena: &'path Bump<A>,
    rest: &'t str,
) -> Result<(&'path [Segment<'path, Selector<'path>>], &'t str), Stop>
    ensures segments { IfOk result (λ r. PathSegments r.0.now rest.now r.1.now) }
    ensures shorter { IfOk result (λ r. length r.1.now ≤ length rest.now) }
{
    let mut segments = Vec::new(arena);
    let mut left = rest;
    'segments: while let Some((is_descendant, member, begin)) = opening(arena, skip_blanks(left))? {
        let (selectors, others) = held(arena, member, begin)?;
        let (steps, behind) = steps(arena, others)?;
        segments.push(Segment {
            selectors,
            is_descendant,
            steps,
        })?;
        left = behind;
    }
    Ok((into_bump_slice(segments), left))
}

// The selectors of a segment: its member, or those up to `]`.
fn held<'path, 't, A: Allocator>(
    arena: &'path Bump<A>,
    member: Option<Choice<'path>>,
    rest: &'t str,
) -> Result<(&'path [Selector<'path>], &'t str), Stop>
    ensures held { IfOk result (λ r. (is_descendant : Bool) (text : List ℕ)
        → Opening is_descendant member.entry text rest.now
        → PathSegment is_descendant r.0.now text r.1.now) }
    ensures shorter { IfOk result (λ r. length r.1.now ≤ length rest.now) }
{
    match member {
        Some(choice) => {
            let selectors = [Selector::Choice(choice)];
            Ok((arena.try_alloc_slice_copy(&selectors)?, rest))
        }
        None => selection(arena, rest),
    }
}
