//! The queries of filters (RFC 9535, section 2.3.5.1).
ghost use Rattle.std.specs.Prelude.{◌≤◌, length, List, ℕ, IfOk, IfSome};
ghost use Rattle.simd_json_query.specs.Filters.{QueryText, SingularText};

use crate::filter::{Query, SingularQuery};
use crate::text::cursor::{Stop, after, next, skip_blanks};
use crate::text::plain::segments;
use crate::text::steps::steps;
use crate::text::{MAX_SEGMENTS, PathExpected};
use bumpalo::Bump;
use std::alloc::Allocator;

// A query, if one is there, and what is after it.
pub(super) fn query<'path, 't, A: Allocator>(
    arena: &'path Bump<A>,
    rest: &'t str,
) -> Result<Option<(Query<'path>, &'t str)>, Stop>
    ensures query { IfOk result (λ found. IfSome found (λ r. QueryText r.0 rest.now r.1.now)) }
    ensures shorter { IfOk result (λ found. IfSome found (λ r. length r.1.now ≤ length rest.now)) }
{
    match start(arena, rest)? {
        Some((start, others)) => Ok(Some(from(arena, start, others)?)),
        None => Ok(None),
    }
}

// The query from a start, and what is after it.
pub(super) fn from<'path, 't, A: Allocator>(
    arena: &'path Bump<A>,
    start: SingularQuery<'path>,
    rest: &'t str,
) -> Result<(Query<'path>, &'t str), Stop>
    ensures query { IfOk result (λ r. (text : List ℕ) → SingularText start.entry text rest.now
        → QueryText r.0 text r.1.now) }
    ensures shorter { IfOk result (λ r. length r.1.now ≤ length rest.now) }
{
    let (segments, others) = segments(arena, rest)?;
    if segments.len() > MAX_SEGMENTS {
        return Err(Stop::at(skip_blanks(rest), PathExpected::FewerSegments));
    }
    Ok((Query { start, segments }, others))
}

// A query of one node, if one is there, and what is after it.
pub(super) fn singular<'path, 't, A: Allocator>(
    arena: &'path Bump<A>,
    rest: &'t str,
) -> Result<Option<(SingularQuery<'path>, &'t str)>, Stop>
    ensures query { IfOk result (λ found. IfSome found (λ r. SingularText r.0 rest.now r.1.now)) }
    ensures shorter { IfOk result (λ found. IfSome found (λ r. length r.1.now ≤ length rest.now)) }
{
    let Some((query, others)) = start(arena, rest)? else {
        return Ok(None);
    };
    let end = skip_blanks(others);
    match next(end) {
        Some(('.' | '[', _)) => Err(Stop::at(end, PathExpected::SingularQuery)),
        _ => Ok(Some((query, others))),
    }
}

// Where a query begins, with the steps that come first, if one is there, and what is after them.
pub(super) fn start<'path, 't, A: Allocator>(
    arena: &'path Bump<A>,
    rest: &'t str,
) -> Result<Option<(SingularQuery<'path>, &'t str)>, Stop>
    ensures start { IfOk result (λ found. IfSome found (λ r. SingularText r.0 rest.now r.1.now)) }
    ensures shorter { IfOk result (λ found. IfSome found (λ r. length r.1.now ≤ length rest.now)) }
{
    if let Some(others) = after(rest, '@') {
        let (steps, end) = steps(arena, others)?;
        return Ok(Some((SingularQuery::Relative(steps), end)));
    }
    if let Some(others) = after(rest, '$') {
        let (steps, end) = steps(arena, others)?;
        return Ok(Some((SingularQuery::Absolute(steps), end)));
    }
    Ok(None)
}
