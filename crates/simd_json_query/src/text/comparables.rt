//! What a filter compares (RFC 9535, sections 2.3.5.1 and 2.4).
ghost use Rattle.std.specs.Prelude.{◌≤◌, length, IfOk, IfSome};
ghost use Rattle.simd_json_query.specs.Filters.{ComparableText, QueryText};
ghost use Rattle.simd_json_query.specs.Filters.{right_parenthesis};
ghost use Rattle.simd_json_query.specs.Spans.{◌then◌, Mark};
ghost use Rattle.simd_json_query.specs.Steps.{Blanks};

use crate::filter::{Comparable, Query};
use crate::text::PathExpected;
use crate::text::cursor::{Stop, after, skip_blanks, word};
use crate::text::literals::literal;
use crate::text::queries::{query, singular};
use bumpalo::Bump;
use std::alloc::Allocator;

// What is compared, and what is after it; `expected` is what the text lacks where it is none. Calls
// may be nested so deep.
pub(super) fn comparable<'path, 't, A: Allocator>(
    arena: &'path Bump<A>,
    rest: &'t str,
    expected: PathExpected,
    nesting: usize,
) -> Result<(Comparable<'path>, &'t str), Stop>
    ensures comparable { IfOk result (λ r. ComparableText r.0 rest.now r.1.now) }
    ensures shorter { IfOk result (λ r. length r.1.now ≤ length rest.now) }
{
    if let Some(others) = word(rest, "length(") {
        if nesting == 0 {
            return Err(Stop::at(rest, PathExpected::LessNesting));
        }
        let begin = skip_blanks(others);
        let (inner, end) = comparable(arena, begin, PathExpected::Comparable, nesting - 1)?;
        let inner = arena.try_alloc(inner)?;
        return Ok((Comparable::Length(inner), closed(end)?));
    }
    if let Some(others) = word(rest, "count(") {
        let (query, others) = argument(arena, others)?;
        return Ok((Comparable::Count(query), others));
    }
    if let Some(others) = word(rest, "value(") {
        let (query, others) = argument(arena, others)?;
        return Ok((Comparable::Value(query), others));
    }
    if let Some((query, others)) = singular(arena, rest)? {
        return Ok((Comparable::Query(query), others));
    }
    if let Some((literal, others)) = literal(arena, rest)? {
        return Ok((Comparable::Literal(literal), others));
    }
    Err(Stop::at(rest, expected))
}

// A query and the `)` of a call.
fn argument<'path, 't, A: Allocator>(
    arena: &'path Bump<A>,
    rest: &'t str,
) -> Result<(Query<'path>, &'t str), Stop>
    ensures argument { IfOk result (λ r. (Blanks then QueryText r.0
        then Blanks then Mark right_parenthesis) rest.now r.1.now) }
    ensures shorter { IfOk result (λ r. length r.1.now ≤ length rest.now) }
{
    let begin = skip_blanks(rest);
    match query(arena, begin)? {
        Some((query, end)) => Ok((query, closed(end)?)),
        None => Err(Stop::at(begin, PathExpected::Query)),
    }
}

// What is after a `)`.
pub(super) fn closed(rest: &str) -> Result<&str, Stop>
    ensures closed { IfOk result (λ r. (Blanks then Mark right_parenthesis) rest.now r.now) }
    ensures shorter { IfOk result (λ r. length r.now ≤ length rest.now) }
{
    let end = skip_blanks(rest);
    match after(end, ')') {
        Some(others) => Ok(others),
        None => Err(Stop::at(end, PathExpected::Parenthesis)),
    }
}
