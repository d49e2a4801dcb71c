//! Comparisons, and queries whose existence is tested (RFC 9535, section 2.3.5.1).
ghost use Rattle.std.specs.Prelude.{◌≤◌, List, ℕ, length, IfOk, IfSome};
ghost use Rattle.simd_json_query.specs.Filters.{Basic, ComparableText, Nested, OperatorText};
ghost use Rattle.simd_json_query.specs.Filters.{SingularText};
ghost use Rattle.simd_json_query.specs.Spans.{◌then◌};
ghost use Rattle.simd_json_query.specs.Steps.{Blanks};

use crate::filter::{Comparable, Comparison, SingularQuery, Test};
use crate::text::PathExpected;
use crate::text::comparables::comparable;
use crate::text::cursor::{Stop, skip_blanks, word};
use crate::text::queries::{from, start};
use bumpalo::Bump;
use std::alloc::Allocator;

// A comparison, or a query.
pub(super) fn compared<'path, 't, A: Allocator>(
    arena: &'path Bump<A>,
    rest: &'t str,
    nesting: usize,
) -> Result<(Test<'path>, &'t str), Stop>
    ensures test { IfOk result (λ r. Basic (Nested nesting) r.0 rest.now r.1.now) }
    ensures shorter { IfOk result (λ r. length r.1.now ≤ length rest.now) }
{
    if let Some((start, others)) = start(arena, rest)? {
        return queried(arena, start, others, nesting);
    }
    let (left, others) = comparable(arena, rest, PathExpected::Test, nesting)?;
    let end = skip_blanks(others);
    match operator(end) {
        Some((comparison, behind)) => compared_to(arena, left, comparison, behind, nesting),
        None => Err(Stop::at(end, PathExpected::Comparison)),
    }
}

// A comparison, or a query, from the start of a query on.
fn queried<'path, 't, A: Allocator>(
    arena: &'path Bump<A>,
    start: SingularQuery<'path>,
    rest: &'t str,
    nesting: usize,
) -> Result<(Test<'path>, &'t str), Stop>
    ensures test { IfOk result (λ r. (text : List ℕ) → SingularText start.entry text rest.now
        → Basic (Nested nesting) r.0 text r.1.now) }
    ensures shorter { IfOk result (λ r. length r.1.now ≤ length rest.now) }
{
    let (query, others) = from(arena, start, rest)?;
    let Some((comparison, behind)) = operator(skip_blanks(others)) else {
        return Ok((Test::Exists(query), others));
    };
    if !query.segments.is_empty() {
        return Err(Stop::at(skip_blanks(rest), PathExpected::SingularQuery));
    }
    compared_to(
        arena,
        Comparable::Query(query.start),
        comparison,
        behind,
        nesting,
    )
}

// The comparison with what is at the right of an operator, and what is after it.
fn compared_to<'path, 't, A: Allocator>(
    arena: &'path Bump<A>,
    left: Comparable<'path>,
    comparison: Comparison,
    rest: &'t str,
    nesting: usize,
) -> Result<(Test<'path>, &'t str), Stop>
    ensures test { IfOk result (λ r. (text : List ℕ)
        → (ComparableText left.entry then Blanks then OperatorText comparison) text rest.now
        → Basic (Nested nesting) r.0 text r.1.now) }
    ensures shorter { IfOk result (λ r. length r.1.now ≤ length rest.now) }
{
    let begin = skip_blanks(rest);
    let (right, others) = comparable(arena, begin, PathExpected::Comparable, nesting)?;
    Ok((Test::Compare(left, comparison, right), others))
}

// The operator of a comparison, and what is after it.
fn operator(rest: &str) -> Option<(Comparison, &str)>
    ensures operator { IfSome result (λ r. OperatorText r.0 rest.now r.1.now) }
    ensures shorter { IfSome result (λ r. length r.1.now ≤ length rest.now) }
{
    if let Some(others) = word(rest, "==") {
        return Some((Comparison::Equal, others));
    }
    if let Some(others) = word(rest, "!=") {
        return Some((Comparison::NotEqual, others));
    }
    if let Some(others) = word(rest, "<=") {
        return Some((Comparison::LessOrEqual, others));
    }
    if let Some(others) = word(rest, ">=") {
        return Some((Comparison::GreaterOrEqual, others));
    }
    if let Some(others) = word(rest, "<") {
        return Some((Comparison::Less, others));
    }
    let others = word(rest, ">")?;
    Some((Comparison::Greater, others))
}
