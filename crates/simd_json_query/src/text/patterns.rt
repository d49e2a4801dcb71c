//! Calls of `match` and `search` (RFC 9535, sections 2.4.6 and 2.4.7).
ghost use Rattle.std.specs.Prelude.{◌≤◌, length, IfOk, IfSome};
ghost use Rattle.simd_json_query.specs.Filters.{Arguments, IsPatternOf, MatcherText, MatchesText};

use crate::filter::{Comparable, Matcher};
use crate::text::PathExpected;
use crate::text::comparables::{closed, comparable};
use crate::text::cursor::{Stop, after, skip_blanks, word};
use crate::text::strings::quoted;
use bumpalo::Bump;
use simd_json_regexp::{MAX_NODES, Node, Pattern, PatternError};
use std::alloc::Allocator;

// The arguments of a call, if one is there, and what is after it. Calls of `length` may be nested
// so deep in it.
pub(super) fn matches<'path, 't, A: Allocator>(
    arena: &'path Bump<A>,
    rest: &'t str,
    nesting: usize,
) -> Result<Option<(Comparable<'path>, Matcher<'path>, &'t str)>, Stop>
    ensures call { IfOk result (λ found. IfSome found (λ r. MatchesText r.0 r.1 rest.now r.2.now)) }
    ensures shorter { IfOk result (λ found. IfSome found (λ r. length r.2.now ≤ length rest.now)) }
{
    if let Some(others) = word(rest, "match(") {
        return Ok(Some(arguments(arena, others, false, nesting)?));
    }
    if let Some(others) = word(rest, "search(") {
        return Ok(Some(arguments(arena, others, true, nesting)?));
    }
    Ok(None)
}

// The same after the `(`.
fn arguments<'path, 't, A: Allocator>(
    arena: &'path Bump<A>,
    rest: &'t str,
    is_search: bool,
    nesting: usize,
) -> Result<(Comparable<'path>, Matcher<'path>, &'t str), Stop>
    ensures arguments { IfOk result (λ r. Arguments is_search r.0 r.1 rest.now r.2.now) }
    ensures shorter { IfOk result (λ r. length r.2.now ≤ length rest.now) }
{
    let begin = skip_blanks(rest);
    let (text, others) = comparable(arena, begin, PathExpected::Comparable, nesting)?;
    let end = skip_blanks(others);
    let Some(behind) = after(end, ',') else {
        return Err(Stop::at(end, PathExpected::Comma));
    };
    let (matcher, behind) = matcher(arena, skip_blanks(behind), is_search, nesting)?;
    Ok((text, matcher, closed(behind)?))
}

// The second argument, and what is after it.
fn matcher<'path, 't, A: Allocator>(
    arena: &'path Bump<A>,
    rest: &'t str,
    is_search: bool,
    nesting: usize,
) -> Result<(Matcher<'path>, &'t str), Stop>
    ensures matcher { IfOk result (λ r. MatcherText is_search r.0 rest.now r.1.now) }
    ensures shorter { IfOk result (λ r. length r.1.now ≤ length rest.now) }
{
    if let Some((string, others)) = quoted(arena, rest)? {
        let Some(pattern) = literal(arena, string, is_search)? else {
            return Err(Stop::at(rest, PathExpected::SmallerPattern));
        };
        return Ok((Matcher::Literal(pattern), others));
    }
    let (value, others) = comparable(arena, rest, PathExpected::Comparable, nesting)?;
    if is_search {
        return Ok((Matcher::Search(value), others));
    }
    Ok((Matcher::Match(value), others))
}

// The pattern of a literal, unless it is beyond a limit.
fn literal<'path, A: Allocator>(
    arena: &'path Bump<A>,
    string: &str,
    is_search: bool,
) -> Result<Option<Pattern<'path>>, Stop>
    ensures { IfOk result (λ found. IfSome found (λ p. IsPatternOf is_search p string.now)) }
{
    let mut memory = [Node::EMPTY; MAX_NODES];
    let read = if is_search {
        Pattern::within(string, &mut memory)
    } else {
        Pattern::new(string, &mut memory)
    };
    match read {
        Ok(pattern) => {
            let nodes = arena.try_alloc_slice_copy(pattern.nodes())?;
            Ok(Some(pattern.with_nodes(nodes)))
        }
        Err(PatternError::NoPattern) => Ok(Some(Pattern::never())),
        Err(PatternError::TooLarge) => Ok(None),
    }
}
