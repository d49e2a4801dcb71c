//! How segments begin (RFC 9535, section 2.5).
ghost use Rattle.std.specs.Prelude.{◌<◌, ◌≤◌, length, IfOk, IfSome};
ghost use Rattle.simd_json_query.specs.Choices.{Shorthand};
ghost use Rattle.simd_json_query.specs.Segments.{Opening};

use crate::query::Choice;
use crate::text::PathExpected;
use crate::text::cursor::{Stop, after, next};
use crate::text::names::{begins_name, name};
use bumpalo::Bump;
use std::alloc::Allocator;

// Whether a segment is a descendant segment, its selector if that is without brackets, and what is
// after that or after `[`; if a segment is there.
pub(super) fn opening<'path, 't, A: Allocator>(
    arena: &'path Bump<A>,
    rest: &'t str,
) -> Result<Option<(bool, Option<Choice<'path>>, &'t str)>, Stop>
    ensures opening { IfOk result (λ found. IfSome found (λ r.
        Opening r.0 r.1 rest.now r.2.now)) }
    ensures shorter { IfOk result (λ found. IfSome found (λ r. length r.2.now < length rest.now)) }
{
    if let Some(others) = after(rest, '[') {
        return Ok(Some((false, None, others)));
    }
    let Some(others) = after(rest, '.') else {
        return Ok(None);
    };
    let Some(below) = after(others, '.') else {
        let (choice, behind) = shorthand(arena, others, PathExpected::Member)?;
        return Ok(Some((false, Some(choice), behind)));
    };
    if let Some(others) = after(below, '[') {
        return Ok(Some((true, None, others)));
    }
    let (choice, behind) = shorthand(arena, below, PathExpected::Descendants)?;
    Ok(Some((true, Some(choice), behind)))
}

// `*` or a name without quotes, and what is after it.
fn shorthand<'path, 't, A: Allocator>(
    arena: &'path Bump<A>,
    rest: &'t str,
    expected: PathExpected,
) -> Result<(Choice<'path>, &'t str), Stop>
    ensures choice { IfOk result (λ r. Shorthand r.0 rest.now r.1.now) }
    ensures shorter { IfOk result (λ r. length r.1.now ≤ length rest.now) }
{
    if let Some(others) = after(rest, '*') {
        return Ok((Choice::Wildcard, others));
    }
    let Some((first, others)) = next(rest) else {
        return Err(Stop::at(rest, expected));
    };
    if !begins_name(first) {
        return Err(Stop::at(rest, expected));
    }
    let (name, others) = name(arena, first, others)?;
    Ok((Choice::Name(name), others))
}
