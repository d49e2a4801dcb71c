//! Child segments of one name or one index (RFC 9535, section 2.5.1.1).
ghost use Rattle.std.specs.Prelude.{◌<◌, ◌≤◌, length, List, ℕ, IfOk, IfSome};
ghost use Rattle.simd_json_parts.specs.Bytes.{left_bracket};
ghost use Rattle.simd_json_query.specs.Spans.{Mark};
ghost use Rattle.simd_json_query.specs.Steps.{Bracketed, StepText, Steps, dot};

use crate::filter::Step;
use crate::text::cursor::{Stop, after, next, skip_blanks};
use crate::text::integers::optional;
use crate::text::names::{begins_name, name};
use crate::text::strings::quoted;
use bumpalo::Bump;
use bumpalo::collections::into_bump_slice;
use std::alloc::Allocator;

// The steps that come first, and what is after them.
pub(super) fn steps<'path, 't, A: Allocator>(
    arena: &'path Bump<A>,
    rest: &'t str,
) -> Result<(&'path [Step<'path>], &'t str), Stop>
    ensures steps { IfOk result (λ r. Steps r.0.now rest.now r.1.now) }
    ensures shorter { IfOk result (λ r. length r.1.now ≤ length rest.now) }
{
    let mut steps = Vec::new(arena);
    let mut left = rest;
    'steps: while let Some((step, others)) = step(arena, skip_blanks(left))? {
        steps.push(step)?;
        left = others;
    }
    Ok((into_bump_slice(steps), left))
}

// A step, if one is there, and what is after it.
fn step<'path, 't, A: Allocator>(
    arena: &'path Bump<A>,
    rest: &'t str,
) -> Result<Option<(Step<'path>, &'t str)>, Stop>
    ensures step { IfOk result (λ found. IfSome found (λ r.
        StepText r.0 rest.now r.1.now)) }
    ensures shorter { IfOk result (λ found. IfSome found (λ r. length r.1.now < length rest.now)) }
{
    if let Some(others) = after(rest, '[') {
        return in_brackets(arena, others);
    }
    match after(rest, '.') {
        Some(others) => member(arena, others),
        None => Ok(None),
    }
}

// A name without quotes.
fn member<'path, 't, A: Allocator>(
    arena: &'path Bump<A>,
    rest: &'t str,
) -> Result<Option<(Step<'path>, &'t str)>, Stop>
    ensures step { IfOk result (λ found. IfSome found (λ r. (text : List ℕ) → Mark dot text rest.now
        → StepText r.0 text r.1.now)) }
    ensures shorter { IfOk result (λ found. IfSome found (λ r. length r.1.now ≤ length rest.now)) }
{
    let Some((first, others)) = next(rest) else {
        return Ok(None);
    };
    if !begins_name(first) {
        return Ok(None);
    }
    let (name, others) = name(arena, first, others)?;
    Ok(Some((Step::Name(name), others)))
}

// A name in quotes or an index, up to `]`. The `[` is read.
fn in_brackets<'path, 't, A: Allocator>(
    arena: &'path Bump<A>,
    rest: &'t str,
) -> Result<Option<(Step<'path>, &'t str)>, Stop>
    ensures step { IfOk result (λ found. IfSome found (λ r. (text : List ℕ)
        → Mark left_bracket text rest.now
        → StepText r.0 text r.1.now)) }
    ensures shorter { IfOk result (λ found. IfSome found (λ r. length r.1.now ≤ length rest.now)) }
{
    let Some((step, others)) = bracketed(arena, skip_blanks(rest))? else {
        return Ok(None);
    };
    match after(skip_blanks(others), ']') {
        Some(behind) => Ok(Some((step, behind))),
        None => Ok(None),
    }
}

// A name in quotes or an index.
fn bracketed<'path, 't, A: Allocator>(
    arena: &'path Bump<A>,
    rest: &'t str,
) -> Result<Option<(Step<'path>, &'t str)>, Stop>
    ensures step { IfOk result (λ found. IfSome found (λ r.
        Bracketed r.0 rest.now r.1.now)) }
    ensures shorter { IfOk result (λ found. IfSome found (λ r. length r.1.now ≤ length rest.now)) }
{
    if let Some((name, others)) = quoted(arena, rest)? {
        return Ok(Some((Step::Name(name), others)));
    }
    let (index, others) = optional(rest)?;
    match index {
        Some(index) => Ok(Some((Step::Index(index), others))),
        None => Ok(None),
    }
}
