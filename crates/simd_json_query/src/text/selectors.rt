//! Selectors (RFC 9535, section 2.3), and selections in brackets (section 2.5.1.1).
ghost use Rattle.std.specs.Prelude.{◌≤◌, length, List, ℕ, IfOk};
ghost use Rattle.simd_json_parts.specs.Bytes.{left_bracket};
ghost use Rattle.simd_json_query.specs.Queries.{SelectorText};
ghost use Rattle.simd_json_query.specs.Segments.{Selection};
ghost use Rattle.simd_json_query.specs.Spans.{Mark};

use crate::query::Selector;
use crate::text::choices::choice;
use crate::text::cursor::{Stop, after, skip_blanks};
use crate::text::filters::logical;
use crate::text::{MAX_NESTING, PathExpected};
use bumpalo::Bump;
use bumpalo::collections::into_bump_slice;
use std::alloc::Allocator;

// The selectors up to `]`, and what is after that. The `[` is read.
pub(super) fn selection<'path, 't, A: Allocator>(
    arena: &'path Bump<A>,
    rest: &'t str,
) -> Result<(&'path [Selector<'path>], &'t str), Stop>
    ensures selection { IfOk result (λ r. (text : List ℕ) → Mark left_bracket text rest.now
        → Selection SelectorText r.0.now text r.1.now) }
    ensures shorter { IfOk result (λ r. length r.1.now ≤ length rest.now) }
{
    let mut selectors = Vec::new(arena);
    let begin = skip_blanks(rest);
    let (first, mut left) = selector(arena, begin)?;
    selectors.push(first)?;
    'more: loop {
        let end = skip_blanks(left);
        if let Some(others) = after(end, ']') {
            return Ok((into_bump_slice(selectors), others));
        }
        let Some(others) = after(end, ',') else {
            return Err(Stop::at(end, PathExpected::Separator));
        };
        let (next, others) = selector(arena, skip_blanks(others))?;
        selectors.push(next)?;
        left = others;
    }
}

fn selector<'path, 't, A: Allocator>(
    arena: &'path Bump<A>,
    rest: &'t str,
) -> Result<(Selector<'path>, &'t str), Stop>
    ensures selector { IfOk result (λ r. SelectorText r.0 rest.now r.1.now) }
    ensures shorter { IfOk result (λ r. length r.1.now ≤ length rest.now) }
{
    if let Some(others) = after(rest, '?') {
        let (test, behind) = logical(arena, skip_blanks(others), MAX_NESTING)?;
        return Ok((Selector::Filter(arena.try_alloc(test)?), behind));
    }
    match choice(arena, rest)? {
        Some((choice, others)) => Ok((Selector::Choice(choice), others)),
        None => Err(Stop::at(rest, PathExpected::Selector)),
    }
}
