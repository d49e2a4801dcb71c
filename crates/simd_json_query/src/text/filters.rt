//! The tests of filters: logical expressions (RFC 9535, section 2.3.5.1).
ghost use Rattle.std.specs.Prelude.{◌≤◌, List, ℕ, length, IfOk, codes};
ghost use Rattle.simd_json_query.specs.Filters.{Basic, Conjunction, Denied, Logical, Nested};
ghost use Rattle.simd_json_query.specs.Filters.{Operands, left_parenthesis};
ghost use Rattle.simd_json_query.specs.Spans.{Mark};

use crate::filter::Test;
use crate::text::PathExpected;
use crate::text::comparables::closed;
use crate::text::comparisons::compared;
use crate::text::cursor::{Stop, after, skip_blanks, word};
use crate::text::patterns::matches;
use crate::text::queries::query;
use bumpalo::Bump;
use std::alloc::Allocator;

// A logical expression, with parentheses at most so deep, and what is after it.
#[cycle(tests)]
pub(super) fn logical<'path, 't, A: Allocator>(
    arena: &'path Bump<A>,
    rest: &'t str,
    nesting: usize,
) -> Result<(Test<'path>, &'t str), Stop>
    ensures test { IfOk result (λ r. Logical nesting r.0 rest.now r.1.now) }
    ensures shorter { IfOk result (λ r. length r.1.now ≤ length rest.now) }
{
    let mut before = Vec::new(arena);
    let (mut last, mut left) = conjunction(arena, rest, nesting)?;
    'operands: while let Some(others) = word(skip_blanks(left), "||") {
        let (next, behind) = conjunction(arena, skip_blanks(others), nesting)?;
        before.push(last)?;
        last = next;
        left = behind;
    }
    Ok((one_of(arena, before, last)?, left))
}

// Tests with `&&` between them, and what is after them.
#[cycle(tests)]
fn conjunction<'path, 't, A: Allocator>(
    arena: &'path Bump<A>,
    rest: &'t str,
    nesting: usize,
) -> Result<(Test<'path>, &'t str), Stop>
    ensures test { IfOk result (λ r. Conjunction (Nested nesting) r.0 rest.now r.1.now) }
    ensures shorter { IfOk result (λ r. length r.1.now ≤ length rest.now) }
{
    let mut before = Vec::new(arena);
    let (mut last, mut left) = basic(arena, rest, nesting)?;
    'operands: while let Some(others) = word(skip_blanks(left), "&&") {
        let (next, behind) = basic(arena, skip_blanks(others), nesting)?;
        before.push(last)?;
        last = next;
        left = behind;
    }
    Ok((all_of(arena, before, last)?, left))
}

// One of these tests passes, or the last one.
fn one_of<'path, A: Allocator>(
    arena: &'path Bump<A>,
    mut before: Vec<Test<'path>, &'path Bump<A>>,
    last: Test<'path>,
) -> Result<Test<'path>, Stop>
    ensures { IfOk result (λ t. (nesting : ℕ) (text between rest : List ℕ)
        → Operands (Conjunction (Nested nesting)) (codes "||") before.entry.items text between
        → Conjunction (Nested nesting) last.entry between rest → Logical nesting t text rest) }
{
    let mut test = last;
    'operands: while let Some(first) = before.pop() {
        test = Test::Or(arena.try_alloc(first)?, arena.try_alloc(test)?);
    }
    Ok(test)
}

// All of these tests pass, and the last one.
fn all_of<'path, A: Allocator>(
    arena: &'path Bump<A>,
    mut before: Vec<Test<'path>, &'path Bump<A>>,
    last: Test<'path>,
) -> Result<Test<'path>, Stop>
    ensures { IfOk result (λ t. (nesting : ℕ) (text between rest : List ℕ)
        → Operands (Basic (Nested nesting)) (codes "&&") before.entry.items text between
        → Basic (Nested nesting) last.entry between rest
        → Conjunction (Nested nesting) t text rest) }
{
    let mut test = last;
    'operands: while let Some(first) = before.pop() {
        test = Test::And(arena.try_alloc(first)?, arena.try_alloc(test)?);
    }
    Ok(test)
}

// A test without `&&` or `||` outside parentheses.
#[cycle(tests)]
fn basic<'path, 't, A: Allocator>(
    arena: &'path Bump<A>,
    rest: &'t str,
    nesting: usize,
) -> Result<(Test<'path>, &'t str), Stop>
    ensures test { IfOk result (λ r. Basic (Nested nesting) r.0 rest.now r.1.now) }
    ensures shorter { IfOk result (λ r. length r.1.now ≤ length rest.now) }
{
    if let Some(others) = after(rest, '!') {
        let (test, behind) = denied(arena, skip_blanks(others), nesting)?;
        return Ok((Test::Not(arena.try_alloc(test)?), behind));
    }
    if let Some(others) = after(rest, '(') {
        return nested(arena, rest, others, nesting);
    }
    if let Some((text, matcher, behind)) = matches(arena, rest, nesting)? {
        return Ok((Test::Matches(text, matcher), behind));
    }
    compared(arena, rest, nesting)
}

// What is denied by a `!`: a query, a match, or a test in parentheses.
#[cycle(tests)]
fn denied<'path, 't, A: Allocator>(
    arena: &'path Bump<A>,
    rest: &'t str,
    nesting: usize,
) -> Result<(Test<'path>, &'t str), Stop>
    ensures test { IfOk result (λ r. Denied (Nested nesting) r.0 rest.now r.1.now) }
    ensures shorter { IfOk result (λ r. length r.1.now ≤ length rest.now) }
{
    if let Some(others) = after(rest, '(') {
        return nested(arena, rest, others, nesting);
    }
    if let Some((text, matcher, others)) = matches(arena, rest, nesting)? {
        return Ok((Test::Matches(text, matcher), others));
    }
    match query(arena, rest)? {
        Some((query, others)) => Ok((Test::Exists(query), others)),
        None => Err(Stop::at(rest, PathExpected::Denied)),
    }
}

// A test and `)`, after a `(` at the beginning of `rest`.
#[cycle(tests)]
fn nested<'path, 't, A: Allocator>(
    arena: &'path Bump<A>,
    rest: &'t str,
    others: &'t str,
    nesting: usize,
) -> Result<(Test<'path>, &'t str), Stop>
    requires { Mark left_parenthesis rest.now others.now }
    ensures test { IfOk result (λ r. Nested nesting r.0 rest.now r.1.now) }
    ensures shorter { IfOk result (λ r. length r.1.now ≤ length others.now) }
{
    if nesting == 0 {
        return Err(Stop::at(rest, PathExpected::LessNesting));
    }
    let (test, behind) = logical(arena, skip_blanks(others), nesting - 1)?;
    Ok((test, closed(behind)?))
}
