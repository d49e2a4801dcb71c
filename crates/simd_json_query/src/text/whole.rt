//! Whole texts: a query (RFC 9535, section 2.1), and a test by itself.
ghost use Rattle.std.specs.Prelude.{IfOk};
ghost use Rattle.simd_json_query.specs.Queries.{FilterText, Query};

use crate::filter::Test;
use crate::text::cursor::{Stop, after, skip_blanks};
use crate::text::filters::logical;
use crate::text::segments::segments;
use crate::text::steps::steps;
use crate::text::{MAX_NESTING, PathExpected, QueryParts};
use bumpalo::Bump;
use std::alloc::Allocator;

// The query of a text.
pub(super) fn query<'path, A: Allocator>(
    arena: &'path Bump<A>,
    text: &str,
) -> Result<QueryParts<'path>, Stop>
    ensures { IfOk result (λ r. Query r.0.now r.1.now text.now) }
{
    let Some(begin) = after(text, '$') else {
        return Err(Stop::at(text, PathExpected::Root));
    };
    let (steps, others) = steps(arena, begin)?;
    let (segments, end) = segments(arena, others)?;
    if !end.is_empty() {
        return Err(Stop::at(skip_blanks(end), PathExpected::Segment));
    }
    Ok((steps, segments))
}

// The test of a text.
pub(super) fn test<'path, A: Allocator>(
    arena: &'path Bump<A>,
    text: &str,
) -> Result<&'path Test<'path>, Stop>
    ensures { IfOk result (λ test. FilterText test.now text.now) }
{
    let (test, others) = logical(arena, skip_blanks(text), MAX_NESTING)?;
    let end = skip_blanks(others);
    if !end.is_empty() {
        return Err(Stop::at(end, PathExpected::End));
    }
    Ok(arena.try_alloc(test)?)
}
