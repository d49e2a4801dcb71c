//! Names in quotes (RFC 9535, section 2.3.1.1).
ghost use Rattle.std.specs.Prelude.{◌≡◌, ◌≢◌, ◌<◌, ◌≤◌, ◌++◌, length, List, ℕ};
ghost use Rattle.std.specs.Prelude.{IfOk, IfSome, encode_utf8};
ghost use Rattle.simd_json_parts.specs.Bytes.{backslash, byte_at};
ghost use Rattle.simd_json_query.specs.Steps.{Escaped, Piece, Quoted, StringText};
ghost use Rattle.simd_json_query.specs.Spans.{Mark};

use crate::text::PathExpected;
use crate::text::cursor::{Stop, after, next};
use bumpalo::Bump;
use bumpalo::collections::into_bump_str;
use simd_json_scalars::stringparse::escape;
use std::alloc::Allocator;

// A name in quotes, if one is there, and what is after it.
pub(super) fn quoted<'path, 't, A: Allocator>(
    arena: &'path Bump<A>,
    rest: &'t str,
) -> Result<Option<(&'path str, &'t str)>, Stop>
    ensures string { IfOk result (λ found. IfSome found (λ r.
        StringText r.0.now rest.now r.1.now)) }
    ensures shorter { IfOk result (λ found. IfSome found (λ r. length r.1.now ≤ length rest.now)) }
{
    if let Some(others) = after(rest, '"') {
        return Ok(Some(string(arena, others, '"')?));
    }
    if let Some(others) = after(rest, '\'') {
        return Ok(Some(string(arena, others, '\'')?));
    }
    Ok(None)
}

// The string that ends with the quote, and what is after that. The quote at its beginning is read.
fn string<'path, 't, A: Allocator>(
    arena: &'path Bump<A>,
    rest: &'t str,
    quote: char,
) -> Result<(&'path str, &'t str), Stop>
    ensures string { IfOk result (λ r. (text : List ℕ) → Mark quote text rest.now
        → Quoted quote r.0.now text r.1.now) }
    ensures shorter { IfOk result (λ r. length r.1.now ≤ length rest.now) }
{
    let mut string = String::new(arena);
    let mut left = rest;
    'pieces: while let Some((first, others)) = next(left) {
        if first == quote {
            return Ok((into_bump_str(string), others));
        }
        let (character, behind) = piece(left, first, others, quote)?;
        string.push(character)?;
        left = behind;
    }
    Err(Stop::at(left, PathExpected::Character))
}

// One character of a string, and what is after it.
fn piece<'t>(
    left: &'t str,
    first: char,
    others: &'t str,
    quote: char,
) -> Result<(char, &'t str), Stop>
    requires begins { left.now ≡ encode_utf8 first ++ others.now }
    requires no_quote { first ≢ quote }
    ensures piece { IfOk result (λ r. Piece quote r.0 left.now r.1.now) }
    ensures shorter { IfOk result (λ r. length r.1.now < length left.now) }
{
    if first < ' ' {
        return Err(Stop::at(left, PathExpected::Character));
    }
    if first != '\\' {
        return Ok((first, others));
    }
    if let Some(behind) = after(others, quote) {
        return Ok((quote, behind));
    }
    match escaped(left) {
        Some(found) => Ok(found),
        None => Err(Stop::at(left, PathExpected::Escape)),
    }
}

// The character of the escape at the front, as JSON has it, and what is after it.
fn escaped(left: &str) -> Option<(char, &str)>
    requires { byte_at left.now 0 ≡ backslash }
    ensures escape { IfSome result (λ r. Escaped r.0 left.now r.1.now) }
    ensures shorter { IfSome result (λ r. length r.1.now < length left.now) }
{
    let bytes = left.as_bytes();
    if bytes.len() < 2 || bytes[1] == b'"' {
        return None;
    }
    let (character, more) = escape(bytes)?;
    Some((character, left.get(more + 1..)?))
}
