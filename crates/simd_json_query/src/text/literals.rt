//! Literals in filters (RFC 9535, section 2.3.5.1).
ghost use Rattle.std.specs.Prelude.{◌≡◌, ◌<◌, ◌≤◌, ℕ, true, false, length, IfOk, IfSome};
ghost use Rattle.simd_json_parts.specs.Bytes.{byte_at, is_terminator};
ghost use Rattle.simd_json_parts.specs.Numbers.{number_literal};
ghost use Rattle.simd_json_parts.specs.Patterns.{Matches};
ghost use Rattle.simd_json_query.specs.Filters.{LiteralText, NumberText};

use crate::filter::Literal;
use crate::text::PathExpected;
use crate::text::cursor::{Stop, word};
use crate::text::integers::begins_integer;
use crate::text::strings::quoted;
use bumpalo::Bump;
use simd_json_scalars::numberparse::{Numeral, parse_numeral};
use std::alloc::Allocator;

// A literal, if one is there, and what is after it.
pub(super) fn literal<'path, 't, A: Allocator>(
    arena: &'path Bump<A>,
    rest: &'t str,
) -> Result<Option<(Literal<'path>, &'t str)>, Stop>
    ensures literal { IfOk result (λ found. IfSome found (λ r. LiteralText r.0 rest.now r.1.now)) }
    ensures shorter { IfOk result (λ found. IfSome found (λ r. length r.1.now ≤ length rest.now)) }
{
    if begins_integer(rest) {
        let (number, others) = number(arena, rest)?;
        return Ok(Some((Literal::Number(number), others)));
    }
    if let Some((string, others)) = quoted(arena, rest)? {
        return Ok(Some((Literal::String(string), others)));
    }
    Ok(atom(rest))
}

// `true`, `false` or `null`.
fn atom<'path, 't>(rest: &'t str) -> Option<(Literal<'path>, &'t str)>
    ensures literal { IfSome result (λ r. LiteralText r.0 rest.now r.1.now) }
    ensures shorter { IfSome result (λ r. length r.1.now ≤ length rest.now) }
{
    if let Some(others) = word(rest, "true") {
        return Some((Literal::Bool(true), others));
    }
    if let Some(others) = word(rest, "false") {
        return Some((Literal::Bool(false), others));
    }
    let others = word(rest, "null")?;
    Some((Literal::Null, others))
}

// A number, in the arena, and what is after it.
fn number<'path, 't, A: Allocator>(
    arena: &'path Bump<A>,
    rest: &'t str,
) -> Result<(&'path str, &'t str), Stop>
    ensures number { IfOk result (λ r. NumberText r.0.now rest.now r.1.now) }
    ensures shorter { IfOk result (λ r. length r.1.now ≤ length rest.now) }
{
    let len = number_len(rest.as_bytes());
    let Some((number, others)) = rest.split_at_checked(len) else {
        return Err(Stop::at(rest, PathExpected::Number));
    };
    if !is_number(number.as_bytes()) {
        return Err(Stop::at(rest, PathExpected::Number));
    }
    Ok((arena.try_alloc_str(number)?, others))
}

// How many bytes at the front a number may hold.
fn number_len(bytes: &[u8]) -> usize
    ensures within { result ≤ length bytes.now }
    ensures kind { (k : ℕ) → k < result → is_terminator (byte_at bytes.now k) ≡ false }
{
    for (i, byte) in bytes.iter().enumerate() {
        if !is_in_number(*byte) {
            return i;
        }
    }
    bytes.len()
}

fn is_in_number(byte: u8) -> bool
    ensures { result ≡ true → is_terminator byte ≡ false }
{
    byte.is_ascii_digit() || matches!(byte, b'-' | b'+' | b'.' | b'e' | b'E')
}

// Whether bytes without a terminator are a number, as JSON spells it.
fn is_number(bytes: &[u8]) -> bool
    requires { (k : ℕ) → k < length bytes.now → is_terminator (byte_at bytes.now k) ≡ false }
    ensures { result ≡ true → Matches number_literal bytes.now }
{
    match parse_numeral(bytes) {
        Numeral::Integer(_) => true,
        Numeral::Long(_) => true,
        Numeral::Decimal(_) => true,
        Numeral::Invalid(_) => false,
    }
}
