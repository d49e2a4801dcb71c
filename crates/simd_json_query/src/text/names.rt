//! Names without quotes (RFC 9535, section 2.5.1.1).
ghost use Rattle.std.specs.Prelude.{◌≡◌, ◌≤◌, ◌++◌, true, length, List, ℕ, IfOk, encode_utf8};
ghost use Rattle.simd_json_query.specs.Steps.{Name, begins_name, is_in_name};

use crate::text::cursor::{Stop, next};
use bumpalo::Bump;
use bumpalo::collections::into_bump_str;
use std::alloc::Allocator;

// The name that begins with a character, and what is after it.
pub(super) fn name<'path, 't, A: Allocator>(
    arena: &'path Bump<A>,
    first: char,
    others: &'t str,
) -> Result<(&'path str, &'t str), Stop>
    requires { begins_name first ≡ true }
    ensures name { IfOk result (λ r. (text : List ℕ) → text ≡ encode_utf8 first ++ others.now
        → Name r.0.now text r.1.now) }
    ensures shorter { IfOk result (λ r. length r.1.now ≤ length others.now) }
{
    let mut name = String::new(arena);
    name.push(first)?;
    let mut left = others;
    'name: while let Some((next, behind)) = next(left) {
        if !is_in_name(next) {
            return Ok((into_bump_str(name), left));
        }
        name.push(next)?;
        left = behind;
    }
    Ok((into_bump_str(name), left))
}

pub(super) fn begins_name(c: char) -> bool
    ensures { result ≡ begins_name c }
{
    c.is_ascii_alphabetic() || c == '_' || c > '\x7f'
}

fn is_in_name(c: char) -> bool
    ensures { result ≡ is_in_name c }
{
    begins_name(c) || c.is_ascii_digit()
}
