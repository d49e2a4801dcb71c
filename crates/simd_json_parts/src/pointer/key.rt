//! The key that a reference token is (RFC 6901, section 4): with `~1` for `/`, and `~0` for `~`.
ghost use Rattle.std.specs.Prelude.{◌≡◌, ◌<◌, ◌∷◌, ◌++◌, ◌-◌, ◌↔◌, IsTrue, List, MatchOption, ℕ};
ghost use Rattle.std.specs.Prelude.{None, Some, is_some, length, option_map};
ghost use Rattle.std.specs.List.{count_by};
ghost use Rattle.simd_json_parts.specs.Followed.{is_tilde};
ghost use Rattle.simd_json_parts.specs.Pointed.{unescaped};

use super::token::front_len;

/// How many bytes the key has that a reference token is: one less than the token for each `~`.
#[inline(always)]
pub fn key_len(token: &[u8]) -> usize
    ensures { result ≡ length token.now - count_by is_tilde token.now }
{
    token.len() - token.iter().filter(|byte| **byte == b'~').count()
}

/// Whether a reference token, decoded, is the key. A token with a `~` that is followed by neither
/// `0` nor `1` is none.
#[inline(never)]
pub fn is_key(token: &[u8], key: &[u8]) -> bool
    ensures { IsTrue result ↔ (unescaped token.now ≡ Some key.now) }
{
    match strip_decoded(token, key) {
        Some(rest) => rest.is_empty(),
        None => false,
    }
}

/// What is left of a reference token after the front that decodes to some bytes.
///
/// Returns `None` where the token, decoded, does not begin with them.
#[inline]
pub fn strip_decoded<'token>(token: &'token [u8], front: &[u8]) -> Option<&'token [u8]>
    ensures { MatchOption result
        ((k : List ℕ) → unescaped token.now ≡ Some (front.now ++ k) → ⊥)
        (λ rest. unescaped token.now
        ≡ option_map (λ k. front.now ++ k) (unescaped rest.now)) }
{
    let mut left = token;
    let mut wanted = front;
    loop {
        let run = front_len(left, b'~', b'~');
        if wanted.len() <= run {
            return left.strip_prefix(wanted);
        }
        let Some(others) = wanted.strip_prefix(&left[..run]) else {
            return None;
        };
        let Some((first, rest)) = first_byte(&left[run..]) else {
            return None;
        };
        if others[0] != first {
            return None;
        }
        left = rest;
        wanted = &others[1..];
    }
}

/// Whether each `~` of a reference token is followed by `0` or `1` (RFC 6901, section 3).
pub fn is_well_formed(token: &[u8]) -> bool
    ensures { result ≡ is_some (unescaped token.now) }
{
    let mut left = token;
    while let Some((_, rest)) = first_byte(left) {
        left = rest;
    }
    left.is_empty()
}

// The first byte of the key, and what is left of the token after it, or `None` where the token is
// empty or begins with a `~` that begins no escape.
#[inline(always)]
fn first_byte(token: &[u8]) -> Option<(u8, &[u8])>
    ensures { MatchOption result (0 < length token.now → unescaped token.now ≡ None)
        (λ r. (unescaped token.now ≡ option_map (λ k. r.0 ∷ k) (unescaped r.1.now))
        × (length r.1.now < length token.now)) }
{
    if token.is_empty() {
        return None;
    }
    if token[0] != b'~' {
        return Some((token[0], &token[1..]));
    }
    if token.len() == 1 {
        return None;
    }
    match token[1] {
        b'0' => Some((b'~', &token[2..])),
        b'1' => Some((b'/', &token[2..])),
        _ => None,
    }
}
