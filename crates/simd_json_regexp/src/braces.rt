//! Quantifiers (RFC 9485, section 4).
ghost use Rattle.std.specs.Prelude.{◌≡◌, ◌≤◌, ◌<◌, IsTrue, ◌-◌, length, option_map};
ghost use Rattle.std.specs.Char.{is_ascii_digit};
ghost use Rattle.std.specs.Str.{chars};
ghost use Rattle.simd_json_regexp.specs.Characters.{begins_quantifier, braces, comma, count};
ghost use Rattle.simd_json_regexp.specs.Characters.{count_end, more_digits, quantifier, read};
ghost use Rattle.simd_json_regexp.specs.Characters.{read_count, up_to};

use crate::characters::{after, next};

// The value of a decimal digit.
fn digit_of(c: char) -> usize
    requires { IsTrue (is_ascii_digit c) }
    ensures { result ≡ c - 48 }
{
    c as usize - 48
}

// More copies than there is room for; a greater count is this one.
const MAX_COUNT: usize = 9999;

pub(crate) fn begins_quantifier(c: char) -> bool
    ensures { result ≡ begins_quantifier c }
{
    c == '*' || c == '+' || c == '?' || c == '{'
}

// How many copies a quantifier asks for at least, how many at most, and what is after it.
pub(crate) fn quantifier(rest: &str) -> Option<(usize, Option<usize>, &str)>
    ensures { option_map read_count result ≡ quantifier (chars rest.now) }
{
    let (first, others) = next(rest)?;
    match first {
        '*' => Some((0, None, others)),
        '+' => Some((1, None, others)),
        '?' => Some((0, Some(1), others)),
        _ => braces(others),
    }
}

// The same after a `{`.
fn braces(rest: &str) -> Option<(usize, Option<usize>, &str)>
    ensures { option_map read_count result ≡ braces (chars rest.now) }
{
    let (min, others) = count(rest)?;
    if let Some(behind) = after(others, '}') {
        return Some((min, Some(min), behind));
    }
    let others = after(others, ',')?;
    comma(min, others)
}

// The same after the `,`.
fn comma(min: usize, rest: &str) -> Option<(usize, Option<usize>, &str)>
    ensures { option_map read_count result ≡ comma min (chars rest.now) }
{
    if let Some(behind) = after(rest, '}') {
        return Some((min, None, behind));
    }
    let (max, others) = count(rest)?;
    let behind = after(others, '}')?;
    if min <= max {
        return Some((min, Some(max), behind));
    }
    None
}

fn count(rest: &str) -> Option<(usize, &str)>
    ensures { option_map read result ≡ count (chars rest.now) }
{
    let (first, others) = next(rest)?;
    if !first.is_ascii_digit() {
        return None;
    }
    Some(more_digits(digit_of(first), others))
}

// The number with the decimal digits that follow, and what is after them.
fn more_digits(first: usize, rest: &str) -> (usize, &str)
    requires { first ≤ MAX_COUNT }
    ensures { read result ≡ more_digits first (chars rest.now) }
{
    let mut number = first;
    let mut left = rest;
    'digits: while let Some((c, others)) = next(left) {
        if !c.is_ascii_digit() {
            return (number, left);
        }
        number = (10 * number + digit_of(c)).min(MAX_COUNT);
        left = others;
    }
    (number, left)
}
