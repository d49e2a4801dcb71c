//! Classes in brackets (RFC 9485, section 4).
ghost use Rattle.std.specs.Prelude.{◌≡◌, ◌≤◌, IfOk, length, option_map, take};
ghost use Rattle.std.specs.Str.{chars};
ghost use Rattle.simd_json_regexp.specs.Characters.{bracket_item, category_or, character};
ghost use Rattle.simd_json_regexp.specs.Characters.{first_item, is_bracket, range, range_to, read};
ghost use Rattle.simd_json_regexp.specs.Nodes.{AreMeasured};
ghost use Rattle.simd_json_regexp.specs.Patterns.{bracketed, class_read, items, more_items};
ghost use Rattle.simd_json_regexp.specs.Written.{Grows, items_read, text_read, written};

use crate::characters::{after, category, escape, next};
use crate::item::Item;
use crate::pattern::PatternError;
use crate::sink::Sink;

// The class after a `[`, and what is after its `]`.
pub(crate) fn bracketed<'t>(
    sink: &mut Sink<'_>,
    rest: &'t str,
) -> Result<(usize, &'t str), PatternError>
    requires { AreMeasured (written sink.old) }
    ensures is { text_read sink.new result ≡ bracketed sink.old.next (chars rest.now) }
    ensures grows { Grows (written sink.old) (written sink.new) }
    ensures within { IfOk result (λ r. r.0 ≤ length (written sink.new)) }
{
    match after(rest, '^') {
        Some(others) => class(sink, others, true),
        None => class(sink, rest, false),
    }
}

fn class<'t>(
    sink: &mut Sink<'_>,
    rest: &'t str,
    is_other: bool,
) -> Result<(usize, &'t str), PatternError>
    requires { AreMeasured (written sink.old) }
    ensures is { text_read sink.new result ≡ class_read is_other sink.old.next (chars rest.now) }
    ensures grows { Grows (written sink.old) (written sink.new) }
    ensures within { IfOk result (λ r. r.0 ≤ length (written sink.new)) }
{
    let (count, others) = items(sink, rest)?;
    let class = sink.class(count, is_other)?;
    Ok((class, others))
}

// Writes the items up to a `]`, and returns how many there are, and what is after it.
fn items<'t>(sink: &mut Sink<'_>, rest: &'t str) -> Result<(u16, &'t str), PatternError>
    requires { AreMeasured (written sink.old) }
    ensures is { items_read sink.new result ≡ items sink.old.next (chars rest.now) }
    ensures grows { Grows (written sink.old) (written sink.new) }
{
    let Some((first, others)) = first_item(rest) else {
        return Err(PatternError::NoPattern);
    };
    sink.one(first)?;
    more_items(sink, others)
}

// The same, where one item is written.
fn more_items<'t>(sink: &mut Sink<'_>, rest: &'t str) -> Result<(u16, &'t str), PatternError>
    requires measured { AreMeasured (written sink.old) }
    requires first { 1 ≤ length (written sink.old) }
    ensures is { items_read sink.new result
        ≡ more_items sink.old.next (take 1 (written sink.old)) (chars rest.now) }
    ensures grows { Grows (written sink.old) (written sink.new) }
{
    let mut count = 1;
    let mut left = rest;
    'items: loop {
        if let Some(others) = after(left, ']') {
            return Ok((count, others));
        }
        let Some((item, others)) = bracket_item(left) else {
            return Err(PatternError::NoPattern);
        };
        sink.one(item)?;
        count += 1;
        left = others;
    }
}

// The first item, which may be a `-`, and what is after it.
fn first_item(rest: &str) -> Option<(Item, &str)>
    ensures { option_map read result ≡ first_item (chars rest.now) }
{
    let (first, others) = next(rest)?;
    if first == '-' {
        return Some((Item::Range('-', '-'), others));
    }
    bracket_item(rest)
}

// A character, a range or a category, and what is after it; before a `]` a `-` is a character.
fn bracket_item(rest: &str) -> Option<(Item, &str)>
    ensures { option_map read result ≡ bracket_item (chars rest.now) }
{
    let (first, others) = next(rest)?;
    if first == '\\' {
        return category_or_range(rest, others);
    }
    if first == '-' && after(others, ']').is_some() {
        return Some((Item::Range('-', '-'), others));
    }
    range(rest)
}

// The same of a text that begins with a backslash; `others` is what is after that.
fn category_or_range<'t>(rest: &'t str, others: &'t str) -> Option<(Item, &'t str)>
    ensures { option_map read result
        ≡ category_or (range (chars rest.now)) (chars others.now) }
{
    let Some((first, behind)) = next(others) else {
        return range(rest);
    };
    match first {
        'p' => category(behind, false),
        'P' => category(behind, true),
        _ => range(rest),
    }
}

// A character or a range, and what is after it.
fn range(rest: &str) -> Option<(Item, &str)>
    ensures { option_map read result ≡ range (chars rest.now) }
{
    let (low, others) = character(rest)?;
    let Some((first, behind)) = next(others) else {
        return Some((Item::Range(low, low), others));
    };
    if first == '-' && after(behind, ']').is_none() {
        return range_to(low, behind);
    }
    Some((Item::Range(low, low), others))
}

fn range_to(low: char, rest: &str) -> Option<(Item, &str)>
    ensures { option_map read result ≡ range_to low (chars rest.now) }
{
    let (high, others) = character(rest)?;
    if low <= high {
        return Some((Item::Range(low, high), others));
    }
    None
}

// A character, which may be escaped, and what is after it.
fn character(rest: &str) -> Option<(char, &str)>
    ensures { option_map read result ≡ character (chars rest.now) }
{
    let (first, others) = next(rest)?;
    if first == '\\' {
        return escape(others);
    }
    if is_bracket(first) {
        return None;
    }
    Some((first, others))
}

fn is_bracket(c: char) -> bool
    ensures { result ≡ is_bracket c }
{
    matches!(c, '-' | '['..=']')
}
