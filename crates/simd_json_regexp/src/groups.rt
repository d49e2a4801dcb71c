//! Branches, pieces and groups (RFC 9485, section 4).
ghost use Rattle.std.specs.Prelude.{◌≡◌, ◌≤◌, ◌==◌, ◌||◌, IfOk, length};
ghost use Rattle.std.specs.Str.{chars};
ghost use Rattle.simd_json_regexp.specs.Nodes.{AreMeasured};
ghost use Rattle.simd_json_regexp.specs.Patterns.{alternatives, atom, branch, ends_branch, group};
ghost use Rattle.simd_json_regexp.specs.Patterns.{one_added, pattern_of, piece, quantified};
ghost use Rattle.simd_json_regexp.specs.Characters.{item};
ghost use Rattle.simd_json_regexp.specs.Written.{Grows, part_of, part_read, text_read, written};

use crate::braces::{begins_quantifier, quantifier};
use crate::brackets::bracketed;
use crate::characters::{after, item, next};
use crate::pattern::PatternError;
use crate::sink::Sink;

// How deep groups may be nested.
const MAX_NESTING: usize = 100;

// The part of a whole text.
#[tactic(auto, unfolding(crate::specs::Patterns::pattern_of))]
pub(crate) fn pattern(sink: &mut Sink<'_>, text: &str) -> Result<usize, PatternError>
    requires { AreMeasured (written sink.old) }
    ensures is { part_read sink.new result ≡ pattern_of sink.old.next (chars text.now) }
    ensures grows { Grows (written sink.old) (written sink.new) }
    ensures within { IfOk result (λ part. part ≤ length (written sink.new)) }
{
    let (part, rest) = alternatives(sink, text, MAX_NESTING)?;
    match next(rest) {
        Some(_) => Err(PatternError::NoPattern),
        None => Ok(part),
    }
}

// Branches with `|` between them, with groups at most so deep, and what is after them.
#[cycle(groups)]
fn alternatives<'t>(
    sink: &mut Sink<'_>,
    rest: &'t str,
    depth: usize,
) -> Result<(usize, &'t str), PatternError>
    requires { AreMeasured (written sink.old) }
    ensures is { text_read sink.new result
        ≡ alternatives (group depth) sink.old.next (chars rest.now) }
    ensures grows { Grows (written sink.old) (written sink.new) }
    ensures within { IfOk result (λ r. r.0 ≤ length (written sink.new)) }
{
    let (mut all, mut left) = branch(sink, rest, depth)?;
    let mut fuel = sink.room() + 1;
    'branches: while let Some(less) = fuel.checked_sub(1) {
        let Some(others) = after(left, '|') else {
            return Ok((all, left));
        };
        let (next, behind) = branch(sink, others, depth)?;
        all = sink.either(all, next)?;
        left = behind;
        fuel = less;
    }
    Err(PatternError::TooLarge)
}

// Pieces up to a `|`, a `)` or the end, and what is after them.
#[cycle(groups)]
fn branch<'t>(
    sink: &mut Sink<'_>,
    rest: &'t str,
    depth: usize,
) -> Result<(usize, &'t str), PatternError>
    requires { AreMeasured (written sink.old) }
    ensures is { text_read sink.new result ≡ branch (group depth) sink.old.next (chars rest.now) }
    ensures grows { Grows (written sink.old) (written sink.new) }
    ensures within { IfOk result (λ r. r.0 ≤ length (written sink.new)) }
{
    if ends_branch(rest) {
        let none = sink.empty()?;
        return Ok((none, rest));
    }
    let (mut all, mut left) = piece(sink, rest, depth)?;
    let mut fuel = sink.room() + 1;
    'pieces: while let Some(less) = fuel.checked_sub(1) {
        if ends_branch(left) {
            return Ok((all, left));
        }
        let (next, behind) = piece(sink, left, depth)?;
        all = sink.join(all, next)?;
        left = behind;
        fuel = less;
    }
    Err(PatternError::TooLarge)
}

fn ends_branch(rest: &str) -> bool
    ensures { result ≡ ends_branch (chars rest.now) }
{
    match next(rest) {
        Some((first, _)) => first == '|' || first == ')',
        None => true,
    }
}

// An atom and its quantifier, if it has one, and what is after them.
#[cycle(groups)]
fn piece<'t>(
    sink: &mut Sink<'_>,
    rest: &'t str,
    depth: usize,
) -> Result<(usize, &'t str), PatternError>
    requires { AreMeasured (written sink.old) }
    ensures is { text_read sink.new result ≡ piece (group depth) sink.old.next (chars rest.now) }
    ensures grows { Grows (written sink.old) (written sink.new) }
    ensures within { IfOk result (λ r. r.0 ≤ length (written sink.new)) }
{
    let (atom, others) = atom(sink, rest, depth)?;
    quantified(sink, atom, others)
}

// The copies of a part that a quantifier asks for, if one is there, and what is after it.
fn quantified<'t>(
    sink: &mut Sink<'_>,
    part: usize,
    rest: &'t str,
) -> Result<(usize, &'t str), PatternError>
    requires measured { AreMeasured (written sink.old) }
    requires part { part ≤ length (written sink.old) }
    ensures is { text_read sink.new result
        ≡ quantified (part_of (written sink.old) part) sink.old.next (chars rest.now) }
    ensures grows { Grows (written sink.old) (written sink.new) }
    ensures within { IfOk result (λ r. r.0 ≤ length (written sink.new)) }
{
    let Some((first, _)) = next(rest) else {
        return Ok((part, rest));
    };
    if !begins_quantifier(first) {
        return Ok((part, rest));
    }
    let Some((min, max, others)) = quantifier(rest) else {
        return Err(PatternError::NoPattern);
    };
    let copies = sink.copies(part, min, max)?;
    Ok((copies, others))
}

// A group, a class or a character, and what is after it.
#[cycle(groups)]
fn atom<'t>(
    sink: &mut Sink<'_>,
    rest: &'t str,
    depth: usize,
) -> Result<(usize, &'t str), PatternError>
    requires { AreMeasured (written sink.old) }
    ensures is { text_read sink.new result ≡ atom (group depth) sink.old.next (chars rest.now) }
    ensures grows { Grows (written sink.old) (written sink.new) }
    ensures within { IfOk result (λ r. r.0 ≤ length (written sink.new)) }
{
    let Some((first, others)) = next(rest) else {
        return Err(PatternError::NoPattern);
    };
    if first == '(' {
        return group(sink, others, depth);
    }
    if first == '[' {
        return bracketed(sink, others);
    }
    one(sink, rest)
}

// One character, and what is after it.
fn one<'t>(sink: &mut Sink<'_>, rest: &'t str) -> Result<(usize, &'t str), PatternError>
    requires { AreMeasured (written sink.old) }
    ensures is { text_read sink.new result ≡ one_added sink.old.next (item (chars rest.now)) }
    ensures grows { Grows (written sink.old) (written sink.new) }
    ensures within { IfOk result (λ r. r.0 ≤ length (written sink.new)) }
{
    let Some((item, others)) = item(rest) else {
        return Err(PatternError::NoPattern);
    };
    let part = sink.one(item)?;
    Ok((part, others))
}

// The branches after a `(`, and what is after its `)`.
#[cycle(groups)]
fn group<'t>(
    sink: &mut Sink<'_>,
    rest: &'t str,
    depth: usize,
) -> Result<(usize, &'t str), PatternError>
    requires { AreMeasured (written sink.old) }
    ensures is { text_read sink.new result ≡ group depth sink.old.next (chars rest.now) }
    ensures grows { Grows (written sink.old) (written sink.new) }
    ensures within { IfOk result (λ r. r.0 ≤ length (written sink.new)) }
{
    if depth == 0 {
        return Err(PatternError::TooLarge);
    }
    let (part, others) = alternatives(sink, rest, depth - 1)?;
    match after(others, ')') {
        Some(behind) => Ok((part, behind)),
        None => Err(PatternError::NoPattern),
    }
}
