//! Marks on the characters of a regular expression: those that the last character may have been.
ghost use Rattle.std.specs.Prelude.{◌≡◌, ◌≤◌, ◌∷◌, ◌||◌, [], drop, length, not, take};
ghost use Rattle.simd_json_regexp.specs.Marks.{after, first_mark, is_last, size, takes_empty};
ghost use Rattle.std.specs.List.{list_any};
ghost use Rattle.simd_json_regexp.specs.Items.{node_allows};
ghost use Rattle.simd_json_regexp.specs.Nodes.{AreMeasured, part, regexp, regexps};
ghost use Rattle.simd_json_regexp.specs.declared.pattern.TheConstants.{MAX_POSITIONS};

use crate::node::{Kind, Node};

// A part, by how many nodes are before it.
fn part(nodes: &[Node], index: u16) -> &[Node]
    requires { AreMeasured nodes.now }
    ensures part { regexp result.now ≡ part (regexps nodes.now) index }
    ensures measured { AreMeasured result.now }
    ensures within { length result.now ≤ length nodes.now }
{
    from(nodes, index)
}

fn from(nodes: &[Node], index: u16) -> &[Node]
    ensures { result.now ≡ drop index nodes.now }
{
    match nodes.get(index as usize..) {
        Some(part) => part,
        None => &[],
    }
}

// The first nodes.
fn first(nodes: &[Node], count: u16) -> &[Node]
    ensures { result.now ≡ take count nodes.now }
{
    &nodes[..nodes.len().min(count as usize)]
}

// Whether one of these nodes allows a character.
fn any_allows(nodes: &[Node], c: char) -> bool
    ensures { result ≡ list_any (node_allows c) nodes.now }
{
    nodes.iter().any(|node| node.allows(c))
}

// How many characters it has, each with a mark.
pub(crate) fn size(nodes: &[Node]) -> usize
    requires { AreMeasured nodes.now }
    ensures size { result ≡ size (regexp nodes.now) }
    ensures small { result ≤ MAX_POSITIONS }
{
    match nodes.split_first() {
        Some((node, _)) => node.size as usize,
        None => 0,
    }
}

// Whether it matches the empty text.
pub(crate) fn takes_empty(nodes: &[Node]) -> bool
    requires { AreMeasured nodes.now }
    ensures { result ≡ takes_empty (regexp nodes.now) }
{
    match nodes.split_first() {
        Some((node, _)) => node.takes_empty,
        None => false,
    }
}

// Whether a marked character may be the last one.
pub(crate) fn is_last(nodes: &[Node], marks: &[bool]) -> bool
    requires measured { AreMeasured nodes.now }
    requires marks { length marks.now ≡ size (regexp nodes.now) }
    ensures { result ≡ is_last (regexp nodes.now) marks.now }
{
    let Some((node, rest)) = nodes.split_first() else {
        return false;
    };
    match node.kind {
        Kind::Empty => false,
        Kind::One(_) | Kind::OneOf(_) | Kind::NoneOf(_) => marks[0],
        Kind::Then(first, second) => {
            let first = part(rest, first);
            let second = part(rest, second);
            let (front, back) = marks.split_at(size(first));
            is_last(first, front) && takes_empty(second) || is_last(second, back)
        }
        Kind::Or(first, second) => {
            let first = part(rest, first);
            let (front, back) = marks.split_at(size(first));
            is_last(first, front) || is_last(part(rest, second), back)
        }
        Kind::Many(inner) => is_last(part(rest, inner), marks),
    }
}

// Sets the only mark, and returns what it was.
fn mark(marks: &mut [bool], value: bool) -> bool
    requires { length marks.old ≡ 1 }
    ensures new { marks.new ≡ value ∷ [] }
    ensures old { result ≡ first_mark marks.old }
{
    let old = marks[0];
    marks[0] = value;
    old
}

// Whether nothing is marked, and no character comes first: then nothing will be marked. Most parts
// of a pattern are idle at most characters.
fn is_idle(marks: &[bool], enters: bool) -> bool
    ensures { result ≡ not (enters || list_any (λ m. m) marks.now) }
{
    if enters {
        return false;
    }
    !any_marked(marks)
}

fn any_marked(marks: &[bool]) -> bool
    ensures { result ≡ list_any (λ m. m) marks.now }
{
    marks.iter().any(|mark| *mark)
}

// Reads a character after one that is marked, or as the first one where `enters`. Returns whether a
// character that was marked may be the last one.
pub(crate) fn step(nodes: &[Node], marks: &mut [bool], enters: bool, c: char) -> bool
    requires measured { AreMeasured nodes.now }
    requires marks { length marks.old ≡ size (regexp nodes.now) }
    ensures marks { marks.new ≡ after (regexp nodes.now) enters c marks.old }
    ensures last { result ≡ is_last (regexp nodes.now) marks.old }
{
    if is_idle(marks, enters) {
        return false;
    }
    let Some((node, rest)) = nodes.split_first() else {
        return false;
    };
    match node.kind {
        Kind::Empty => false,
        Kind::One(item) => mark(marks, enters && item.allows(c)),
        Kind::OneOf(count) => mark(marks, enters && any_allows(first(rest, count), c)),
        Kind::NoneOf(count) => mark(marks, enters && !any_allows(first(rest, count), c)),
        Kind::Then(first, second) => {
            let first = part(rest, first);
            let second = part(rest, second);
            let (front, back) = marks.split_at_mut(size(first));
            let first_ends = step(first, front, enters, c);
            let enters_second = enters && takes_empty(first) || first_ends;
            let second_ends = step(second, back, enters_second, c);
            first_ends && takes_empty(second) || second_ends
        }
        Kind::Or(first, second) => {
            let first = part(rest, first);
            let (front, back) = marks.split_at_mut(size(first));
            let first_ends = step(first, front, enters, c);
            let second_ends = step(part(rest, second), back, enters, c);
            first_ends || second_ends
        }
        Kind::Many(inner) => {
            let inner = part(rest, inner);
            let ends = is_last(inner, marks);
            step(inner, marks, enters || ends, c);
            ends
        }
    }
}
