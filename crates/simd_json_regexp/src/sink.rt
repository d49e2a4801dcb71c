//! Nodes that are written, from the end of lent memory to its beginning.
ghost use Rattle.std.specs.Prelude.{◌≡◌, ◌≤◌, ◌-◌, drop, length};
ghost use Rattle.simd_json_regexp.specs.declared.pattern.TheConstants.{MAX_NODES};

use crate::item::Item;
use crate::marks;
use crate::node::{Kind, Node};
use crate::pattern::{MAX_NODES, MAX_POSITIONS, PatternError};

// Memory for nodes, of which those from an index on are written. A part is named by how many nodes
// there are from its first one on.
#[derive(Drop)]
pub(crate) struct Sink<'memory> {
    nodes: &'memory mut [Node],
    next: usize,
    ghost within: { next ≤ length nodes.now },
    ghost small: { length nodes.now ≤ MAX_NODES },
}

impl<'memory> Sink<'memory> {
    ghost use Rattle.std.specs.Prelude.{◌≡◌, ◌∷◌, ◌≤◌, ◌+◌, ◌-◌, [], length, drop, take, IfOk};
    ghost use Rattle.simd_json_regexp.specs.Marks.{size, takes_empty};
    ghost use Rattle.simd_json_regexp.specs.Nodes.{AreMeasured, of_kind, regexp, regexps};
    ghost use Rattle.simd_json_regexp.specs.Regexps.{◌then◌, ◌or◌, empty, many, one};
    ghost use Rattle.simd_json_regexp.specs.Items.{allows};
    ghost use Rattle.simd_json_regexp.specs.Patterns.{added, class_of, counted, item_node};
    ghost use Rattle.simd_json_regexp.specs.Patterns.{repeated};
    ghost use Rattle.simd_json_regexp.specs.Written.{Grows, part_of, part_read, written};

    pub(crate) fn new(nodes: &'memory mut [Node]) -> Self
        requires { length nodes.old ≤ MAX_NODES }
        ensures written { written result ≡ [] }
        ensures room { result.next ≡ length nodes.entry.now }
    {
        let next = nodes.len();
        Sink { nodes, next }
    }

    // How many more nodes there is memory for.
    pub(crate) fn room(&self) -> usize
        ensures { result ≡ self.now.next }
    {
        self.next
    }

    // How many nodes are written.
    fn len(&self) -> usize
        ensures { result ≡ length (written self.now) }
    {
        self.nodes.len() - self.next
    }

    // The nodes from a part on.
    fn part(&self, part: usize) -> &[Node]
        requires measured { AreMeasured (written self.now) }
        requires within { part ≤ length (written self.now) }
        ensures part { regexp result.now ≡ part_of (written self.now) part }
        ensures measured { AreMeasured result.now }
    {
        self.last(part)
    }

    // So many of the nodes, from the end.
    fn last(&self, count: usize) -> &[Node]
        requires { count ≤ length (written self.now) }
        ensures { result.now ≡ drop (length (written self.now) - count) (written self.now) }
    {
        last(self.nodes, count)
    }

    // How many characters a part has.
    fn size(&self, part: usize) -> usize
        requires measured { AreMeasured (written self.now) }
        requires within { part ≤ length (written self.now) }
        ensures size { result ≡ size (part_of (written self.now) part) }
        ensures small { result ≤ MAX_POSITIONS }
    {
        marks::size(self.part(part))
    }

    // Whether a part matches the empty text.
    fn takes_empty(&self, part: usize) -> bool
        requires measured { AreMeasured (written self.now) }
        requires within { part ≤ length (written self.now) }
        ensures { result ≡ takes_empty (part_of (written self.now) part) }
    {
        marks::takes_empty(self.part(part))
    }

    // How many nodes there are before a part.
    fn before(&self, part: usize) -> u16
        requires { part ≤ length (written self.now) }
        ensures { result ≡ length (written self.now) - part }
    {
        (self.len() - part) as u16
    }

    // Writes a node of so many characters, which may match the empty text, and returns the part
    // that it is.
    fn add(&mut self, kind: Kind, count: usize, optional: bool) -> Result<usize, PatternError>
        requires measured { AreMeasured (written self.old) }
        requires count { count
            ≡ size (of_kind kind (written self.old) (regexps (written self.old))) }
        requires optional { optional
            ≡ takes_empty (of_kind kind (written self.old) (regexps (written self.old))) }
        ensures is { part_read self.new result
            ≡ added (of_kind kind (written self.old) (regexps (written self.old))) self.old.next }
        ensures grows { Grows (written self.old) (written self.new) }
        ensures within { IfOk result (λ part. part ≤ length (written self.new)) }
        ensures node { IfOk result (λ _. written self.new
            ≡ record { kind = kind; size = count; takes_empty = optional } ∷ written self.old) }
        ensures room { IfOk result (λ _. self.old.next ≡ self.new.next + 1) }
    {
        let Some(at) = self.next.checked_sub(1) else {
            return Err(PatternError::TooLarge);
        };
        if count > MAX_POSITIONS {
            return Err(PatternError::TooLarge);
        }
        self.nodes[at] = Node {
            kind,
            size: count as u16,
            takes_empty: optional,
        };
        self.next = at;
        Ok(self.len())
    }

    // Writes the part of one character.
    pub(crate) fn one(&mut self, item: Item) -> Result<usize, PatternError>
        requires { AreMeasured (written self.old) }
        ensures is { part_read self.new result ≡ added (one (allows item)) self.old.next }
        ensures grows { Grows (written self.old) (written self.new) }
        ensures within { IfOk result (λ part. part ≤ length (written self.new)) }
        ensures node { IfOk result (λ _. written self.new ≡ item_node item ∷ written self.old) }
        ensures room { IfOk result (λ _. self.old.next ≡ self.new.next + 1) }
    {
        self.add(Kind::One(item), 1, false)
    }

    // Writes the part of one character that one of the last nodes allows, or none of them.
    pub(crate) fn class(&mut self, count: u16, is_other: bool) -> Result<usize, PatternError>
        requires { AreMeasured (written self.old) }
        ensures is { part_read self.new result ≡ added
            (class_of is_other (take count (written self.old))) self.old.next }
        ensures grows { Grows (written self.old) (written self.new) }
        ensures within { IfOk result (λ part. part ≤ length (written self.new)) }
    {
        if is_other {
            return self.add(Kind::NoneOf(count), 1, false);
        }
        self.add(Kind::OneOf(count), 1, false)
    }

    // Writes the part that is one part and then another.
    pub(crate) fn join(&mut self, first: usize, second: usize) -> Result<usize, PatternError>
        requires measured { AreMeasured (written self.old) }
        requires first { first ≤ length (written self.old) }
        requires second { second ≤ length (written self.old) }
        ensures is { part_read self.new result ≡ added
            (part_of (written self.old) first then part_of (written self.old) second)
            self.old.next }
        ensures grows { Grows (written self.old) (written self.new) }
        ensures within { IfOk result (λ part. part ≤ length (written self.new)) }
    {
        let kind = Kind::Then(self.before(first), self.before(second));
        let takes_empty = self.takes_empty(first) && self.takes_empty(second);
        self.add(kind, self.size(first) + self.size(second), takes_empty)
    }

    // Writes the part that is one of two parts.
    pub(crate) fn either(&mut self, first: usize, second: usize) -> Result<usize, PatternError>
        requires measured { AreMeasured (written self.old) }
        requires first { first ≤ length (written self.old) }
        requires second { second ≤ length (written self.old) }
        ensures is { part_read self.new result ≡ added
            (part_of (written self.old) first or part_of (written self.old) second)
            self.old.next }
        ensures grows { Grows (written self.old) (written self.new) }
        ensures within { IfOk result (λ part. part ≤ length (written self.new)) }
    {
        let kind = Kind::Or(self.before(first), self.before(second));
        let takes_empty = self.takes_empty(first) || self.takes_empty(second);
        self.add(kind, self.size(first) + self.size(second), takes_empty)
    }

    // Writes the part that is a part any number of times.
    pub(crate) fn many(&mut self, part: usize) -> Result<usize, PatternError>
        requires measured { AreMeasured (written self.old) }
        requires within { part ≤ length (written self.old) }
        ensures is { part_read self.new result
            ≡ added (many (part_of (written self.old) part)) self.old.next }
        ensures grows { Grows (written self.old) (written self.new) }
        ensures within { IfOk result (λ part. part ≤ length (written self.new)) }
    {
        let kind = Kind::Many(self.before(part));
        self.add(kind, self.size(part), true)
    }

    // Writes the empty text.
    pub(crate) fn empty(&mut self) -> Result<usize, PatternError>
        requires { AreMeasured (written self.old) }
        ensures is { part_read self.new result ≡ added empty self.old.next }
        ensures grows { Grows (written self.old) (written self.new) }
        ensures within { IfOk result (λ part. part ≤ length (written self.new)) }
    {
        self.add(Kind::Empty, 0, true)
    }

    // Writes so many copies of a part after another part.
    fn repeat(&mut self, first: usize, part: usize, count: usize) -> Result<usize, PatternError>
        requires measured { AreMeasured (written self.old) }
        requires first { first ≤ length (written self.old) }
        requires part { part ≤ length (written self.old) }
        ensures is { part_read self.new result ≡ repeated count
            (part_of (written self.old) part) (part_of (written self.old) first) self.old.next }
        ensures grows { Grows (written self.old) (written self.new) }
        ensures within { IfOk result (λ part. part ≤ length (written self.new)) }
    {
        let mut all = first;
        let mut left = count;
        'copies: while let Some(fewer) = left.checked_sub(1) {
            all = self.join(all, part)?;
            left = fewer;
        }
        Ok(all)
    }

    // Writes the part of at least `min` copies of a part, and at most `max`.
    pub(crate) fn copies(
        &mut self,
        part: usize,
        min: usize,
        max: Option<usize>,
    ) -> Result<usize, PatternError>
        requires measured { AreMeasured (written self.old) }
        requires part { part ≤ length (written self.old) }
        ensures is { part_read self.new result
            ≡ counted min max (part_of (written self.old) part) self.old.next }
        ensures grows { Grows (written self.old) (written self.new) }
        ensures within { IfOk result (λ part. part ≤ length (written self.new)) }
    {
        let none = self.empty()?;
        let least = self.repeat(none, part, min)?;
        let Some(max) = max else {
            let more = self.many(part)?;
            return self.join(least, more);
        };
        let optional = self.either(none, part)?;
        self.repeat(least, optional, max.saturating_sub(min))
    }

    // The nodes of a part, which is the first one.
    pub(crate) fn into_part(self, part: usize) -> &'memory [Node]
        requires measured { AreMeasured (written self) }
        requires within { part ≤ length (written self) }
        ensures part { regexp result.now ≡ part_of (written self.entry) part }
        ensures measured { AreMeasured result.now }
    {
        let nodes = self.nodes;
        last(nodes, part)
    }
}

// So many nodes, from the end.
fn last(nodes: &[Node], count: usize) -> &[Node]
    requires { count ≤ length nodes.now }
    ensures { result.now ≡ drop (length nodes.now - count) nodes.now }
{
    &nodes[nodes.len() - count..]
}
