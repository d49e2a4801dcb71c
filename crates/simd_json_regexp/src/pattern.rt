//! Patterns: a text that is read, and which texts it matches.
ghost use Rattle.std.specs.Prelude.{◌≡◌, ◌≤◌, Ok, length, IfOk};
ghost use Rattle.std.specs.Str.{chars};
ghost use Rattle.simd_json_regexp.specs.Nodes.{AreMeasured, AreMeasured-prop, regexp};
ghost use Rattle.simd_json_regexp.specs.Marks.{size};
ghost use Rattle.simd_json_regexp.specs.Patterns.{is_found, is_match};
ghost use Rattle.simd_json_regexp.specs.Patterns.{within_added};
ghost use Rattle.simd_json_regexp.specs.Written.{Grows, part_of, part_read, written};
ghost use Rattle.simd_json_regexp.specs.declared.pattern.TheConstants.{MAX_NODES, MAX_POSITIONS};

use crate::groups::pattern;
use crate::item::Item;
use crate::matching::matches;
use crate::node::Node;
use crate::sink::Sink;

/// How many characters a pattern may have, each as often as repetitions repeat it.
pub const MAX_POSITIONS: usize = 512;

/// How many nodes a pattern may take: one for each character, class and item of a class, for each
/// `|`, quantifier and copy, and to join each piece to those before it.
pub const MAX_NODES: usize = 1024;

/// Why a text is no pattern here.
#[derive(Clone, Copy, Debug, Drop, PartialEq, Eq)]
pub enum PatternError {
    /// It is no regular expression of RFC 9485.
    NoPattern,
    /// It has more than [`MAX_POSITIONS`] characters, takes more than [`MAX_NODES`], or has more
    /// than 100 nested groups.
    TooLarge,
}

/// A regular expression (RFC 9485) that was read.
#[derive(Clone, Copy)]
pub struct Pattern<'nodes> {
    nodes: &'nodes [Node],
    ghost measured: { AreMeasured nodes.now } by { AreMeasured-prop nodes.now },
}

impl<'nodes> Pattern<'nodes> {
    ghost use Rattle.std.specs.Prelude.{◌≡◌, ◌≤◌, length};
    ghost use Rattle.simd_json_regexp.specs.Marks.{matches};
    ghost use Rattle.simd_json_regexp.specs.Nodes.{AreMeasured, regexp};
    ghost use Rattle.simd_json_regexp.specs.Patterns.{pattern_of, pattern_within};
    ghost use Rattle.simd_json_regexp.specs.Regexps.{never};
    ghost use Rattle.simd_json_regexp.specs.Readings.{nodes_of, pattern_read};
    ghost use Rattle.simd_json_regexp.specs.Readings.{regexp_of, regexp_read};
    ghost use Rattle.simd_json_regexp.specs.Written.{part_of, written};

    /// The pattern of a text, in lent memory: it matches a text as a whole, as `match` asks for
    /// (RFC 9535, section 2.4.6).
    ///
    /// Returns [`PatternError::NoPattern`] where the text is none, and `TooLarge` where it exceeds
    /// a limit.
    pub fn new(
        text: &str,
        memory: &'nodes mut [Node; MAX_NODES],
    ) -> Result<Pattern<'nodes>, PatternError>
        ensures { pattern_read result ≡ regexp_read (pattern_of MAX_NODES (chars text.now)) }
    {
        let mut sink = Sink::new(memory);
        let part = pattern(&mut sink, text)?;
        Ok(Pattern::of(sink, part))
    }

    /// The pattern of what a text finds: it matches a text of which some characters in a row match,
    /// as `search` asks for (RFC 9535, section 2.4.7).
    ///
    /// Returns what [`Pattern::new`] returns.
    #[tactic(auto, unfolding(crate::specs::Patterns::pattern_within))]
    pub fn within(
        text: &str,
        memory: &'nodes mut [Node; MAX_NODES],
    ) -> Result<Pattern<'nodes>, PatternError>
        ensures { pattern_read result ≡ regexp_read (pattern_within MAX_NODES (chars text.now)) }
    {
        let mut sink = Sink::new(memory);
        let part = pattern(&mut sink, text)?;
        let found = within(&mut sink, part)?;
        Ok(Pattern::of(sink, found))
    }

    /// The pattern that matches no text.
    pub fn never() -> Pattern<'nodes>
        ensures { regexp_of result ≡ never }
    {
        Pattern { nodes: &[] }
    }

    fn of(sink: Sink<'nodes>, part: usize) -> Pattern<'nodes>
        requires measured { AreMeasured (written sink) }
        requires within { part ≤ length (written sink) }
        ensures { regexp_of result ≡ part_of (written sink.entry) part }
    {
        Pattern {
            nodes: sink.into_part(part),
        }
    }

    /// The nodes that it takes.
    pub fn nodes(&self) -> &'nodes [Node]
        ensures { result.now ≡ nodes_of self.now }
    {
        self.nodes
    }

    /// The same pattern, of a copy of its nodes.
    pub fn with_nodes<'copy>(&self, nodes: &'copy [Node]) -> Pattern<'copy>
        requires { nodes.now ≡ nodes_of self.now }
        ensures { nodes_of result ≡ nodes_of self.now }
    {
        Pattern { nodes }
    }

    /// Whether the text matches. It allocates nothing, and its time grows with the product of the
    /// sizes of text and pattern.
    pub fn is_match(&self, text: &str) -> bool
        ensures { result ≡ matches (regexp_of self.now) (chars text.now) }
    {
        matches(self.nodes, text)
    }
}

// Writes the part of some characters in a row that match.
fn within(sink: &mut Sink<'_>, part: usize) -> Result<usize, PatternError>
    requires measured { AreMeasured (written sink.old) }
    requires part { part ≤ length (written sink.old) }
    ensures is { part_read sink.new result
        ≡ within_added (part_of (written sink.old) part) sink.old.next }
    ensures grows { Grows (written sink.old) (written sink.new) }
    ensures within { IfOk result (λ part. part ≤ length (written sink.new)) }
{
    let one = sink.one(Item::Any)?;
    let any = sink.many(one)?;
    let end = sink.join(part, any)?;
    sink.join(any, end)
}

/// Whether a text matches a pattern as a whole: `match` (RFC 9535, section 2.4.6). What is no
/// pattern, or exceeds a limit, matches nothing. It takes 20 KiB of stack.
#[inline(never)]
pub fn is_match(pattern: &str, text: &str) -> bool
    ensures { result ≡ is_match pattern.now text.now }
{
    let mut memory = [Node::EMPTY; MAX_NODES];
    match Pattern::new(pattern, &mut memory) {
        Ok(pattern) => pattern.is_match(text),
        Err(_) => false,
    }
}

/// Whether some characters of a text in a row match a pattern: `search` (RFC 9535, section 2.4.7).
/// What is no pattern, or exceeds a limit, finds nothing. It takes 20 KiB of stack.
#[inline(never)]
pub fn is_found(pattern: &str, text: &str) -> bool
    ensures { result ≡ is_found pattern.now text.now }
{
    let mut memory = [Node::EMPTY; MAX_NODES];
    match Pattern::within(pattern, &mut memory) {
        Ok(pattern) => pattern.is_match(text),
        Err(_) => false,
    }
}
