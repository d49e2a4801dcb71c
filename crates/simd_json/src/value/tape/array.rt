//! An array of a tape, and the iterator over its values.
ghost use Rattle.std.specs.Prelude.{◌≡◌, map, length, ◌↔◌, IsTrue, MatchOption, [], option_map};
ghost use Rattle.std.specs.Prelude.{slice_get, IfSome};
ghost use Rattle.simd_json.specs.Documents.{AreElementNodes, elements_of};
ghost use Rattle.simd_json.specs.Printable.{ArePrintable};
ghost use Rattle.simd_json_parts.specs.Document.{elements, no_elements, element};
ghost use Rattle.simd_json_parts.specs.Nodes.{item_of};
ghost use Rattle.std.specs.Iterator.{UpTo, YieldsFirstBy, item_count};
ghost use Rattle.std.specs.Iterator.SizeHint.{IsWithinCount};

use crate::value::tape::Value;
use simd_json_parts::node::Node;
use std::iter::FusedIterator;

/// An array on a tape: a list of values, in the document's order.
#[derive(Clone, Copy, Debug)]
pub struct Array<'tape, 'input> {
    pub(super) len: usize,
    pub(super) nodes: &'tape [Node<'input>],
    ghost listed: { AreElementNodes (map item_of nodes.now) },
    ghost printable: { ArePrintable nodes.now },
    ghost counted: { len ≡ length (elements (elements_of (map item_of nodes.now))) },
}

impl<'tape, 'input> Array<'tape, 'input> {
    ghost use Rattle.simd_json.specs.Iterated.{elements_left};
    ghost use Rattle.simd_json.specs.Viewed.{doc, docs};

    /// The value at an index, in time linear in the index, or `None` where the array has no more
    /// than `index` values.
    ///
    /// The values before it are skipped, each in one step whatever it holds. To look at all of
    /// them, use [`iter`](Array::iter).
    pub fn get(&self, index: usize) -> Option<Value<'tape, 'input>>
        ensures { option_map doc result ≡ slice_get (elements (docs self.now)) index }
    {
        self.iter().nth(index)
    }

    /// An iterator over the values.
    pub fn iter(&self) -> Iter<'tape, 'input>
        ensures { elements_left result ≡ elements (docs self.now) }
    {
        Iter { left: *self }
    }

    /// The number of values; constant time.
    pub fn len(&self) -> usize
        ensures { result ≡ length (elements (docs self.now)) }
    {
        self.len
    }

    /// Whether the array has no value.
    pub fn is_empty(&self) -> bool
        ensures { IsTrue result ↔ (elements (docs self.now) ≡ []) }
    {
        self.len == 0
    }

    // The first value, and the array of the others.
    fn split_first(self) -> Option<(Value<'tape, 'input>, Array<'tape, 'input>)>
        ensures { MatchOption result (docs self.entry ≡ no_elements)
            (λ r. docs self.entry ≡ element (doc r.0) (docs r.1)) }
    {
        if self.len == 0 {
            return None;
        }
        let (value, nodes) = Value::split(self.nodes);
        Some((
            value,
            Array {
                len: self.len - 1,
                nodes,
            },
        ))
    }
}

impl<'tape, 'input> IntoIterator for &Array<'tape, 'input> {
    type Item = Value<'tape, 'input>;

    type IntoIter = Iter<'tape, 'input>;

    ghost use Rattle.simd_json.specs.Iterated.{elements_left};
    ghost use Rattle.simd_json.specs.Viewed.{docs};

    ghost into_iter_gives = { λ a it. elements_left it ≡ elements (docs a.now) };

    fn into_iter(self) -> Iter<'tape, 'input> {
        self.iter()
    }
}

/// An iterator over the values of an array, in order. A step takes constant time.
#[derive(Clone, Copy, Debug)]
pub struct Iter<'tape, 'input> {
    left: Array<'tape, 'input>,
}

impl<'tape, 'input> Iterator for Iter<'tape, 'input> {
    type Item = Value<'tape, 'input>;

    ghost use Rattle.simd_json.specs.Iterated.{elements_left, exact_hint};
    ghost use Rattle.simd_json.specs.Viewed.{doc};

    ghost next_gives = { YieldsFirstBy doc elements_left };

    ghost remaining = { item_count elements_left };

    fn next(&mut self) -> Option<Value<'tape, 'input>> {
        let (value, left) = self.left.split_first()?;
        *self = Iter { left };
        Some(value)
    }

    fn size_hint(&self) -> (usize, Option<usize>)
        ensures lower { IsWithinCount result.0 (item_count elements_left self.now) }
        ensures upper { IfSome result.1 (UpTo (item_count elements_left self.now)) }
        ensures exact { result ≡ exact_hint (length (elements_left self.now)) }
    {
        (self.left.len, Some(self.left.len))
    }
}

impl<'tape, 'input> ExactSizeIterator for Iter<'tape, 'input> {
    fn len(&self) -> usize {
        self.left.len
    }
}

impl<'tape, 'input> FusedIterator for Iter<'tape, 'input> {}
