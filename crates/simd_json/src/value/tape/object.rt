//! An object of a tape, and the iterators over its pairs, its keys and its values.
ghost use Rattle.std.specs.Prelude.{◌≡◌, map, length, ◌↔◌, IsTrue, MatchOption, [], option_map};
ghost use Rattle.std.specs.Prelude.{IfSome};
ghost use Rattle.simd_json.specs.Documents.{AreMemberNodes, members_of};
ghost use Rattle.simd_json.specs.Printable.{ArePrintable};
ghost use Rattle.simd_json_parts.specs.Document.{members, no_members, member};
ghost use Rattle.simd_json_parts.specs.Nodes.{item_of};
ghost use Rattle.simd_json_parts.specs.Views.{first_with};
ghost use Rattle.std.specs.Iterator.{UpTo, YieldsFirstBy, item_count, YieldsFirstRef};
ghost use Rattle.std.specs.Iterator.SizeHint.{IsWithinCount};

use crate::value::tape::Value;
use crate::value::tape::key::is_same;
use simd_json_parts::node::Node;
use std::iter::FusedIterator;

/// An object on a tape: a list of pairs of a key and a value, in the document's order. A key may
/// occur more than once.
#[derive(Clone, Copy, Debug)]
pub struct Object<'tape, 'input> {
    pub(super) len: usize,
    pub(super) nodes: &'tape [Node<'input>],
    ghost listed: { AreMemberNodes (map item_of nodes.now) },
    ghost printable: { ArePrintable nodes.now },
    ghost counted: { len ≡ length (members (members_of (map item_of nodes.now))) },
}

impl<'tape, 'input> Object<'tape, 'input> {
    ghost use Rattle.simd_json.specs.Iterated.{pairs_left, keys_left, values_left};
    ghost use Rattle.simd_json.specs.Viewed.{doc, pairs};
    ghost use Rattle.simd_json_parts.specs.Views.{keys, values};

    /// The value of the first pair with that key, or `None` where the key is missing. Linear time.
    ///
    /// The pairs before it are skipped, each in one step whatever its value holds. Only the bytes
    /// of keys of the same length are compared.
    pub fn get(&self, k: &str) -> Option<Value<'tape, 'input>>
        ensures { option_map doc result ≡ first_with k.now (pairs self.now) }
    {
        self.find(k)
    }

    /// The same as [`get`](Object::get), inlined where it is called, for a look-up in each of many
    /// objects: the call itself costs as much as a short look-up.
    #[inline(always)]
    pub fn find(&self, k: &str) -> Option<Value<'tape, 'input>>
        ensures { option_map doc result ≡ first_with k.now (pairs self.now) }
    {
        for (key, value) in self.iter() {
            if key.len() == k.len() && is_same(key, k) {
                return Some(value);
            }
        }
        None
    }

    /// An iterator over the pairs.
    pub fn iter(&self) -> Iter<'tape, 'input>
        ensures { pairs_left result ≡ members (pairs self.now) }
    {
        Iter { left: *self }
    }

    /// An iterator over the keys.
    pub fn keys(&self) -> Keys<'tape, 'input>
        ensures { keys_left result ≡ keys (pairs self.now) }
    {
        Keys { left: *self }
    }

    /// An iterator over the values.
    pub fn values(&self) -> Values<'tape, 'input>
        ensures { values_left result ≡ values (pairs self.now) }
    {
        Values { left: *self }
    }

    /// The number of pairs; constant time.
    pub fn len(&self) -> usize
        ensures { result ≡ length (members (pairs self.now)) }
    {
        self.len
    }

    /// Whether the object has no pair.
    pub fn is_empty(&self) -> bool
        ensures { IsTrue result ↔ (members (pairs self.now) ≡ []) }
    {
        self.len == 0
    }

    // The first pair, and the object of the others.
    pub(crate) fn split_first(
        self,
    ) -> Option<(&'input str, Value<'tape, 'input>, Object<'tape, 'input>)>
        ensures { MatchOption result (pairs self.entry ≡ no_members)
            (λ r. pairs self.entry ≡ member r.0.now (doc r.1) (pairs r.2)) }
    {
        if self.len == 0 {
            return None;
        }
        let (first, others) = self.nodes.split_at(1);
        let Node::String(key) = first[0] else {
            unreachable!()
        };
        let (value, nodes) = Value::split(others);
        Some((
            key,
            value,
            Object {
                len: self.len - 1,
                nodes,
            },
        ))
    }
}

impl<'tape, 'input> IntoIterator for &Object<'tape, 'input> {
    type Item = (&'input str, Value<'tape, 'input>);

    type IntoIter = Iter<'tape, 'input>;

    ghost use Rattle.simd_json.specs.Iterated.{pairs_left};
    ghost use Rattle.simd_json.specs.Viewed.{pairs};

    ghost into_iter_gives = { λ o it. pairs_left it ≡ members (pairs o.now) };

    fn into_iter(self) -> Iter<'tape, 'input> {
        self.iter()
    }
}

/// An iterator over the pairs of an object, in order. A step takes constant time.
#[derive(Clone, Copy, Debug)]
pub struct Iter<'tape, 'input> {
    left: Object<'tape, 'input>,
}

impl<'tape, 'input> Iterator for Iter<'tape, 'input> {
    type Item = (&'input str, Value<'tape, 'input>);

    ghost use Rattle.simd_json.specs.Iterated.{exact_hint, pairs_left, pair};

    ghost next_gives = { YieldsFirstBy pair pairs_left };

    ghost remaining = { item_count pairs_left };

    fn next(&mut self) -> Option<(&'input str, Value<'tape, 'input>)> {
        let (key, value, left) = self.left.split_first()?;
        *self = Iter { left };
        Some((key, value))
    }

    fn size_hint(&self) -> (usize, Option<usize>)
        ensures lower { IsWithinCount result.0 (item_count pairs_left self.now) }
        ensures upper { IfSome result.1 (UpTo (item_count pairs_left self.now)) }
        ensures exact { result ≡ exact_hint (length (pairs_left self.now)) }
    {
        (self.left.len, Some(self.left.len))
    }
}

impl<'tape, 'input> ExactSizeIterator for Iter<'tape, 'input> {
    fn len(&self) -> usize {
        self.left.len
    }
}

impl<'tape, 'input> FusedIterator for Iter<'tape, 'input> {}

/// An iterator over the keys of an object, in order.
#[derive(Clone, Copy, Debug)]
pub struct Keys<'tape, 'input> {
    left: Object<'tape, 'input>,
}

impl<'tape, 'input> Iterator for Keys<'tape, 'input> {
    type Item = &'input str;

    ghost use Rattle.simd_json.specs.Iterated.{exact_hint, keys_left};

    ghost next_gives = { YieldsFirstRef keys_left };

    ghost remaining = { item_count keys_left };

    fn next(&mut self) -> Option<&'input str> {
        let (key, _, left) = self.left.split_first()?;
        *self = Keys { left };
        Some(key)
    }

    fn size_hint(&self) -> (usize, Option<usize>)
        ensures lower { IsWithinCount result.0 (item_count keys_left self.now) }
        ensures upper { IfSome result.1 (UpTo (item_count keys_left self.now)) }
        ensures exact { result ≡ exact_hint (length (keys_left self.now)) }
    {
        (self.left.len, Some(self.left.len))
    }
}

impl<'tape, 'input> ExactSizeIterator for Keys<'tape, 'input> {
    fn len(&self) -> usize {
        self.left.len
    }
}

impl<'tape, 'input> FusedIterator for Keys<'tape, 'input> {}

/// An iterator over the values of an object, in order.
#[derive(Clone, Copy, Debug)]
pub struct Values<'tape, 'input> {
    left: Object<'tape, 'input>,
}

impl<'tape, 'input> Iterator for Values<'tape, 'input> {
    type Item = Value<'tape, 'input>;

    ghost use Rattle.simd_json.specs.Iterated.{exact_hint, values_left};
    ghost use Rattle.simd_json.specs.Viewed.{doc};

    ghost next_gives = { YieldsFirstBy doc values_left };

    ghost remaining = { item_count values_left };

    fn next(&mut self) -> Option<Value<'tape, 'input>> {
        let (_, value, left) = self.left.split_first()?;
        *self = Values { left };
        Some(value)
    }

    fn size_hint(&self) -> (usize, Option<usize>)
        ensures lower { IsWithinCount result.0 (item_count values_left self.now) }
        ensures upper { IfSome result.1 (UpTo (item_count values_left self.now)) }
        ensures exact { result ≡ exact_hint (length (values_left self.now)) }
    {
        (self.left.len, Some(self.left.len))
    }
}

impl<'tape, 'input> ExactSizeIterator for Values<'tape, 'input> {
    fn len(&self) -> usize {
        self.left.len
    }
}

impl<'tape, 'input> FusedIterator for Values<'tape, 'input> {}
