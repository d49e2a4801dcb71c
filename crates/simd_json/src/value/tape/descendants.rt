//! The iterator over a value and the values beneath it.
ghost use Rattle.std.specs.Prelude.{◌≡◌, ◌≤◌, map, ◌≢◌, ◌<◌, ◌^◌, drop, length, MatchOption, ◌∷◌};
ghost use Rattle.std.specs.Prelude.{◌++◌, ℕ, List, [], suc, flat_map, IfSome, slice_get, cond};
ghost use Rattle.simd_json.specs.Documents.{AreElementNodes};
ghost use Rattle.simd_json.specs.Printable.{ArePrintable};
ghost use Rattle.simd_json_parts.specs.Nodes.{item_of};
ghost use Rattle.simd_json_parts.specs.Document.{no_elements, element, Elements};
ghost use Rattle.simd_json_parts.specs.Listing.{listing};
ghost use Rattle.std.specs.Iterator.{YieldsFirstBy, item_count};

use crate::value::tape::Value;
use simd_json_parts::node::Node;
use std::iter::FusedIterator;

// Documents in a row; the key of a pair counts as one.
#[derive(Clone, Copy, Debug)]
pub(super) struct Siblings<'tape, 'input> {
    nodes: &'tape [Node<'input>],
    ghost listed: { AreElementNodes (map item_of nodes.now) },
    ghost printable: { ArePrintable nodes.now },
}

impl<'tape, 'input> Siblings<'tape, 'input> {
    ghost use Rattle.simd_json.specs.Descending.{in_row, unpacked};
    ghost use Rattle.simd_json.specs.Documents.{other_elements};
    ghost use Rattle.simd_json.specs.Viewed.{doc};

    // The document of a value alone.
    pub(super) fn new(value: Value<'tape, 'input>) -> Siblings<'tape, 'input>
        ensures row { in_row result ≡ element (doc value.entry) no_elements }
        ensures few { length (listing (doc value.entry)) < 2 ^ 64 }
    {
        Siblings {
            nodes: value.nodes(),
        }
    }

    // The first document, and the row of the others.
    pub(super) fn split_first(self) -> Option<(Value<'tape, 'input>, Siblings<'tape, 'input>)>
        ensures { MatchOption result (in_row self.entry ≡ no_elements)
            (λ r. in_row self.entry ≡ element (doc r.0) (in_row r.1)) }
    {
        if self.nodes.is_empty() {
            return None;
        }
        let (value, nodes) = Value::split(self.nodes);
        Some((value, Siblings { nodes }))
    }

    // All but the first document.
    fn without_first(self) -> Siblings<'tape, 'input>
        ensures { in_row result ≡ other_elements 1 (in_row self.entry) }
    {
        match self.split_first() {
            Some((_, others)) => others,
            None => self,
        }
    }

    // The documents in the first one, then the others.
    pub(super) fn enter(self) -> Siblings<'tape, 'input>
        requires { in_row self ≢ no_elements }
        ensures row { in_row result ≡ unpacked (in_row self.entry) }
        ensures nodes { result.nodes.now ≡ drop 1 self.entry.nodes.now }
    {
        let (_, nodes) = self.nodes.split_at(1);
        Siblings { nodes }
    }
}

// A container that is open, and how many of its members are left.
#[derive(Clone, Copy, Debug)]
struct Open {
    is_object: bool,
    left: usize,
}

impl Open {
    ghost use Rattle.simd_json.specs.Beneath.{beneath, children};
    ghost use Rattle.simd_json.specs.Descending.{left_by, unpacked};
    ghost use Rattle.simd_json.specs.Viewed.{doc};
    ghost use Rattle.simd_json.specs.declared.value.tape.descendants.Open.{Open};

    // The level of a container, or `None` for a scalar.
    fn of(value: &Value<'_, '_>) -> Option<Open>
        ensures { MatchOption result (children (doc value.now) ≡ [])
            (λ l. (n : ℕ) (ls : List Open) (ds : Elements)
            → left_by n (l ∷ ls) (unpacked (element (doc value.now) ds))
            ≡ flat_map (beneath n) (children (doc value.now)) ++ left_by (suc n) ls ds) }
    {
        if let Some(array) = value.as_array() {
            return Some(Open {
                is_object: false,
                left: array.len(),
            });
        }
        let object = value.as_object()?;
        Some(Open {
            is_object: true,
            left: object.len(),
        })
    }

    // The index of the first container, from an index on, that has a member left.
    fn first_unfinished(levels: &[Open], from: usize) -> usize
        requires { from ≤ length levels.now }
        ensures within { result ≤ length levels.now }
        ensures some { IfSome (slice_get levels.now result) (λ l. 0 < l.left) }
        ensures same { (ds : Elements)
            → left_by from (drop from levels.now) ds
            ≡ left_by result (drop result levels.now) ds }
    {
        let mut index = from;
        while index < levels.len() && levels[index].left == 0 {
            index += 1;
        }
        index
    }
}

// The open containers, from `innermost` on, each inside the next one.
#[derive(Debug, Drop)]
struct Levels<const DEPTH: usize> {
    all: [Open; DEPTH],
    innermost: usize,
    ghost within: { innermost ≤ DEPTH },
}

impl<const DEPTH: usize> Levels<DEPTH> {
    ghost use Rattle.simd_json.specs.Beneath.{beneath};
    ghost use Rattle.simd_json.specs.Descending.{left_open, left_begun, unpacked};
    ghost use Rattle.simd_json.specs.Documents.{other_elements};
    ghost use Rattle.simd_json.specs.Viewed.{doc};

    // Closes the containers that are finished, and takes the next member of the innermost one that
    // is left. Returns whether the member begins with a key.
    fn begin_member(&mut self) -> bool
        ensures { (ds : Elements)
            → left_open self.old ds ≡ left_begun self.new (cond result (other_elements 1 ds) ds) }
    {
        self.innermost = Open::first_unfinished(&self.all, self.innermost);
        if self.innermost == DEPTH {
            return false;
        }
        self.all[self.innermost].left -= 1;
        self.all[self.innermost].is_object
    }

    // Opens the value if it is a container and a level is left for it. Returns whether it was
    // opened.
    fn enter(&mut self, value: &Value<'_, '_>) -> bool
        ensures { (ds : Elements)
            → beneath self.old.innermost (doc value.now) ++ left_open self.old ds
            ≡ doc value.now ∷ left_open self.new
            (cond result (unpacked (element (doc value.now) ds)) ds) }
    {
        if self.innermost == 0 {
            return false;
        }
        let Some(level) = Open::of(value) else {
            return false;
        };
        self.innermost -= 1;
        self.all[self.innermost] = level;
        true
    }
}

/// An iterator over a value and the values beneath it.
#[derive(Debug, Drop)]
pub struct Descendants<'tape, 'input, const DEPTH: usize> {
    row: Siblings<'tape, 'input>,
    levels: Levels<DEPTH>,
}

impl<'tape, 'input, const DEPTH: usize> Descendants<'tape, 'input, DEPTH> {
    ghost use Rattle.simd_json.specs.Beneath.{beneath};
    ghost use Rattle.simd_json.specs.Descending.{descendants_left};
    ghost use Rattle.simd_json.specs.Viewed.{doc};

    pub(super) fn new(value: Value<'tape, 'input>) -> Descendants<'tape, 'input, DEPTH>
        ensures values { descendants_left result ≡ beneath DEPTH (doc value.entry) }
        ensures few { length (descendants_left result) < 2 ^ 64 }
    {
        let closed = Open {
            is_object: false,
            left: 0,
        };
        Descendants {
            row: Siblings::new(value),
            levels: Levels {
                all: [closed; DEPTH],
                innermost: DEPTH,
            },
        }
    }
}

impl<'tape, 'input, const DEPTH: usize> Iterator for Descendants<'tape, 'input, DEPTH> {
    type Item = Value<'tape, 'input>;

    ghost use Rattle.simd_json.specs.Descending.{descendants_left};
    ghost use Rattle.simd_json.specs.Viewed.{doc};

    ghost next_gives = { YieldsFirstBy doc descendants_left };

    ghost remaining = { item_count descendants_left };

    fn next(&mut self) -> Option<Value<'tape, 'input>> {
        self.row = if self.levels.begin_member() {
            self.row.without_first()
        } else {
            self.row
        };
        let Some((value, others)) = self.row.split_first() else {
            return None;
        };
        self.row = if self.levels.enter(&value) {
            self.row.enter()
        } else {
            others
        };
        Some(value)
    }
}

impl<'tape, 'input, const DEPTH: usize> FusedIterator for Descendants<'tape, 'input, DEPTH> {}
