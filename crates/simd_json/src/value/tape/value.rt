//! A value of a tape.
ghost use Rattle.std.specs.Prelude.{◌≡◌, ◌++◌, List, length, map, ◌<◌, ◌^◌, ◌∷◌, drop, is_some};
ghost use Rattle.std.specs.Prelude.{IfSome, option_map};
ghost use Rattle.simd_json.specs.Documents.{IsListing};
ghost use Rattle.simd_json.specs.Printable.{ArePrintable};
ghost use Rattle.simd_json_parts.specs.Document.{Document, array, object};
ghost use Rattle.simd_json_parts.specs.Listing.{listing};
ghost use Rattle.simd_json.specs.Tapes.{StandsFor};
ghost use Rattle.simd_json_parts.specs.Nodes.{Item, item_of};

use crate::value::tape::array::Array;
use crate::value::tape::containers::Containers;
use crate::value::tape::descendants::Descendants;
use crate::value::tape::object::Object;
use simd_json_parts::node::{Node, StaticNode, ValueType};

/// A document on a tape, or a document within it: a `Copy` reference to its nodes. Only `encode`
/// and `encode_pp` allocate.
///
/// # Typed accessors
///
/// | call | if the value is a `T` | if it is not | no such key | not an object |
/// |---|---|---|---|---|
/// | `as_T()` | `Some` | `None` | | |
/// | `try_as_T()` | `Ok` | `Err` | | |
/// | `get_T(key)` | `Some` | `None` | `None` | `None` |
/// | `try_get_T(key)` | `Ok(Some)` | `Err` | `Ok(None)` | `Err`, expects `Object` |
///
/// The last two read the first value with the key, in linear time. An error, `TryTypeError`, has
/// the kind that `T` expects and the kind of the value. `null` has no call with a key.
///
/// | `T` | the value is a `T` if it is | an error expects |
/// |---|---|---|
/// | `null`, as `()` | null | `Null` |
/// | `bool` | a truth value | `Bool` |
/// | `i8`, `i16`, `i32`, `i64` | an integer that fits the type, of whatever kind | `I64` |
/// | `i128` | an integer that fits the type | `I128` |
/// | `u8`, `u16`, `u32`, `u64`, `usize` | an integer that fits the type, of whatever kind | `U64` |
/// | `u128` | an integer that is not negative | `U128` |
/// | `str` | a string, with its escapes decoded | `String` |
/// | `decimal`, as `&str` | a number with a fraction or an exponent: its literal | `Decimal` |
/// | `array`, `object` | an array, an object | `Array`, `Object` |
///
/// A number is an integer or a decimal by how it is written (RFC 8259, section 6): `1.0` is a
/// decimal. An integer fits by its number alone: `-0` is 0 for each type.
///
/// # Example
///
/// ```
/// use simd_json::tape::Value;
///
/// // How many arrays there are among the members of a value.
/// fn arrays_in(value: Value<'_, '_>) -> usize {
///     let mut count = 0usize;
///     if let Some(array) = value.as_array() {
///         for element in &array {
///             if element.is_array() {
///                 count = count.saturating_add(1);
///             }
///         }
///     }
///     if let Some(object) = value.as_object() {
///         for (_, member) in &object {
///             if member.is_array() {
///                 count = count.saturating_add(1);
///             }
///         }
///     }
///     count
/// }
/// ```
#[derive(Clone, Copy, Debug)]
pub struct Value<'tape, 'input> {
    nodes: &'tape [Node<'input>],
    ghost listed: { IsListing (map item_of nodes.now) },
    ghost printable: { ArePrintable nodes.now },
}

impl<'tape, 'input> Value<'tape, 'input> {
    ghost use Rattle.simd_json.specs.Beneath.{beneath, containers};
    ghost use Rattle.simd_json_parts.specs.Descent.{is_container};
    ghost use Rattle.simd_json.specs.Descending.{containers_left, descendants_left};
    ghost use Rattle.simd_json.specs.Documents.{IsListing, IsFirst, document_of};
    ghost use Rattle.simd_json.specs.Printable.{ArePrintable};
    ghost use Rattle.simd_json.specs.Viewed.{doc, docs, pairs};
    ghost use Rattle.simd_json_parts.specs.Document.{null};
    ghost use Rattle.simd_json.specs.Tapes.{StandsFor};
    ghost use Rattle.simd_json_parts.specs.Views.{value_type, is_array, is_object};
    ghost use Rattle.simd_json_parts.specs.Views.{get, get_idx, contains_key};

    /// The value `null`.
    pub fn null() -> Value<'static, 'static>
        ensures { doc result ≡ null }
    {
        Value {
            nodes: &[Node::Static(StaticNode::Null)],
        }
    }

    // Makes a value of the nodes of one document.
    pub(super) fn new(nodes: &'tape [Node<'input>]) -> Value<'tape, 'input>
        requires listed { IsListing (map item_of nodes.now) }
        requires printable { ArePrintable nodes.now }
        ensures { doc result ≡ document_of (map item_of nodes.now) }
    {
        Value { nodes }
    }

    // Splits nodes into the first value and the nodes after it.
    pub(super) fn split(
        nodes: &'tape [Node<'input>],
    ) -> (Value<'tape, 'input>, &'tape [Node<'input>])
        requires listed { (d : Document) × StandsFor nodes.now d }
        requires printable { ArePrintable nodes.now }
        ensures whole { map item_of nodes.now
            ≡ listing (doc result.0) ++ map item_of result.1.now }
        ensures printable { ArePrintable result.1.now }
    {
        let (first, others) = nodes.split_at(size(nodes));
        (Value { nodes: first }, others)
    }

    // The first node: a scalar's only one, or a container's header.
    pub(crate) fn node(&self) -> Node<'input>
        ensures first { IsFirst (item_of result) (doc self.now) }
        ensures header { map item_of self.now.nodes.now
            ≡ item_of result ∷ map item_of (drop 1 self.now.nodes.now) }
    {
        self.nodes[0]
    }

    /// The nodes of the value, in preorder.
    pub fn nodes(&self) -> &'tape [Node<'input>]
        ensures listed { map item_of result.now ≡ listing (doc self.now) }
        ensures nodes { result.now ≡ self.now.nodes.now }
        ensures few { length result.now < 2 ^ 64 }
    {
        self.nodes
    }

    // The nodes after the first one.
    fn beneath(&self) -> &'tape [Node<'input>]
        ensures { result.now ≡ drop 1 self.now.nodes.now }
    {
        &self.nodes[1..]
    }

    /// The kind of the value.
    pub fn value_type(&self) -> ValueType
        ensures { result ≡ value_type (doc self.now) }
    {
        self.node().value_type()
    }

    /// Whether the value is an array.
    pub fn is_array(&self) -> bool
        ensures { result ≡ is_array (doc self.now) }
    {
        matches!(self.node(), Node::Array { .. })
    }

    /// Whether the value is an object.
    pub fn is_object(&self) -> bool
        ensures { result ≡ is_object (doc self.now) }
    {
        matches!(self.node(), Node::Object { .. })
    }

    // Whether the value is an array or an object.
    pub(super) fn is_container(&self) -> bool
        ensures { result ≡ is_container (doc self.now) }
    {
        matches!(self.node(), Node::Array { .. } | Node::Object { .. })
    }

    /// The value as an array, or `None` where it is of another kind.
    pub fn as_array(&self) -> Option<Array<'tape, 'input>>
        ensures kind { is_some result ≡ is_array (doc self.now) }
        ensures array { IfSome result (λ a. doc self.now ≡ array (docs a)) }
    {
        match self.node() {
            Node::Array { len, .. } => Some(Array {
                len,
                nodes: self.beneath(),
            }),
            _ => None,
        }
    }

    /// The same as [`as_array`](Value::as_array).
    pub fn into_array(self) -> Option<Array<'tape, 'input>>
        ensures kind { is_some result ≡ is_array (doc self.entry) }
        ensures array { IfSome result (λ a. doc self.entry ≡ array (docs a)) }
    {
        self.as_array()
    }

    /// The value as an object, or `None` where it is of another kind.
    pub fn as_object(&self) -> Option<Object<'tape, 'input>>
        ensures kind { is_some result ≡ is_object (doc self.now) }
        ensures object { IfSome result (λ o. doc self.now ≡ object (pairs o)) }
    {
        match self.node() {
            Node::Object { len, .. } => Some(Object {
                len,
                nodes: self.beneath(),
            }),
            _ => None,
        }
    }

    /// The same as [`as_object`](Value::as_object).
    pub fn into_object(self) -> Option<Object<'tape, 'input>>
        ensures kind { is_some result ≡ is_object (doc self.entry) }
        ensures object { IfSome result (λ o. doc self.entry ≡ object (pairs o)) }
    {
        self.as_object()
    }

    /// The value of the first pair with that key, or `None` where the value is not an object or has
    /// no such pair. Linear time: see [`Object::get`].
    pub fn get(&self, k: &str) -> Option<Value<'tape, 'input>>
        ensures { option_map doc result ≡ get k.now (doc self.now) }
    {
        self.as_object()?.get(k)
    }

    /// The value at an index, or `None` where the value is not an array or has no more than `i`
    /// values. Linear time: see [`Array::get`].
    pub fn get_idx(&self, i: usize) -> Option<Value<'tape, 'input>>
        ensures { option_map doc result ≡ get_idx i (doc self.now) }
    {
        self.as_array()?.get(i)
    }

    /// Whether the value is an object that has a pair with that key: whether [`get`](Value::get)
    /// returns one. Linear time.
    pub fn contains_key(&self, k: &str) -> bool
        ensures { result ≡ contains_key k.now (doc self.now) }
    {
        self.get(k).is_some()
    }

    /// An iterator over the value and the values beneath it, at most `DEPTH` levels down, in the
    /// document's order: each container before its members. A container on the lowest level is
    /// returned, but not its members. Keys are not among them.
    ///
    /// With a `DEPTH` of at least the parse's depth limit these are all values. The iterator
    /// allocates nothing and has 16 bytes for each level.
    ///
    /// ```
    /// use simd_json::tape::Value;
    ///
    /// // How many strings there are in the value, at most 32 levels down.
    /// fn strings(value: &Value<'_, '_>) -> usize {
    ///     let mut count = 0usize;
    ///     for beneath in value.descendants::<32>() {
    ///         if beneath.as_str().is_some() {
    ///             count = count.saturating_add(1);
    ///         }
    ///     }
    ///     count
    /// }
    /// ```
    pub fn descendants<const DEPTH: usize>(&self) -> Descendants<'tape, 'input, DEPTH>
        ensures values { descendants_left result ≡ beneath DEPTH (doc self.now) }
        ensures few { length (descendants_left result) < 2 ^ 64 }
    {
        Descendants::new(*self)
    }

    /// An iterator over the arrays and objects of the value, the value itself among them, in the
    /// document's order: each before those in it, however deep they are. It allocates nothing, and
    /// passes over each node of the value once.
    ///
    /// ```
    /// use simd_json::tape::Value;
    ///
    /// // How many values have the key `id`, at any depth.
    /// fn ids(value: &Value<'_, '_>) -> usize {
    ///     let mut count = 0usize;
    ///     for container in value.containers() {
    ///         if container.contains_key("id") {
    ///             count = count.saturating_add(1);
    ///         }
    ///     }
    ///     count
    /// }
    /// ```
    pub fn containers(&self) -> Containers<'tape, 'input>
        ensures { containers_left result ≡ containers (doc self.now) }
    {
        Containers::new(*self)
    }
}

// The number of nodes of the document that these nodes begin with. Not a `match`: its jump table
// would cost more than the rest of a look-up.
fn size(nodes: &[Node<'_>]) -> usize
    requires { (d : Document) × StandsFor nodes.now d }
    ensures { (d : Document) (rest : List Item) → map item_of nodes.now ≡ listing d ++ rest
        → result ≡ length (listing d) }
{
    if let Node::Array { count, .. } = nodes[0] {
        return count + 1;
    }
    if let Node::Object { count, .. } = nodes[0] {
        return count + 1;
    }
    1
}
