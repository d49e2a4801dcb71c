//! The tape: the nodes of one document.
ghost use Rattle.std.specs.Prelude.{◌≡◌, ◌≢◌, ◌≤◌, ◌<◌, ◌↔◌, [], map, IsTrue, OnOk, OnErr, IfOk};
ghost use Rattle.std.specs.Prelude.{IfErr};
ghost use Rattle.std.specs.Mem.{manually_drop_value};
ghost use Rattle.std.specs.Vec.{vec_capacity, vec_len};
ghost use Rattle.simd_json_stages.specs.Capacities.{IsOutOfMemory};
ghost use Rattle.simd_json_parts.specs.Document.{null};
ghost use Rattle.simd_json_parts.specs.Listing.{listing};
ghost use Rattle.simd_json_parts.specs.Nodes.{item_of};

mod accessors;
pub mod array;
mod cmp;
pub mod containers;
pub mod descendants;
mod encode;
mod key;
pub mod object;
pub mod pointer;
mod value;

pub use array::Array;
pub use containers::Containers;
pub use descendants::Descendants;
pub use object::Object;
use simd_json_parts::error::Result;
pub use simd_json_parts::node::Node;
use simd_json_parts::node::StaticNode;
use std::alloc::{Allocator, Global};
use std::marker::Model;
use std::mem::ManuallyDrop;
pub use value::Value;

/// The nodes of one document in preorder, or none.
///
/// A scalar is one node. A container is a header followed by its members' nodes: `len` is the
/// number of members, `count` the number of all nodes beneath. A pair of an object is its key's
/// node, then its value's nodes.
#[derive(Debug, Drop)]
pub struct Tape<'input, A: Allocator = Global> {
    pub(crate) list: Vec<Node<'input>, A>,
}

impl<'input, A: Allocator> Model for Tape<'input, A> {
    ghost use Rattle.std.specs.Vec.{vec_capacity};
    ghost use Rattle.simd_json.specs.Tapes.{Listed, listed_of, IsTapeContent};

    ghost Value = { Listed };

    ghost view = { λ t. listed_of t.list.items (vec_capacity t.list) };

    ghost invariant = { λ t. IsTapeContent (listed_of t.list.items (vec_capacity t.list)).nodes };
}

impl<'input, A: Allocator> Tape<'input, A> {
    ghost use Rattle.simd_json.specs.Viewed.{doc};

    /// The tape of `null`: one node.
    ///
    /// Returns `OutOfMemory` where an allocation fails.
    pub fn null(a: A) -> Result<Tape<'input, A>>
        ensures tape { IfOk result (λ tape. tape.nodes ≡ listing null) }
        ensures fault { IfErr result IsOutOfMemory }
    {
        let mut list = Vec::new(a);
        list.push(Node::Static(StaticNode::Null))?;
        Ok(Tape { list })
    }

    /// A tape without nodes or capacity, to be filled. Allocates nothing.
    pub fn empty(a: A) -> Tape<'input, A>
        ensures { result ≡ record { nodes = []; capacity = 0 } }
    {
        Tape { list: Vec::new(a) }
    }

    /// Whether the tape has no nodes.
    pub fn is_empty(&self) -> bool
        ensures { IsTrue result ↔ (self.now.nodes ≡ []) }
    {
        self.list.is_empty()
    }

    /// The nodes of the document, in preorder; none where the tape is empty.
    pub fn nodes(&self) -> &[Node<'input>]
        ensures { map item_of result.now ≡ self.now.nodes }
    {
        self.list.as_slice()
    }

    /// The document of the tape. Requires that the tape is not empty.
    ///
    /// ```
    /// // How many sizes the document lists.
    /// fn sizes(rt: &impl AllocGlobal) -> simd_json::Result<usize> {
    ///     let mut input = *b"{\"name\":\"tape\",\"sizes\":[1,[2,3],4]}";
    ///     let tape = simd_json::to_tape(rt.alloc(), &mut input)?;
    ///     let sizes = tape
    ///         .as_value()
    ///         .get("sizes")
    ///         .and_then(|value| value.as_array());
    ///     Ok(sizes.map_or(0, |array| array.len()))
    /// }
    /// ```
    pub fn as_value(&self) -> Value<'_, 'input>
        requires { self.now.nodes ≢ [] }
        ensures { listing (doc result) ≡ self.now.nodes }
    {
        Value::new(self.list.as_slice())
    }

    /// Reserves capacity for `nodes` nodes in total: enough for any input of `nodes` bytes. The
    /// nodes stay as they are, and capacity never shrinks. Where there is as much, none is taken.
    ///
    /// Returns `OutOfMemory` where an allocation fails, and the tape stays as it is.
    pub fn reserve(&mut self, nodes: usize) -> Result<()>
        ensures nodes { self.new.nodes ≡ self.old.nodes }
        ensures kept { self.old.capacity ≤ self.new.capacity }
        ensures capacity { OnOk result (nodes ≤ self.new.capacity) }
        ensures enough { nodes ≤ self.old.capacity → self.new ≡ self.old }
        ensures failed { OnErr result (self.new ≡ self.old) }
        ensures fault { IfErr result (λ e. IsOutOfMemory e × (self.old.capacity < nodes)) }
    {
        if self.list.capacity() < nodes {
            self.list.reserve(nodes - self.list.len())?;
        }
        Ok(())
    }

    // Removes all nodes, and keeps the capacity.
    pub(crate) fn clear(&mut self)
        ensures { self.new ≡ record { nodes = []; capacity = self.old.capacity } }
    {
        self.list.clear();
    }

    /// An empty tape for inputs of another lifetime, with the capacity of this one. Allocates
    /// nothing.
    pub fn reset<'new>(self) -> Tape<'new, A>
        ensures { result ≡ record { nodes = []; capacity = self.entry.capacity } }
    {
        let Tape { mut list } = self;
        list.clear();
        Tape {
            list: ManuallyDrop::into_inner(transmuted(ManuallyDrop::new(list))),
        }
    }
}

// The same list, which is empty, as a list of nodes of another lifetime. Its words are
// reinterpreted: none of them points into an input.
fn transmuted<'old, 'new, A: Allocator>(
    list: ManuallyDrop<Vec<Node<'old>, A>>,
) -> ManuallyDrop<Vec<Node<'new>, A>>
    requires { vec_len (manually_drop_value list) ≡ 0 }
    ensures { (vec_len (manually_drop_value result) ≡ 0)
        × (vec_capacity (manually_drop_value result)
        ≡ vec_capacity (manually_drop_value list.entry)) }
{
    unsafe { (&raw const list as *const ManuallyDrop<Vec<Node<'new>, A>>).read() }
}
