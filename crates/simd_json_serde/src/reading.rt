//! The entry points.
ghost use Rattle.std.specs.Prelude.{◌≡◌, ◌≤◌, ◌<◌, ◌⊎◌, ℕ, length, OnOk, OnErr, IfErr, IfOk};
ghost use Rattle.std.specs.Vec.{vec_capacity};
ghost use Rattle.std.specs.Result.{result_ok};
ghost use Rattle.serde.specs.Event.{octets};
ghost use Rattle.serde.specs.Steps.{Gives};
ghost use Rattle.simd_json_stages.specs.Capacities.{default_max_depth};
ghost use Rattle.simd_json.specs.Capacities.{KeepsCapacities, capacity};
ghost use Rattle.simd_json.specs.Viewed.{doc};
ghost use Rattle.simd_json_parts.specs.Document.{Document};
ghost use Rattle.simd_json_parts.specs.Listing.{listing};
ghost use Rattle.simd_json_serde.specs.Scratch.{input_capacity, node_capacity};
ghost use Rattle.simd_json_serde.specs.Nodes.{items_of};
ghost use Rattle.simd_json_serde.specs.Outcomes.{IsTypedRead, IsLate, IsNoMemory};
ghost use Rattle.simd_json_serde.specs.Outcomes.{HasErrorPath, HasParseMemory, HasPathIn};

use crate::error::{FaultName, Mismatch, ReadError, StepFault};
use crate::in_place::{PlacedNodes, parse_in_place};
use crate::kept_node::KeptNode;
use crate::node_reader::NodeReader;
use crate::nodes::Nodes;
use serde::{Deserialize, DeserializeOwned, Deserializer, Format};
use simd_json::tape::Value;
use simd_json::{Buffers, DEFAULT_MAX_DEPTH, Tape};
use std::alloc::{AllocError, Global};

/// Reads a type that may borrow its strings from `input`, also those with escapes: a string is
/// decoded where it was written, so the input's bytes are not kept.
///
/// Returns the parse's error where the input is not a document within the limits of
/// [`to_tape`](simd_json::to_tape), or an allocation of the parse fails, and a [`Mismatch`] where
/// it does not fit the type, or an allocation fails after the parse.
pub fn from_slice_mut<'de, T: Deserialize<'de>>(
    alloc: Global,
    input: &'de mut [u8],
) -> Result<T, ReadError>
    ensures read { IsTypedRead input.old default_max_depth result }
    ensures path { IfErr result (HasPathIn input.old) }
{
    let mut buffers = Buffers::empty(alloc, DEFAULT_MAX_DEPTH);
    from_slice_mut_with(input, &mut buffers, &mut Scratch::new(alloc))
}

/// Reads a type that borrows nothing. Strings are copied only into the type. The input's bytes are
/// not kept.
///
/// Returns errors as [`from_slice_mut`] does.
pub fn from_slice_mut_owned<T: DeserializeOwned>(
    alloc: Global,
    input: &mut [u8],
) -> Result<T, ReadError>
    ensures read { IsTypedRead input.old default_max_depth result }
    ensures path { IfErr result (HasPathIn input.old) }
{
    let mut buffers = Buffers::empty(alloc, DEFAULT_MAX_DEPTH);
    from_slice_mut_owned_with(input, &mut buffers, &mut Scratch::new(alloc))
}

/// Reads a field of type `&str`, in less time than `serde` where much of it is not ASCII: it tests
/// UTF-8 by 64 bytes, not by characters.
///
/// ```
/// use serde::Deserialize;
///
/// #[derive(Drop, Deserialize)]
/// struct Tweet<'a> {
///     id: u64,
///     #[serde(deserialize_with = simd_json_serde::borrowed_str)]
///     text: &'a str,
/// }
/// ```
///
/// Returns an error where the value is no string, or can't be borrowed: by [`from_slice_mut`] and
/// [`from_slice_mut_with`] each string can be, from a tape none.
pub fn borrowed_str<'de, F: Format>(
    _alloc: Global,
    from: &mut Deserializer<'de, '_, F>,
) -> Result<&'de str, F::Error>
    ensures { IfOk result (λ text. Gives F.gives from.old (octets text.now) from.new) }
{
    match simdutf8::basic::from_utf8(from.borrowed_bytes()?) {
        Ok(text) => Ok(text),
        Err(_) => Err(from.invalid()),
    }
}

/// Reads a type that borrows nothing from the document of a tape.
///
/// Returns a [`Mismatch`] where it does not fit the type, the tape is empty, or an allocation
/// fails.
pub fn from_tape<T: DeserializeOwned>(
    alloc: Global,
    tape: &Tape<'_, Global>,
) -> Result<T, ReadError>
    ensures late { IsLate result }
    ensures path { (d : Document) → tape.now.nodes ≡ listing d
        → IfErr result (HasErrorPath d) }
{
    from_nodes(alloc, Nodes::Listed(tape.nodes()), &mut Vec::new(alloc))
}

/// Reads a type that borrows nothing from a value of a tape, as one that
/// [`pointer`](Value::pointer) leads to.
///
/// Returns a [`Mismatch`] where it does not fit the type, with its path from this value on, or an
/// allocation fails.
pub fn from_value<T: DeserializeOwned>(alloc: Global, value: &Value<'_, '_>) -> Result<T, ReadError>
    ensures late { IsLate result }
    ensures path { IfErr result (HasErrorPath (doc value.now)) }
{
    from_nodes(alloc, Nodes::Listed(value.nodes()), &mut Vec::new(alloc))
}

fn from_nodes<T: DeserializeOwned>(
    alloc: Global,
    nodes: Nodes<'_, '_>,
    outer: &mut Vec<usize>,
) -> Result<T, ReadError>
    ensures late { IsLate result }
    ensures path { (d : Document) → items_of nodes.entry ≡ listing d
        → IfErr result (HasErrorPath d) }
    ensures kept { (vec_capacity outer.old ≤ vec_capacity outer.new)
        ⊎ IfErr result IsNoMemory }
{
    let room = outer.capacity();
    let mut reader = NodeReader::of(nodes, std::mem::replace(outer, Vec::new(alloc)));
    let read = T::deserialize_owned(alloc, &mut Deserializer::new(&[], &mut reader));
    let name = reader.last_name();
    *outer = reader.into_outer();
    finish(alloc, located(alloc, read, nodes, name), outer, room)
}

/// The memory that [`from_slice_mut_with`] uses beside buffers: for the nodes of a document and for
/// the containers that are open. It grows as needed, and gives up no capacity;
/// [`reserve`](Scratch::reserve) makes it large enough at once.
#[derive(Drop)]
pub struct Scratch {
    pub(crate) alloc: Global,
    pub(crate) nodes: Vec<KeptNode>,
    pub(crate) outer: Vec<usize>,
}

impl Scratch {
    /// Without capacity. Allocates nothing.
    pub fn new(alloc: Global) -> Scratch
        ensures { input_capacity result ≡ 0 }
    {
        Scratch {
            alloc,
            nodes: Vec::new(alloc),
            outer: Vec::new(alloc),
        }
    }

    /// Reserves capacity for inputs of up to `input_len` bytes, 36 bytes for each. With as much
    /// in buffers, which their [`reserve`](Buffers::reserve) sees to, a read of such an input
    /// allocates what the type does, and nothing else.
    ///
    /// Returns an error if an allocation fails; what has been reserved by then stays.
    pub fn reserve(&mut self, input_len: usize) -> Result<(), AllocError>
        ensures enough { OnOk result (input_len ≤ input_capacity self.new) }
        ensures kept { input_capacity self.old ≤ input_capacity self.new }
        ensures nodes { node_capacity self.old ≤ node_capacity self.new }
        ensures fault { OnErr result (input_capacity self.old < input_len) }
    {
        self.nodes.clear();
        self.nodes.reserve(input_len)?;
        self.outer.clear();
        self.outer.reserve(input_len.div_ceil(2))
    }
}

/// Reads a type into kept memory. It may borrow its strings from `input`, as with
/// [`from_slice_mut`].
///
/// Returns errors as [`from_slice_mut`] does, with the depth limit of the buffers. After a
/// reservation for inputs as long, with [`Buffers::reserve`] and [`Scratch::reserve`], it allocates
/// what the type does, and nothing else: what it owns, a list for an array `[T; N]`, and for a
/// recursive type a box for each of 256 levels.
pub fn from_slice_mut_with<'de, T: Deserialize<'de>>(
    input: &'de mut [u8],
    buffers: &mut Buffers<Global>,
    scratch: &mut Scratch,
) -> Result<T, ReadError>
    ensures read { IsTypedRead input.old buffers.old.limit result }
    ensures path { IfErr result (HasPathIn input.old) }
    ensures kept { (input_capacity scratch.old ≤ input_capacity scratch.new)
        ⊎ IfErr result IsNoMemory }
    ensures nodes { node_capacity scratch.old ≤ node_capacity scratch.new }
    ensures buffers { (buffers.new.limit ≡ buffers.old.limit)
        × KeepsCapacities buffers.old buffers.new }
    ensures reserved { length input.old ≤ capacity buffers.old
        → length input.old ≤ node_capacity scratch.old → HasParseMemory result }
{
    let Scratch {
        alloc,
        nodes,
        outer,
    } = scratch;
    let alloc = *alloc;
    if let Err(e) = parse_in_place(input, buffers, nodes) {
        return Err(ReadError::Parse(e));
    }
    let text: &'de [u8] = input;
    let nodes = Nodes::Placed(PlacedNodes::new(nodes, text));
    from_nodes_in(alloc, text, nodes, outer)
}

/// Reads a type that borrows nothing, as [`from_slice_mut_with`] does. Strings are copied only into
/// the type.
pub fn from_slice_mut_owned_with<T: DeserializeOwned>(
    input: &mut [u8],
    buffers: &mut Buffers<Global>,
    scratch: &mut Scratch,
) -> Result<T, ReadError>
    ensures read { IsTypedRead input.old buffers.old.limit result }
    ensures path { IfErr result (HasPathIn input.old) }
    ensures kept { (input_capacity scratch.old ≤ input_capacity scratch.new)
        ⊎ IfErr result IsNoMemory }
    ensures nodes { node_capacity scratch.old ≤ node_capacity scratch.new }
    ensures buffers { (buffers.new.limit ≡ buffers.old.limit)
        × KeepsCapacities buffers.old buffers.new }
    ensures reserved { length input.old ≤ capacity buffers.old
        → length input.old ≤ node_capacity scratch.old → HasParseMemory result }
{
    let Scratch {
        alloc,
        nodes,
        outer,
    } = scratch;
    let alloc = *alloc;
    if let Err(e) = parse_in_place(input, buffers, nodes) {
        return Err(ReadError::Parse(e));
    }
    from_nodes(alloc, Nodes::Placed(PlacedNodes::new(nodes, input)), outer)
}

// Reads a type that may borrow its strings from the input in which those of the nodes lie.
fn from_nodes_in<'de, T: Deserialize<'de>>(
    alloc: Global,
    input: &'de [u8],
    nodes: Nodes<'_, '_>,
    outer: &mut Vec<usize>,
) -> Result<T, ReadError>
    ensures late { IsLate result }
    ensures path { (d : Document) → items_of nodes.entry ≡ listing d
        → IfErr result (HasErrorPath d) }
    ensures kept { (vec_capacity outer.old ≤ vec_capacity outer.new)
        ⊎ IfErr result IsNoMemory }
{
    let room = outer.capacity();
    let mut reader = NodeReader::of(nodes, std::mem::replace(outer, Vec::new(alloc)));
    let read = T::deserialize(alloc, &mut Deserializer::new(input, &mut reader));
    let name = reader.last_name();
    *outer = reader.into_outer();
    finish(alloc, located(alloc, read, nodes, name), outer, room)
}

// The read, if the list has its capacity. A reader gives up none; but a type's own code had it, of
// which nothing is known.
fn finish<T: Drop>(
    alloc: Global,
    read: Result<T, ReadError>,
    outer: &mut Vec<usize>,
    room: usize,
) -> Result<T, ReadError>
    ensures late { IsLate read → IsLate result }
    ensures path { (d : Document) → IfErr read (HasErrorPath d) → IfErr result (HasErrorPath d) }
    ensures kept { (room ≤ vec_capacity outer.new) ⊎ IfErr result IsNoMemory }
{
    if outer.capacity() < room {
        outer.clear();
        if outer.reserve(room).is_err() {
            return Err(ReadError::no_memory(alloc));
        }
    }
    read
}

// The read, with the path of a value that does not fit.
#[inline]
fn located<T>(
    alloc: Global,
    read: Result<T, StepFault>,
    nodes: Nodes<'_, '_>,
    name: FaultName,
) -> Result<T, ReadError>
    ensures late { IsLate result }
    ensures path { (d : Document) → items_of nodes.entry ≡ listing d
        → IfErr result (HasErrorPath d) }
    ensures same { result_ok result ≡ result_ok read }
{
    match read {
        Ok(value) => Ok(value),
        Err(fault) => Err(ReadError::Mismatch(Mismatch::new(alloc, fault, name, nodes))),
    }
}
