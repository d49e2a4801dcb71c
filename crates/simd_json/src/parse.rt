//! The entry points that make a tape. Each finds the structural indexes of its input into the
//! buffers (`find_positions`), and then builds nodes from them (`build`).
ghost use Rattle.std.specs.Prelude.{◌≡◌, ◌≢◌, ◌≤◌, ◌<◌, [], ℕ, List, length, map, vec_capacity};
ghost use Rattle.std.specs.Prelude.{IfErr, IfOk, OnOk, OnErr, None, Err, ◌⊎◌};
ghost use Rattle.std.specs.Result.{result_err};
ghost use Rattle.simd_json.specs.Parsed.{IsPaddedParse, IsParse, IsParseResult, nodes_of};
ghost use Rattle.simd_json.specs.Parsed.{HasMemory};
ghost use Rattle.simd_json.specs.Capacities.{HoldsScan, KeepsCapacities, ListsSame, capacity};
ghost use Rattle.simd_json.specs.Capacities.{with_room};
ghost use Rattle.simd_json_stages.specs.Capacities.{IsOutOfMemory, LacksMemory, capped};
ghost use Rattle.simd_json_stages.specs.Capacities.{default_max_depth};
ghost use Rattle.simd_json.specs.Reserved.{IsReserved, parse_capacity};
ghost use Rattle.simd_json_parts.specs.Descent.{descent};
ghost use Rattle.simd_json_parts.specs.Limits.{max_length};
ghost use Rattle.simd_json_parts.specs.Nodes.{Item, item_of};
ghost use Rattle.simd_json_parts.specs.Positions.{positions};
ghost use Rattle.simd_json_stages.specs.Building.{IsWritten};
ghost use Rattle.simd_json_stages.specs.NodesEnough.{nodes_enough};
ghost use Rattle.simd_json_stages.specs.Rejections.{IsTokenFault};

use crate::buffers::Buffers;
use crate::tape::Tape;
use crate::{DEFAULT_MAX_DEPTH, INPUT_PADDING};
use simd_json_parts::error::{Error, ErrorType, Result};
use simd_json_parts::node::Node;
use simd_json_stages::stage2::{Original, build_tape, nodes_enough};
use std::alloc::Allocator;
use std::marker::Brand;

/// Reads the bytes of one document (RFC 8259) as a tape, with at most [`DEFAULT_MAX_DEPTH`]
/// containers open at a time.
///
/// Returns the first error if the bytes are not such a document, in this order:
///
/// - Errors of the whole input, reported at index 0 and without a character, before any token is
///   read: `InputTooLarge` for more than 4,294,967,295 bytes, `InvalidUtf8` if they are not UTF-8,
///   `Syntax` if a string is left open or has a byte below 0x20 inside (section 7), `Eof` if there
///   is nothing but whitespace.
/// - The first token that is rejected, from the left, with an index and the character there:
///   `InternalError`, `ExpectedArrayContent`, `ExpectedObjectContent`, `ExpectedObjectKey`,
///   `ExpectedObjectColon` or `TrailingData` where another token is expected (sections 2, 4 and 5),
///   `Syntax` where none is left, `ExpectedTrue`, `ExpectedFalse` or `ExpectedNull` (section 3),
///   `InvalidNumber` (section 6), `InvalidEscape` at a backslash, with the byte after it, and
///   `InvalidUnicodeCodepoint` at a backslash, with the character `u` (section 7), and
///   `DepthLimitExceeded` at the bracket that opens a container beyond the limit (section 9).
///
/// `OutOfMemory`, at index 0 and without a character, is returned if an allocation fails, and only
/// if size and encoding are right. After an error there is no tape, and the contents of `s` are
/// unspecified.
///
/// ```
/// fn first_len(rt: &impl AllocGlobal) -> simd_json::Result<usize> {
///     let mut input = *b"[1,[2,3],4]";
///     let tape = simd_json::to_tape(rt.alloc(), &mut input)?;
///     Ok(tape.nodes().len())
/// }
/// ```
pub fn to_tape<'de, A: Allocator + Copy>(a: A, s: &'de mut [u8]) -> Result<Tape<'de, A>>
    ensures parse { IsParseResult s.old default_max_depth 0
        (result_err result) (nodes_of result) }
    ensures some { IfOk result (λ tape. tape.nodes ≢ []) }
{
    let mut buffers = Buffers::empty(a, DEFAULT_MAX_DEPTH);
    to_tape_with_buffers(s, &mut buffers)
}

/// Reads a document as [`to_tape`] does, but within the depth limit of the buffers and with their
/// lists. The tape takes its memory from the allocator of the buffers.
///
/// The errors are those of [`to_tape`]. After one without a character `structural_indexes` of the
/// buffers is empty; otherwise it lists the structural indexes of `s`. The buffers can be used
/// again after every call.
///
/// ```
/// use simd_json::{Buffers, to_tape_with_buffers};
///
/// fn count_positions(rt: &impl AllocGlobal) -> simd_json::Result<usize> {
///     let mut input = *b"[1,[2,3],4]";
///     let mut buffers = Buffers::with_max_depth(rt.alloc(), input.len(), 2)?;
///     let _tape = to_tape_with_buffers(&mut input, &mut buffers)?;
///     Ok(buffers.structural_indexes().len())
/// }
/// ```
pub fn to_tape_with_buffers<'de, A: Allocator + Copy>(
    s: &'de mut [u8],
    buffers: &mut Buffers<A>,
) -> Result<Tape<'de, A>>
    ensures parse { IsParse s.old buffers.old.limit 0
        (result_err result) (nodes_of result) buffers.new.index.listed }
    ensures some { IfOk result (λ tape. tape.nodes ≢ []) }
    ensures limit { buffers.new.limit ≡ buffers.old.limit }
    ensures capacities { KeepsCapacities buffers.old buffers.new }
{
    let mut tape = Tape::empty(*buffers.stack.allocator());
    fill_tape(s, buffers, &mut tape)?;
    Ok(tape)
}

/// Reads a document into a tape that is there already, within the depth limit of the buffers and
/// with their lists. What buffers and tape held before does not matter.
///
/// The errors are those of [`to_tape`]. After one the tape is empty. After one without a character
/// `structural_indexes` of the buffers is empty too; otherwise it lists the structural indexes of
/// `s`. Buffers and tape can be used again after every call.
///
/// If buffers and tape have capacity for as many bytes as `s` has, as after [`reserve`],
/// `OutOfMemory` is not returned. No parse gives up capacity.
///
/// ```
/// use simd_json::{Buffers, Tape, fill_tape, reserve};
///
/// fn count_nodes(rt: &impl AllocGlobal, log: &mut [u8]) -> simd_json::Result<usize> {
///     let mut buffers = Buffers::new(rt.alloc(), 0)?;
///     let mut tape = Tape::null(rt.alloc())?;
///     reserve(log.len(), &mut buffers, &mut tape)?;
///     let mut nodes = 0usize;
///     for line in log.split_mut(|byte| *byte == b'\n') {
///         fill_tape(line, &mut buffers, &mut tape)?;
///         nodes = nodes.saturating_add(tape.nodes().len());
///     }
///     Ok(nodes)
/// }
/// ```
pub fn fill_tape<'de, A: Allocator, B: Allocator>(
    s: &'de mut [u8],
    buffers: &mut Buffers<A>,
    tape: &mut Tape<'de, B>,
) -> Result<()>
    ensures parse { IsParse s.old buffers.old.limit (parse_capacity buffers.old tape.old)
        (result_err result) tape.new.nodes buffers.new.index.listed }
    ensures some { OnOk result (tape.new.nodes ≢ []) }
    ensures limit { buffers.new.limit ≡ buffers.old.limit }
    ensures capacities { KeepsCapacities buffers.old buffers.new
        × (tape.old.capacity ≤ tape.new.capacity) }
{
    tape.clear();
    buffers.find_positions(s)?;
    let positions = buffers.index.scanned().structural_indexes.len();
    if let Err(e) = tape.reserve(nodes_enough(positions, buffers.max_depth)) {
        buffers.clear();
        return Err(e);
    }
    build::<Brand, A, B>(s, buffers, &mut tape.list)
}

/// Reads the document in the first `len` bytes of `s` into a tape, as [`fill_tape`] does, if at
/// least [`INPUT_PADDING`] bytes follow it. What these hold does not matter, and they stay as they
/// are.
///
/// If fewer follow, it returns `InsufficientPadding` at index 0 and without a character, before
/// anything is read. The other errors are those of [`to_tape`] on the document. Tape and buffers
/// are left as by [`fill_tape`].
///
/// ```
/// use simd_json::{Buffers, INPUT_PADDING, Tape, fill_tape_padded};
///
/// fn read_padded(rt: &impl AllocGlobal) -> simd_json::Result<usize> {
///     let mut input = [b'1'; 2 + INPUT_PADDING];
///     let mut buffers = Buffers::new(rt.alloc(), 2)?;
///     let mut tape = Tape::null(rt.alloc())?;
///     fill_tape_padded(&mut input, 2, &mut buffers, &mut tape)?;
///     Ok(tape.nodes().len())
/// }
/// ```
pub fn fill_tape_padded<'de, A: Allocator, B: Allocator>(
    s: &'de mut [u8],
    len: usize,
    buffers: &mut Buffers<A>,
    tape: &mut Tape<'de, B>,
) -> Result<()>
    ensures parse { IsPaddedParse s.old len buffers.old.limit (parse_capacity buffers.old tape.old)
        (result_err result) tape.new.nodes buffers.new.index.listed }
    ensures some { OnOk result (tape.new.nodes ≢ []) }
    ensures limit { buffers.new.limit ≡ buffers.old.limit }
    ensures capacities { KeepsCapacities buffers.old buffers.new
        × (tape.old.capacity ≤ tape.new.capacity) }
{
    if s.len().saturating_sub(len) < INPUT_PADDING {
        buffers.clear();
        tape.clear();
        return Err(Error::generic(ErrorType::InsufficientPadding));
    }
    let (document, _) = s.split_at_mut(len);
    fill_tape(document, buffers, tape)
}

/// Reads a document as [`fill_tape`] does, into the memory of a tape of another lifetime. Returns
/// the result and a tape of this lifetime, with the capacity of the other and of what the parse
/// reserved. So a loop can read each of its inputs into one buffer; with `fill_tape` they would all
/// have to live at the same time.
///
/// The errors are those of [`to_tape`]; after one the tape is empty. The tape borrows from `s`,
/// which can be written again once the tape is [`reset`](Tape::reset) or dropped. A reservation
/// outlives all of this.
///
/// ```
/// use simd_json::{Buffers, Tape, refill_tape, reserve};
///
/// fn count_in_place(rt: &impl AllocGlobal) -> simd_json::Result<usize> {
///     let mut buffers = Buffers::new(rt.alloc(), 0)?;
///     let mut kept = Tape::null(rt.alloc())?;
///     reserve(5, &mut buffers, &mut kept)?;
///     let mut nodes = 0usize;
///     let mut input = [0u8; 5];
///     for digit in b'0'..=b'9' {
///         input.copy_from_slice(&[b'[', digit, b',', digit, b']']);
///         let (result, tape) = refill_tape(&mut input, &mut buffers, kept);
///         result?;
///         nodes = nodes.saturating_add(tape.nodes().len());
///         kept = tape.reset();
///     }
///     Ok(nodes)
/// }
/// ```
pub fn refill_tape<'de, A: Allocator, B: Allocator>(
    s: &'de mut [u8],
    buffers: &mut Buffers<A>,
    tape: Tape<'_, B>,
) -> (Result<()>, Tape<'de, B>)
    ensures parse { IsParse s.old buffers.old.limit (parse_capacity buffers.old tape.entry)
        (result_err result.0) result.1.nodes buffers.new.index.listed }
    ensures some { OnOk result.0 (result.1.nodes ≢ []) }
    ensures limit { buffers.new.limit ≡ buffers.old.limit }
    ensures capacities { KeepsCapacities buffers.old buffers.new
        × (tape.entry.capacity ≤ result.1.capacity) }
    ensures reserved { (len : ℕ) → IsReserved len buffers.old tape.entry
        → IsReserved len buffers.new result.1
        × (length s.old ≤ len → HasMemory (result_err result.0)) }
{
    let mut tape = tape.reset();
    let answer = fill_tape(s, buffers, &mut tape);
    (answer, tape)
}

/// Reserves capacity in buffers and tape for inputs of up to `input_len` bytes (more than
/// 4,294,967,295 count as that number): after it no parse of such an input with both of them
/// returns `OutOfMemory`, however many follow, and whether or not the tape is reset between them.
/// What is listed stays, and so does capacity.
///
/// It takes about 28 bytes for each byte of `input_len`, and 48 for each container that may be
/// open, and nothing where there is as much capacity. Returns `OutOfMemory` if an allocation fails;
/// what has been reserved by then stays, and the tape is as it was.
///
/// ```
/// use simd_json::{Buffers, Tape, fill_tape, reserve};
///
/// fn read_twice(rt: &impl AllocGlobal) -> simd_json::Result<usize> {
///     let (mut first, mut second) = (*b"[1,2]", *b"[[3]]");
///     let mut buffers = Buffers::empty(rt.alloc(), 2);
///     let mut tape = Tape::null(rt.alloc())?;
///     reserve(5, &mut buffers, &mut tape)?;
///     fill_tape(&mut first, &mut buffers, &mut tape)?;
///     fill_tape(&mut second, &mut buffers, &mut tape)?;
///     Ok(tape.nodes().len())
/// }
/// ```
pub fn reserve<A: Allocator, B: Allocator>(
    input_len: usize,
    buffers: &mut Buffers<A>,
    tape: &mut Tape<'_, B>,
) -> Result<()>
    ensures reserved { OnOk result (IsReserved input_len buffers.new tape.new) }
    ensures capacity { OnOk result (capped input_len ≤ parse_capacity buffers.new tape.new) }
    ensures exact { OnOk result (buffers.new ≡ with_room (capped input_len) buffers.old) }
    ensures same { ListsSame buffers.old buffers.new × (tape.new.nodes ≡ tape.old.nodes) }
    ensures kept { KeepsCapacities buffers.old buffers.new
        × (tape.old.capacity ≤ tape.new.capacity) }
    ensures enough { capped input_len ≤ parse_capacity buffers.old tape.old
        → (buffers.new ≡ buffers.old) × (tape.new ≡ tape.old) }
    ensures failed { OnErr result (tape.new ≡ tape.old) }
    ensures fault { IfErr result (λ e. IsOutOfMemory e
        × (parse_capacity buffers.old tape.old < capped input_len)) }
{
    buffers.reserve(input_len)?;
    let positions = input_len.min(u32::MAX as usize);
    tape.reserve(nodes_enough(positions, buffers.max_depth))
}

// Runs the second stage into a list with enough capacity. After an error the list is empty. All
// that takes the list is inlined, so that the pointer to it stays in a register.
#[inline(never)]
fn build<'de, K: Original, A: Allocator, B: Allocator>(
    s: &'de mut [u8],
    buffers: &mut Buffers<A>,
    list: &mut Vec<Node<'de>, B>,
) -> Result<()>
    requires input { s.old ≡ K.bytes }
    requires scanned { HoldsScan K.bytes buffers.old }
    requires room { nodes_enough (length (positions K.bytes)) buffers.old.limit
        ≤ vec_capacity list.old }
    requires empty { list.old.items ≡ [] }
    ensures built { OnOk result (IsWritten K.bytes buffers.old.limit (map item_of list.new.items)) }
    ensures few { OnOk result
        (length (map item_of list.new.items) ≤ length (positions K.bytes)) }
    ensures empty { OnErr result (map item_of list.new.items ≡ []) }
    ensures kept { buffers.new ≡ buffers.old }
    ensures capacity { vec_capacity list.new ≡ vec_capacity list.old }
    ensures rejected { IfErr result
        (λ e. IsTokenFault e × (descent K.bytes buffers.old.limit ≡ Err e)) }
{
    let built = build_tape::<K, Node<'de>, B>(
        s,
        buffers.index.scanned(),
        buffers.stack.as_mut_slice(),
        &mut buffers.few,
        list,
        buffers.max_depth,
    );
    match built {
        Ok(()) => Ok(()),
        Err(e) => {
            list.clear();
            Err(e)
        }
    }
}
