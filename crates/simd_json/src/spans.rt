//! The entry point that writes nodes to a sink whose texts stay in the input.
ghost use Rattle.std.specs.Prelude.{◌≡◌, ◌≤◌, [], map, IfErr, None};
ghost use Rattle.std.specs.List.{All};
ghost use Rattle.std.specs.Result.{result_err};
ghost use Rattle.simd_json.specs.Parsed.{IsParse, nodes_written};
ghost use Rattle.simd_json.specs.Capacities.{KeepsCapacities, capacity};
ghost use Rattle.simd_json_parts.specs.Limits.{max_length};
ghost use Rattle.simd_json_stages.specs.Placed.{LiesIn};

use crate::buffers::Buffers;
use simd_json_parts::error::Result;
use simd_json_stages::stage2::{SpanSink, build_spans};
use std::alloc::Allocator;
use std::marker::Brand;

/// Reads a document as [`fill_tape`](crate::fill_tape) does, and writes its nodes to an empty sink
/// in place of a tape: to a form of the caller's own, in one pass. The sink has room for
/// 4,294,967,295 nodes, since no document has more. It gets each text and the index where that
/// begins, and keeps no reference to it. So `s` is the caller's again after the call, and the texts
/// are borrowed from there: a string or a key with its escapes decoded, without quotes, and the
/// literal of a number with a fraction or an exponent. [`SpanSink`] has an example.
///
/// The errors are those of [`to_tape`](crate::to_tape). After one without a character sink and
/// input are as they were; after another the sink may hold nodes that were written before the
/// error, and their texts lie in `s`. Other bytes of `s` are unspecified. In any case room of the
/// sink and what it borrows stay the same. If the buffers have capacity for as many bytes as `s`
/// has, `OutOfMemory` is not returned.
#[inline(always)]
pub fn fill_spans<S: SpanSink, A: Allocator>(
    s: &mut [u8],
    buffers: &mut Buffers<A>,
    sink: &mut S,
) -> Result<()>
    requires room { max_length ≤ S.node_room sink.old }
    requires empty { S.placed sink.old ≡ [] }
    ensures parse { IsParse s.old buffers.old.limit (capacity buffers.old) (result_err result)
        (nodes_written result (map (λ p. p.item) (S.placed sink.new))) buffers.new.index.listed }
    ensures texts { All (LiesIn s.new) (S.placed sink.new) }
    ensures unread { IfErr result
        (λ e. e.character ≡ None → (sink.new ≡ sink.old) × (s.new ≡ s.old)) }
    ensures lender { S.lender sink.new ≡ S.lender sink.old }
    ensures room { S.node_room sink.new ≡ S.node_room sink.old }
    ensures limit { buffers.new.limit ≡ buffers.old.limit }
    ensures capacities { KeepsCapacities buffers.old buffers.new }
{
    buffers.find_positions(s)?;
    build_spans::<Brand, S>(
        s,
        buffers.index.scanned(),
        buffers.stack.as_mut_slice(),
        &mut buffers.few,
        sink,
        buffers.max_depth,
    )
}
