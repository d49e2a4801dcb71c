//! Mode `lines`: the text of each line of the input. One set of lists serves all lines, and one
//! text is written.
//!
//! The parse of a line and the text of its error allocate before any byte of it is put. No contract
//! can say at which line an allocation failed, since the allocator is not seen from outside; tests
//! do.
ghost use Rattle.std.specs.Prelude.{◌≡◌, ◌≢◌, ◌++◌, ◌∷◌, [], false, is_some, string_bytes, IfOk};
ghost use Rattle.std.specs.Prelude.{IfErr, OnOk, OnErr, Err};
ghost use Rattle.std.specs.Io.KnownBytes.{Appends};
ghost use Rattle.jtape.specs.Output.{stream_output};
ghost use Rattle.jtape.specs.Pieces.{all_clean, answer_text, is_clean, piece_text, pieces};
ghost use Rattle.jtape.specs.Pieces.{pieces_text};
ghost use Rattle.jtape.specs.Runs.{lacks_memory};
ghost use Rattle.jtape.specs.Streams.{HasPut, StopsWithin};
ghost use Rattle.simd_json_parts.specs.Bytes.{line_feed};
ghost use Rattle.simd_json_parts.specs.declared.error.ErrorType.TheVariants as errors;
ghost use Rattle.simd_json_print.specs.Texts.{Adds};

use crate::output::PIECE;
use crate::runs::RunFault;
use memchr::memchr;
use programs::Channel;
use simd_json::{Buffers, Error, ErrorType, Tape, fill_tape};
use simd_json_parts::charutils::is_blank;
use simd_json_print::document::{Layout, Level, put};
use simd_json_print::text::{Target, Text};
use simd_json_stages::stage1::lengthen;
use std::alloc::{AllocError, Allocator};
use std::io::Write;

// Writes the text of each line, in the input's order, and returns whether each is clean: blank, or
// a document. If an allocation fails, the texts of all earlier lines are written first.
pub(crate) fn write_stream<A: Allocator + Copy, W: Write>(
    a: A,
    depth: usize,
    input: &mut [u8],
    writer: &mut Channel<W>,
) -> Result<bool, RunFault>
    requires { writer.old.failed ≡ false }
    ensures returned { OnOk result (result ≡ (stream_output depth input.old).returned) }
    ensures written { OnOk result ((writer.new.failed ≡ false)
        × Appends (W.contents writer.old.inner) (W.contents writer.new.inner)
        (stream_output depth input.old).bytes) }
    ensures fault { IfErr result (λ fault. StopsWithin fault writer.new.failed
        (W.contents writer.old.inner) (W.contents writer.new.inner) depth input.old) }
{
    let mut text = Text::<Channel<W>, PIECE>::new(writer);
    let put = put_stream(a, depth, input, &mut text);
    match text.finish() {
        Ok(()) => put,
        Err(_) => Err(RunFault::Write),
    }
}

// Puts the text of each line, and returns whether each is clean. It ends early if the target fails;
// the result is then unspecified. If an allocation fails, nothing of that line and later ones is
// put.
fn put_stream<A: Allocator + Copy, T: Target, const SIZE: usize>(
    a: A,
    depth: usize,
    input: &mut [u8],
    text: &mut Text<'_, T, SIZE>,
) -> Result<bool, RunFault>
    ensures clean { IfOk result (λ clean. is_some text.new.fault ≡ false
        → clean ≡ all_clean depth (pieces input.old)) }
    ensures put { OnOk result
        (Adds T.state text.old text.new (pieces_text depth (pieces input.old))) }
    ensures fault { IfErr result (λ fault. fault ≡ lacks_memory) }
    ensures stopped { OnErr result (HasPut T.state text.old text.new depth input.old) }
{
    let mut stream = Stream::new(a, depth)?;
    let mut all_clean = true;
    let mut rest = input;
    while let Some(end) = memchr(b'\n', rest) {
        let (piece, after) = rest.split_at_mut(end);
        let (_, more) = after.split_at_mut(1);
        all_clean &= stream.put(piece, text)?;
        if text.has_failed() {
            return Ok(false);
        }
        rest = more;
    }
    all_clean &= stream.put(rest, text)?;
    Ok(all_clean)
}

// The lists and texts that one line after another uses.
#[derive(Drop)]
struct Stream<'de, A: Allocator> {
    buffers: Buffers<A>,
    tape: Tape<'de, A>,
    levels: Vec<Level, A>,
    fault: String<A>,
}

impl<'de, A: Allocator + Copy> Stream<'de, A> {
    fn new(a: A, depth: usize) -> Result<Stream<'de, A>, RunFault>
        ensures made { IfOk result (λ stream. stream.buffers.limit ≡ depth) }
        ensures fault { IfErr result (λ fault. fault ≡ lacks_memory) }
    {
        Ok(Stream {
            buffers: Buffers::empty(a, depth),
            tape: Tape::null(a)?,
            levels: Vec::new(a),
            fault: String::new(a),
        })
    }
}

impl<'de, A: Allocator> Stream<'de, A> {
    // Puts the text of one line, and returns whether the line is clean. If an allocation fails,
    // nothing of it is put.
    fn put<T: Target, const SIZE: usize>(
        &mut self,
        piece: &'de mut [u8],
        text: &mut Text<'_, T, SIZE>,
    ) -> Result<bool, AllocError>
        ensures clean { IfOk result (λ clean. clean ≡ is_clean self.old.buffers.limit piece.old) }
        ensures put { OnOk result (Adds T.state text.old text.new
            (piece_text self.old.buffers.limit piece.old)) }
        ensures none { OnErr result (Adds T.state text.old text.new []) }
        ensures limit { self.new.buffers.limit ≡ self.old.buffers.limit }
    {
        if is_blank(piece) {
            return Ok(true);
        }
        match fill_tape(piece, &mut self.buffers, &mut self.tape) {
            Ok(()) => {
                let nodes = self.tape.nodes();
                let open = self.buffers.max_depth().min(nodes.len());
                lengthen(&mut self.levels, open, Level::EMPTY)?;
                put(text, nodes, Layout::Compact, &mut self.levels);
                text.put(b"\n");
                Ok(true)
            }
            Err(e) => {
                self.tell(&e)?;
                text.put(self.fault.as_bytes());
                Ok(false)
            }
        }
    }

    // Formats the line of an error before any of it is put. `OutOfMemory` becomes `AllocError`.
    fn tell(&mut self, e: &Error) -> Result<(), AllocError>
        ensures line { OnOk result (string_bytes self.new.fault
            ≡ answer_text (Err e.now) ++ line_feed ∷ []) }
        ensures told { OnOk result (e.now.error ≢ errors.OutOfMemory) }
        ensures limit { self.new.buffers.limit ≡ self.old.buffers.limit }
    {
        if *e.error() == ErrorType::OutOfMemory {
            return Err(AllocError);
        }
        self.fault.clear();
        writeln!(self.fault, "! {e}")
    }
}
