//! The printed text of a value: compact, or pretty with a line for each member.
use crate::value::tape::Value;
use simd_json_parts::error::Result;
use simd_json_print::document::{Layout, append, write};
use std::alloc::Allocator;
use std::io;
use std::io::Write;

impl Value<'_, '_> {
    ghost use Rattle.std.specs.Prelude.{◌≡◌, ℕ, take, string_bytes, IfOk, IfErr, OnOk, OnErr};
    ghost use Rattle.std.specs.Io.KnownBytes.{Appends};
    ghost use Rattle.simd_json_stages.specs.Capacities.{IsOutOfMemory};
    ghost use Rattle.simd_json.specs.PrintedAgain.{DenotesEqual};
    ghost use Rattle.simd_json.specs.Viewed.{doc};
    ghost use Rattle.simd_json_parts.specs.Printed.{compact, pretty};
    ghost use Rattle.simd_json_print.specs.Layout.{printed};

    /// The compact text of the value: a JSON text (RFC 8259) with no whitespace between its tokens.
    ///
    /// A decimal is printed as its literal, an integer as its digits, with `-` before a negative
    /// one. In strings and keys only quotes, backslashes and bytes below 0x20 are escaped (section
    /// 7). The text denotes a value that is equal to this one and nests as deep, so parsed again it
    /// is that value.
    ///
    /// It takes the same stack however deep the value is nested: past 64 open containers each takes
    /// 8 bytes of a list, which is freed before the call returns.
    ///
    /// Returns `OutOfMemory`, at index 0 without a character, if an allocation fails, and no other
    /// error.
    ///
    /// ```
    /// fn shortened(rt: &impl AllocGlobal) -> simd_json::Result<String> {
    ///     let mut input = *b" { \"sizes\" : [ 1, 2.50 ] } ";
    ///     let tape = simd_json::to_tape(rt.alloc(), &mut input)?;
    ///     // {"sizes":[1,2.50]}
    ///     tape.as_value().encode(rt.alloc())
    /// }
    /// ```
    pub fn encode<A: Allocator + Copy>(&self, a: A) -> Result<String<A>>
        ensures text { IfOk result (λ text. string_bytes text ≡ compact (doc self.now)) }
        ensures denoted { IfOk result (λ text. DenotesEqual (string_bytes text) (doc self.now)) }
        ensures fault { IfErr result IsOutOfMemory }
    {
        self.encode_as(a, Layout::Compact)
    }

    /// The pretty text of the value: as [`encode`](Value::encode), but each member is on a line of
    /// its own, indented by two spaces for each open container, with `: ` between a key and its
    /// value. Lines end with 0x0A, except the last one.
    ///
    /// Returns `OutOfMemory`, at index 0 without a character, if an allocation fails, and no other
    /// error.
    ///
    /// ```
    /// fn on_lines(rt: &impl AllocGlobal) -> simd_json::Result<String> {
    ///     let mut input = *b"{\"sizes\":[1]}";
    ///     let tape = simd_json::to_tape(rt.alloc(), &mut input)?;
    ///     // {
    ///     //   "sizes": [
    ///     //     1
    ///     //   ]
    ///     // }
    ///     tape.as_value().encode_pp(rt.alloc())
    /// }
    /// ```
    pub fn encode_pp<A: Allocator + Copy>(&self, a: A) -> Result<String<A>>
        ensures text { IfOk result (λ text. string_bytes text ≡ pretty (doc self.now)) }
        ensures denoted { IfOk result (λ text. DenotesEqual (string_bytes text) (doc self.now)) }
        ensures fault { IfErr result IsOutOfMemory }
    {
        self.encode_as(a, Layout::Pretty)
    }

    #[inline(always)]
    fn encode_as<A: Allocator + Copy>(&self, a: A, layout: Layout) -> Result<String<A>>
        ensures text { IfOk result (λ text. string_bytes text ≡ printed layout (doc self.now)) }
        ensures denoted { IfOk result (λ text. DenotesEqual (string_bytes text) (doc self.now)) }
        ensures fault { IfErr result IsOutOfMemory }
    {
        let mut text = Vec::new(a);
        append(&mut text, self.nodes(), layout, &mut Vec::new(a))?;
        Ok(unsafe { String::from_utf8_unchecked(text) })
    }

    /// Writes the text of [`encode`](Value::encode). Allocates nothing.
    ///
    /// Each open container takes about 11 bytes of the stack while it is printed, so 8 MB are
    /// enough for 780,000 nested arrays. The depth limit of the parse bounds their number.
    ///
    /// Returns the writer's first error, also `Interrupted`, or one of kind `WriteZero` if the
    /// writer takes 0 bytes of a non-empty buffer. What was written by then is a prefix of the
    /// text.
    ///
    /// ```
    /// use simd_json::tape::Value;
    /// use std::io;
    /// use std::io::Write;
    ///
    /// fn write_line<W: Write>(value: &Value<'_, '_>, writer: &mut W) -> io::Result<()> {
    ///     value.write(writer)?;
    ///     writer.write_all(b"\n")
    /// }
    /// ```
    pub fn write<W: Write>(&self, w: &mut W) -> io::Result<()>
        ensures written { OnOk result
            (Appends (W.contents w.old) (W.contents w.new) (compact (doc self.now))) }
        ensures begun { OnErr result ((count : ℕ)
            × Appends (W.contents w.old) (W.contents w.new)
            (take count (compact (doc self.now)))) }
    {
        write(w, self.nodes(), Layout::Compact)
    }

    /// Writes the text of [`encode_pp`](Value::encode_pp). Allocates nothing, and takes as much
    /// stack as [`write`](Value::write).
    ///
    /// The errors are those of [`write`](Value::write), and leave a prefix of this text.
    ///
    /// ```
    /// use simd_json::tape::Value;
    /// use std::io;
    ///
    /// fn pretty_bytes(rt: &impl AllocGlobal, value: &Value<'_, '_>) -> io::Result<Vec<u8>> {
    ///     let mut bytes = Vec::new(rt.alloc());
    ///     value.write_pp(&mut bytes)?;
    ///     Ok(bytes)
    /// }
    /// ```
    pub fn write_pp<W: Write>(&self, w: &mut W) -> io::Result<()>
        ensures written { OnOk result
            (Appends (W.contents w.old) (W.contents w.new) (pretty (doc self.now))) }
        ensures begun { OnErr result ((count : ℕ)
            × Appends (W.contents w.old) (W.contents w.new)
            (take count (pretty (doc self.now)))) }
    {
        write(w, self.nodes(), Layout::Pretty)
    }
}
