//! Writing: the text of a value. The toolchain's `serde_json` makes it, and it is returned if it is
//! a document.
ghost use Rattle.std.specs.Prelude.{◌≡◌, ℕ, false, true, take, string_bytes, IfOk, OnOk, OnErr};
ghost use Rattle.std.specs.Io.KnownBytes.{Appends};
ghost use Rattle.simd_json_serde.specs.Outcomes.{IsDocument};
ghost use Rattle.simd_json_serde.specs.WrittenOut.{IsPrinted, WritesText, any_depth};

use crate::write_error::WriteError;
use serde::Serialize;
use simd_json_check::Checker;
use simd_json_print::text::Text;
use std::alloc::Global;
use std::io;
use std::io::Write;

/// The compact text of a value, as UTF-8 bytes (RFC 8259).
///
/// Returns an error if a key is no string, number or truth value, a flattened value is no object,
/// or an allocation fails; or the type's own error.
pub fn to_vec<T: Serialize>(alloc: Global, value: &T) -> Result<Vec<u8>, WriteError>
    ensures { IfOk result (λ text. IsPrinted false (T.writes value.now) text.items) }
{
    checked(alloc, serde_json::to_vec(alloc, value)?)
}

/// The pretty text of a value, as UTF-8 bytes. Returns the errors of [`to_vec`].
pub fn to_vec_pretty<T: Serialize>(alloc: Global, value: &T) -> Result<Vec<u8>, WriteError>
    ensures { IfOk result (λ text. IsPrinted true (T.writes value.now) text.items) }
{
    checked(alloc, serde_json::to_vec_pretty(alloc, value)?)
}

// The text, if it is a document. No contract of `serde_json` says that of a type whose `Serialize`
// is derived, or written by hand.
fn checked(alloc: Global, text: Vec<u8>) -> Result<Vec<u8>, WriteError>
    ensures { IfOk result (λ t. (t ≡ text) × IsDocument t.items any_depth) }
{
    match Checker::empty(alloc).check(&text, usize::MAX) {
        Ok(()) => Ok(text),
        Err(e) => Err(WriteError::Text(e)),
    }
}

/// The compact text of a value. Returns the errors of [`to_vec`].
///
/// ```
/// use serde::Serialize;
/// use simd_json_serde::{WriteError, to_string};
/// use std::alloc::Global;
///
/// #[derive(Drop, Serialize)]
/// struct Line {
///     status: u16,
/// }
///
/// // {"status":200}
/// fn line(alloc: Global) -> Result<String, WriteError> {
///     to_string(alloc, &Line { status: 200 })
/// }
/// ```
pub fn to_string<T: Serialize>(alloc: Global, value: &T) -> Result<String, WriteError>
    ensures { IfOk result
        (λ text. IsPrinted false (T.writes value.now) (string_bytes text)) }
{
    Ok(unsafe { String::from_utf8_unchecked(to_vec(alloc, value)?) })
}

/// The pretty text of a value. Returns the errors of [`to_vec`].
pub fn to_string_pretty<T: Serialize>(alloc: Global, value: &T) -> Result<String, WriteError>
    ensures { IfOk result
        (λ text. IsPrinted true (T.writes value.now) (string_bytes text)) }
{
    Ok(unsafe { String::from_utf8_unchecked(to_vec_pretty(alloc, value)?) })
}

/// Writes the compact text of a value. It is made as a whole first, so nothing is written of a
/// value that has none.
///
/// Returns the errors of [`to_vec`], and the writer's as [`WriteError::Io`].
pub fn to_writer<W: Write, T: Serialize>(
    alloc: Global,
    writer: &mut W,
    value: &T,
) -> Result<(), WriteError>
    ensures { WritesText (IsPrinted false (T.writes value.now)) result
        (W.contents writer.old) (W.contents writer.new) }
{
    let text = to_vec(alloc, value)?;
    write_all(writer, &text).map_err(WriteError::Io)
}

/// Writes the pretty text of a value, as [`to_writer`] does.
pub fn to_writer_pretty<W: Write, T: Serialize>(
    alloc: Global,
    writer: &mut W,
    value: &T,
) -> Result<(), WriteError>
    ensures { WritesText (IsPrinted true (T.writes value.now)) result
        (W.contents writer.old) (W.contents writer.new) }
{
    let text = to_vec_pretty(alloc, value)?;
    write_all(writer, &text).map_err(WriteError::Io)
}

// Stops at the writer's error, and where it takes 0 bytes.
fn write_all<W: Write>(writer: &mut W, bytes: &[u8]) -> io::Result<()>
    ensures written { OnOk result
        (Appends (W.contents writer.old) (W.contents writer.new) bytes.now) }
    ensures begun { OnErr result ((count : ℕ)
        × Appends (W.contents writer.old) (W.contents writer.new) (take count bytes.now)) }
{
    let mut out = Text::<W, 1>::new(writer);
    out.put(bytes);
    out.finish()
}
