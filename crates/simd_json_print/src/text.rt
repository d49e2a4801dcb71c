//! Buffered text output.
ghost use Rattle.std.specs.Prelude.{◌≡◌, ◌≢◌, ◌++◌, ℕ, ℤ, unsigned_abs, None, List, [], IfNone};
ghost use Rattle.std.specs.Prelude.{flat_map, is_some};
ghost use Rattle.std.specs.Fmt.{decimal, signed_decimal};
ghost use Rattle.simd_json_print.specs.Texts.{HasEnded};
ghost use Rattle.simd_json_parts.specs.Printed.{escaped_byte};
ghost use Rattle.simd_json_parts.specs.declared.node.StaticNode.TheVariants as fixed;

mod collected;

use crate::text::collected::Collected;
pub use crate::text::collected::store_bytes;
use itoa::{Buffer, Integer};
use simd_json_parts::node::StaticNode;
use std::io;
use std::io::{ErrorKind, Write};

/// A destination for text: any [`Write`], or a type that records whether a write failed, so that
/// contracts can speak of it.
// A contract over any `Write` can't state that a failure came from the writer.
pub trait Target {
    ghost use Rattle.simd_json_print.specs.Texts.{TargetState, Takes};

    ghost state: { Self → TargetState };

    /// Writes some of the bytes, from the first one on, and returns how many, as `Write::write`
    /// does.
    ///
    /// Returns the writer's error.
    fn take_some(&mut self, bytes: &[u8]) -> io::Result<usize>
        ensures { Takes (state self.old) (state self.new) result bytes.now };
}

impl<W: Write> Target for W {
    ghost state = { λ w. record { held = W.contents w; failed = None } };

    fn take_some(&mut self, bytes: &[u8]) -> io::Result<usize> {
        self.write(bytes)
    }
}

/// Buffered text output to a target. `SIZE` is the size of the buffer in bytes: it lies in the
/// value itself, and is written when it is full, and by [`flush`](Text::flush) and
/// [`finish`](Text::finish).
///
/// After the target fails, or writes 0 bytes of a non-empty buffer, it is not called again, and all
/// further text is dropped. Allocates nothing.
///
/// `front` and `back` are the text around a token, such as quotes, brackets or a comma: of at most
/// 8 bytes each they are put faster than by calls of their own.
///
/// ```
/// use simd_json_parts::node::StaticNode;
/// use simd_json_print::text::Text;
/// use std::io;
///
/// // Writes ["a\nb",-1] with the line feed as an escape.
/// fn pair(out: &mut Vec<u8>) -> io::Result<()> {
///     let mut text = Text::<_, 64>::new(out);
///     text.put_string(b"[\"", "a\nb", b"\",");
///     text.put_static(b"", StaticNode::I64(-1), b"]");
///     text.finish()
/// }
/// ```
// Errors wait for `finish`, so that the walk over a document need not test a result after each
// token.
#[derive(Drop)]
pub struct Text<'w, T: Target, const SIZE: usize> {
    target: &'w mut T,
    collected: Collected<SIZE>,
    fault: Option<io::Error>,
}

impl<'w, T: Target, const SIZE: usize> Text<'w, T, SIZE> {
    ghost use Rattle.simd_json_print.specs.Layout.{static_text};
    ghost use Rattle.simd_json_print.specs.Texts.{TargetState, Adds, HasGiven};

    /// An empty buffer in front of `target`.
    pub fn new(target: &'w mut T) -> Text<'w, T, SIZE>
        ensures same_target { result.target.ghost_name ≡ target.entry.ghost_name }
        ensures empty { HasGiven T.state (T.state target.old) result [] }
    {
        Text {
            target,
            collected: Collected::new(),
            fault: None,
        }
    }

    /// Appends bytes.
    #[inline(always)]
    pub fn put(&mut self, bytes: &[u8])
        ensures { Adds T.state self.old self.new bytes.now }
    {
        if !self.collected.collect(bytes) {
            self.put_past(bytes);
        }
    }

    // Appends bytes that do not fit; drops them after a failure.
    #[cold]
    #[inline(never)]
    fn put_past(&mut self, bytes: &[u8])
        ensures { Adds T.state self.old self.new bytes.now }
    {
        self.flush();
        if !self.collected.collect(bytes) && self.fault.is_none() {
            if let Err(fault) = write_all(self.target, bytes) {
                self.fault = Some(fault);
                self.collected.close();
            }
        }
    }

    /// Writes the text so far. If the target fails, [`finish`](Text::finish) returns its error.
    pub fn flush(&mut self)
        ensures emptied { IfNone self.new.fault (self.new.collected ≡ []) }
        ensures sent { Adds T.state self.old self.new [] }
    {
        if self.fault.is_some() {
            return;
        }
        match write_all(self.target, self.collected.as_slice()) {
            Ok(()) => self.collected.clear(),
            Err(fault) => {
                self.fault = Some(fault);
                self.collected.close();
            }
        }
    }

    /// Appends `front`, bytes and `back`.
    #[inline(always)]
    pub fn put_between(&mut self, front: &[u8], bytes: &[u8], back: &[u8])
        ensures { Adds T.state self.old self.new (front.now ++ (bytes.now ++ back.now)) }
    {
        if !self.collected.collect_few(front, bytes, back, false) {
            self.put_parts(front, bytes, back);
        }
    }

    // The same for any number of bytes, one part after the other.
    #[inline(never)]
    fn put_parts(&mut self, front: &[u8], bytes: &[u8], back: &[u8])
        ensures { Adds T.state self.old self.new (front.now ++ (bytes.now ++ back.now)) }
    {
        self.put(front);
        self.put(bytes);
        self.put(back);
    }

    /// Appends null, a truth value or an integer between `front` and `back`.
    #[inline(always)]
    pub fn put_static(&mut self, front: &[u8], value: StaticNode, back: &[u8])
        ensures { Adds T.state self.old self.new (front.now ++ (static_text value ++ back.now)) }
    {
        if let StaticNode::U64(number) = value {
            if !self.collected.collect_decimal(front, b"", number, back) {
                self.put_integer(front, number, back);
            }
        } else if let StaticNode::I64(number) = value {
            let minus = minus_of(number);
            if !self
                .collected
                .collect_decimal(front, minus, number.unsigned_abs(), back)
            {
                self.put_integer(front, number, back);
            }
        } else {
            self.put_word(front, value, back);
        }
    }

    // Any value but an integer of 64 bits. Not inlined, so that the kinds are a chain of tests and
    // not a jump table.
    #[inline(never)]
    fn put_word(&mut self, front: &[u8], value: StaticNode, back: &[u8])
        requires unsigned { (n : ℕ) → value ≢ fixed.U64 n }
        requires signed { (z : ℤ) → value ≢ fixed.I64 z }
        ensures { Adds T.state self.old self.new (front.now ++ (static_text value ++ back.now)) }
    {
        if let StaticNode::Bool(true) = value {
            self.put_between(front, b"true", back);
        } else if let StaticNode::Bool(false) = value {
            self.put_between(front, b"false", back);
        } else if let StaticNode::U128(number) = value {
            self.put_integer(front, number, back);
        } else if let StaticNode::I128(number) = value {
            self.put_integer(front, number, back);
        } else {
            self.put_between(front, b"null", back);
        }
    }

    // An integer of 128 bits, or one that might not fit. Its digits are made in a buffer of their
    // own and copied.
    #[cold]
    #[inline(never)]
    fn put_integer<I: Integer>(&mut self, front: &[u8], number: I, back: &[u8])
        ensures { Adds T.state self.old self.new (front.now ++ (I.text number ++ back.now)) }
    {
        let mut buffer = Buffer::new();
        self.put_parts(front, buffer.format(number).as_bytes(), back);
    }

    /// Appends a string with its escapes between `front` and `back`, which have the quotes.
    #[inline(always)]
    pub fn put_string(&mut self, front: &[u8], string: &str, back: &[u8])
        ensures { Adds T.state self.old self.new
            (front.now ++ (flat_map escaped_byte string.now ++ back.now)) }
    {
        let bytes = string.as_bytes();
        if !self.collected.collect_few(front, bytes, back, true) {
            self.put_escaped(front, bytes, back);
        }
    }

    // A string that is long, does not fit or needs escapes: run after run without escapes, each
    // with the byte after it, which needs an escape or does not fit. `collect_few` may have stored
    // a short one already; it is stored again.
    #[inline(never)]
    fn put_escaped(&mut self, front: &[u8], string: &[u8], back: &[u8])
        ensures { Adds T.state self.old self.new
            (front.now ++ (flat_map escaped_byte string.now ++ back.now)) }
    {
        self.put(front);
        let mut left = string;
        while !left.is_empty() && self.fault.is_none() {
            left = left.split_at(self.collected.collect_run(left)).1;
            if left.is_empty() {
                break;
            }
            self.put_byte(left[0]);
            left = left.split_at(1).1;
        }
        self.put(back);
    }

    // Any byte, escaped if it needs it.
    fn put_byte(&mut self, byte: u8)
        ensures { Adds T.state self.old self.new (escaped_byte byte) }
    {
        let letter = LETTERS[byte as usize];
        if letter == 0 {
            self.put(&[byte]);
        } else if letter == b'u' {
            let (tens, ones) = (DIGITS[(byte / 16) as usize], DIGITS[(byte % 16) as usize]);
            self.put(&[b'\\', b'u', b'0', b'0', tens, ones]);
        } else {
            self.put(&[b'\\', letter]);
        }
    }

    /// Whether the target has failed, so that further text is dropped. A failure is seen only when
    /// collected text is written.
    #[inline(always)]
    pub fn has_failed(&self) -> bool
        ensures { result ≡ is_some self.now.fault }
    {
        self.fault.is_some()
    }

    /// Writes the rest of the text.
    ///
    /// Returns the target's first error, of this or an earlier write, or one of kind `WriteZero`.
    /// What was written by then is a prefix of all text.
    pub fn finish(self) -> io::Result<()>
        ensures { (start : TargetState) (bytes : List ℕ) → HasGiven T.state start self.entry bytes
            → HasEnded result start (T.state self.exit.0.now) bytes }
    {
        let Text {
            target,
            collected,
            fault,
        } = self;
        if let Some(fault) = fault {
            return Err(fault);
        }
        write_all(target, collected.as_slice())
    }
}

#[inline(always)]
fn minus_of(number: i64) -> &'static [u8]
    ensures { signed_decimal number ≡ result.now ++ decimal (unsigned_abs number) }
{
    if number < 0 { b"-" } else { b"" }
}

// Stops at an error, and at a target that takes 0 bytes.
fn write_all<T: Target>(target: &mut T, bytes: &[u8]) -> io::Result<()>
    ensures { HasEnded result (T.state target.old) (T.state target.new) bytes.now }
{
    let mut left = bytes;
    while !left.is_empty() {
        match target.take_some(left) {
            Err(fault) => return Err(fault),
            Ok(0) => return Err(io::Error::from(ErrorKind::WriteZero)),
            Ok(taken) => left = left.split_at(taken).1,
        }
    }
    Ok(())
}

// The lower-case hexadecimal digits.
const DIGITS: [u8; 16] = *b"0123456789abcdef";

// The letter after the backslash of an escaped byte: `u` if its number follows, and 0 if the byte
// is not escaped.
const LETTERS: [u8; 256] = [
    b'u', b'u', b'u', b'u', b'u', b'u', b'u', b'u', b'b', b't', b'n', b'u', b'f', b'r', b'u', b'u',
    b'u', b'u', b'u', b'u', b'u', b'u', b'u', b'u', b'u', b'u', b'u', b'u', b'u', b'u', b'u', b'u',
    0, 0, b'"', 0, 0, 0, 0, 0, 0, 0, 0, 0, 0, 0, 0, 0, 0, 0, 0, 0, 0, 0, 0, 0, 0, 0, 0, 0, 0, 0, 0,
    0, 0, 0, 0, 0, 0, 0, 0, 0, 0, 0, 0, 0, 0, 0, 0, 0, 0, 0, 0, 0, 0, 0, 0, 0, 0, 0, 0, 0, b'\\',
    0, 0, 0, 0, 0, 0, 0, 0, 0, 0, 0, 0, 0, 0, 0, 0, 0, 0, 0, 0, 0, 0, 0, 0, 0, 0, 0, 0, 0, 0, 0, 0,
    0, 0, 0, 0, 0, 0, 0, 0, 0, 0, 0, 0, 0, 0, 0, 0, 0, 0, 0, 0, 0, 0, 0, 0, 0, 0, 0, 0, 0, 0, 0, 0,
    0, 0, 0, 0, 0, 0, 0, 0, 0, 0, 0, 0, 0, 0, 0, 0, 0, 0, 0, 0, 0, 0, 0, 0, 0, 0, 0, 0, 0, 0, 0, 0,
    0, 0, 0, 0, 0, 0, 0, 0, 0, 0, 0, 0, 0, 0, 0, 0, 0, 0, 0, 0, 0, 0, 0, 0, 0, 0, 0, 0, 0, 0, 0, 0,
    0, 0, 0, 0, 0, 0, 0, 0, 0, 0, 0, 0, 0, 0, 0, 0, 0, 0, 0, 0, 0, 0, 0, 0, 0, 0, 0, 0, 0, 0, 0, 0,
    0, 0, 0,
];
