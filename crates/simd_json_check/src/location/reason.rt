//! Why an input is rejected, in words.

/// Why an input is rejected: what was expected at the place of the error, and the byte that was
/// found there.
#[derive(Debug, Clone, Copy, PartialEq, Eq)]
pub enum Reason {
    /// The input has more than 4,294,967,295 bytes.
    TooLarge,
    /// The padded form was given fewer than 64 bytes after the document.
    TooLittlePadding,
    /// An allocation failed.
    OutOfMemory,
    /// No UTF-8 character begins with this byte and those after it (RFC 3629).
    NotUtf8(u8),
    /// A string holds this byte, which is below 0x20 (RFC 8259, section 7).
    ControlCharacter(u8),
    /// A string is left open.
    OpenString,
    /// There is nothing but whitespace.
    Blank,
    /// The input begins with U+FEFF (RFC 8259, section 8.1).
    ByteOrderMark,
    /// There is more text after the document.
    MoreText,
    /// The input ends within the document, after the token at the place.
    EndOfInput,
    /// A value was expected.
    ExpectedValue(u8),
    /// A `,` or a `]` was expected after an element.
    ExpectedElementEnd(u8),
    /// A key or a `}` was expected at the start of an object.
    ExpectedFirstKey(u8),
    /// A `,` or a `}` was expected after a member.
    ExpectedMemberEnd(u8),
    /// A key was expected after a `,`.
    ExpectedKey(u8),
    /// A `:` was expected after a key.
    ExpectedColon(u8),
    /// `true` was expected.
    ExpectedTrue,
    /// `false` was expected.
    ExpectedFalse,
    /// `null` was expected.
    ExpectedNull,
    /// An integer is below -2^127 or above 2^128 - 1.
    IntegerOutOfRange,
    /// A number is malformed (RFC 8259, section 6).
    MalformedNumber,
    /// A backslash is followed by this byte, which is not that of an escape (RFC 8259, section 7).
    UnknownEscape(u8),
    /// A `\u` is not followed by four hexadecimal digits.
    MalformedUnicodeEscape,
    /// A `\u` escape is half of a surrogate pair.
    LoneSurrogate,
    /// A container is opened while as many are open as the limit allows.
    TooDeep,
    /// The error is of a kind that no parse of a tape returns.
    Other,
}
