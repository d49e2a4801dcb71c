//! What is printed of a location and of a reason.
use super::{Location, Opened, Opening, Reason};
use simd_json_parts::error::ErrorType;
use std::fmt;

// A byte, as the visible character of ASCII that it is or by its number.
#[derive(Clone, Copy)]
struct Shown(u8);

impl fmt::Display for Shown {
    ghost use Rattle.std.specs.Prelude.{Some};
    ghost use Rattle.simd_json_check.specs.Messages.{shown};

    ghost output = { λ byte. Some (shown byte.0) };

    fn fmt<W: fmt::Write>(&self, f: &mut fmt::Formatter<W>) -> fmt::Result {
        let byte = self.0;
        if 32 < byte && byte < 127 {
            write!(f, "`{}`", char::from(byte))
        } else {
            write!(f, "byte {byte}")
        }
    }
}

// A control byte.
#[derive(Clone, Copy)]
struct Control(u8);

impl fmt::Display for Control {
    ghost use Rattle.std.specs.Prelude.{Some};
    ghost use Rattle.simd_json_check.specs.Messages.{control_text};

    ghost output = { λ control. Some (control_text control.0) };

    fn fmt<W: fmt::Write>(&self, f: &mut fmt::Formatter<W>) -> fmt::Result {
        match self.0 {
            b'\t' => f.write_str("a tab"),
            b'\n' => f.write_str("a line feed"),
            b'\r' => f.write_str("a carriage return"),
            c => write!(f, "control character {c}"),
        }
    }
}

impl fmt::Display for Opened {
    ghost use Rattle.std.specs.Prelude.{Some};
    ghost use Rattle.simd_json_check.specs.Messages.{opened_text};

    ghost output = { λ opened. Some (opened_text opened) };

    fn fmt<W: fmt::Write>(&self, f: &mut fmt::Formatter<W>) -> fmt::Result {
        f.write_str(match self {
            Opened::String => "string",
            Opened::Array => "array",
            Opened::Object => "object",
        })
    }
}

impl fmt::Display for Opening {
    ghost use Rattle.std.specs.Prelude.{Some};
    ghost use Rattle.simd_json_check.specs.Messages.{opening_text};

    ghost output = { λ opening. Some (opening_text opening) };

    fn fmt<W: fmt::Write>(&self, f: &mut fmt::Formatter<W>) -> fmt::Result {
        let Opening {
            opened,
            line,
            column,
        } = *self;
        write!(f, "the {opened} that begins at {line}:{column}")
    }
}

impl fmt::Display for Reason {
    ghost use Rattle.std.specs.Prelude.{Some};
    ghost use Rattle.simd_json_check.specs.Messages.{reason_text};

    ghost output = { λ reason. Some (reason_text reason) };

    fn fmt<W: fmt::Write>(&self, f: &mut fmt::Formatter<W>) -> fmt::Result {
        let text = match *self {
            Reason::NotUtf8(c) => return write!(f, "{} begins no UTF-8 character", Shown(c)),
            Reason::ControlCharacter(c) => return write!(f, "{} in a string", Control(c)),
            Reason::ExpectedValue(c) => return write!(f, "expected a value, found {}", Shown(c)),
            Reason::ExpectedElementEnd(c) => {
                return write!(
                    f,
                    "expected `,` or `]` after an element, found {}",
                    Shown(c)
                );
            }
            Reason::ExpectedFirstKey(c) => {
                return write!(f, "expected a key or `}}`, found {}", Shown(c));
            }
            Reason::ExpectedMemberEnd(c) => {
                return write!(f, "expected `,` or `}}` after a member, found {}", Shown(c));
            }
            Reason::ExpectedKey(c) => {
                return write!(f, "expected a key after `,`, found {}", Shown(c));
            }
            Reason::ExpectedColon(c) => {
                return write!(f, "expected `:` after a key, found {}", Shown(c));
            }
            Reason::UnknownEscape(c) => {
                return write!(
                    f,
                    "expected an escape after the backslash, found {}",
                    Shown(c)
                );
            }
            Reason::TooLarge => "more than 4294967295 bytes",
            Reason::TooLittlePadding => "fewer than 64 bytes after the document",
            Reason::OutOfMemory => "out of memory",
            Reason::OpenString => "the string that begins here has no end",
            Reason::Blank => "expected a value, found only whitespace",
            Reason::ByteOrderMark => "byte order mark",
            Reason::MoreText => "more text after the document",
            Reason::EndOfInput => "the input ends after this, within the document",
            Reason::ExpectedTrue => "expected `true`",
            Reason::ExpectedFalse => "expected `false`",
            Reason::ExpectedNull => "expected `null`",
            Reason::IntegerOutOfRange => "integer out of range",
            Reason::MalformedNumber => "malformed number",
            Reason::MalformedUnicodeEscape => "expected four hexadecimal digits after `\\u`",
            Reason::LoneSurrogate => "half of a surrogate pair",
            Reason::TooDeep => "one container more than the depth limit",
            Reason::Other => "an error of another kind",
        };
        f.write_str(text)
    }
}

/// Why an input is rejected, in words, with what is open there: [`Location::message`].
#[derive(Clone, Copy)]
pub struct Message {
    pub(super) reason: Reason,
    pub(super) opening: Option<Opening>,
}

impl fmt::Display for Message {
    ghost use Rattle.std.specs.Prelude.{Some};
    ghost use Rattle.simd_json_check.specs.Messages.{message_text};

    ghost output = { λ message. Some (message_text message.reason message.opening) };

    fn fmt<W: fmt::Write>(&self, f: &mut fmt::Formatter<W>) -> fmt::Result {
        match (self.reason, self.opening) {
            (Reason::ControlCharacter(c), Some(opening)) => {
                write!(f, "{} in {opening}", Control(c))
            }
            (Reason::EndOfInput, Some(opening)) => {
                write!(f, "the input ends after this, within {opening}")
            }
            (reason, _) => write!(f, "{reason}"),
        }
    }
}

/// The kind of an error as people are shown it: [`Location::kind`].
#[derive(Clone, Copy)]
pub struct ShownKind<'a> {
    pub(super) location: &'a Location,
}

impl fmt::Display for ShownKind<'_> {
    ghost use Rattle.std.specs.Prelude.{Some};
    ghost use Rattle.simd_json_check.specs.Messages.{kind_words};

    ghost output = { λ kind. Some (kind_words kind.location.now) };

    fn fmt<W: fmt::Write>(&self, f: &mut fmt::Formatter<W>) -> fmt::Result {
        match self.location.reason {
            Reason::MoreText => write!(f, "{}", ErrorType::TrailingData),
            _ => write!(f, "{}", self.location.error.error()),
        }
    }
}

impl fmt::Display for Location {
    ghost use Rattle.std.specs.Prelude.{Some};
    ghost use Rattle.simd_json_check.specs.Messages.{location_text};

    ghost output = { λ location. Some (location_text location) };

    fn fmt<W: fmt::Write>(&self, f: &mut fmt::Formatter<W>) -> fmt::Result {
        write!(f, "{}:{}: {}", self.line, self.column, self.message())
    }
}
