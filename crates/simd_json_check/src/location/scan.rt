//! A scan of an input, byte by byte, that knows what is inside strings.
ghost use Rattle.std.specs.Prelude.{◌≡◌, ◌<◌, ◌+◌, ◌^◌, ◌&&◌, ◌||◌, ◌==◌, length, not, if◌then◌else◌};
ghost use Rattle.simd_json_check.specs.Locations.{bad_string, first_index, is_control_inside};
ghost use Rattle.simd_json_check.specs.Locations.{is_left_open, next_position};
ghost use Rattle.simd_json_check.specs.Openings.{last_below, open_after, open_before, open_bracket};
ghost use Rattle.simd_json_parts.specs.Bytes.{is_structural, is_whitespace};

use simd_json_parts::charutils::{is_structural_or_whitespace, is_whitespace};

// What is known of the strings before an index.
#[derive(Clone, Copy)]
struct Strings {
    // whether an odd number of backslashes comes right before it
    is_escaped: bool,
    is_inside: bool,
}

impl Strings {
    // Before the first byte.
    const NONE: Strings = Strings {
        is_escaped: false,
        is_inside: false,
    };

    // Whether this byte there opens or closes a string.
    fn is_quote(self, byte: u8) -> bool
        ensures { result ≡ ((byte == 34) && not self.is_escaped) }
    {
        byte == b'"' && !self.is_escaped
    }

    // After this byte.
    fn after(self, byte: u8) -> Strings
        ensures escaped { result.is_escaped ≡ ((byte == 92) && not self.is_escaped) }
        ensures inside { result.is_inside ≡ (if (byte == 34) && not self.is_escaped
            then not self.is_inside else self.is_inside) }
    {
        Strings {
            is_escaped: byte == b'\\' && !self.is_escaped,
            is_inside: self.is_inside != self.is_quote(byte),
        }
    }
}

// The first control byte inside a string or the opening quote of the string that is left open; the
// length where all strings are right.
pub(super) fn bad_string(input: &[u8]) -> usize
    ensures { result ≡ bad_string input.now }
{
    control_inside(input).min(open_quote(input))
}

// The first control byte inside a string, or the length.
fn control_inside(input: &[u8]) -> usize
    ensures { result ≡ first_index (is_control_inside input.now) input.now }
{
    let mut strings = Strings::NONE;
    for (i, byte) in input.iter().enumerate() {
        strings = strings.after(*byte);
        if strings.is_inside && *byte < 0x20 {
            return i;
        }
    }
    input.len()
}

// The opening quote of the string that is left open, or the length.
pub(super) fn open_quote(input: &[u8]) -> usize
    ensures { result ≡ first_index (is_left_open input.now) input.now }
{
    let mut strings = Strings::NONE;
    let mut open = input.len();
    for (i, byte) in input.iter().enumerate() {
        let is_quote = strings.is_quote(*byte);
        strings = strings.after(*byte);
        if is_quote {
            open = if strings.is_inside { i } else { input.len() };
        }
    }
    open
}

// The bracket of the innermost container that is open at the end.
pub(super) fn open_bracket(input: &[u8]) -> Option<usize>
    ensures { result ≡ open_bracket input.now }
{
    let (count, _) = containers(input, 0);
    let (_, bracket) = containers(input, count);
    bracket
}

// How many containers are open at the end, and the last byte before which fewer than `level` are.
fn containers(input: &[u8], level: usize) -> (usize, Option<usize>)
    ensures count { result.0 ≡ open_before input.now (length input.now) }
    ensures below { result.1 ≡ last_below input.now level (length input.now) }
{
    let mut strings = Strings::NONE;
    let (mut count, mut below) = (0, None);
    for (i, byte) in input.iter().enumerate() {
        strings = strings.after(*byte);
        if count < level {
            below = Some(i);
        }
        if !strings.is_inside {
            count = open_after(*byte, count);
        }
    }
    (count, below)
}

// How many containers are open after a byte outside strings.
fn open_after(byte: u8, count: usize) -> usize
    requires { count + 1 < 2 ^ 64 }
    ensures { result ≡ open_after byte count }
{
    match byte {
        b'[' | b'{' => count + 1,
        b']' | b'}' => count.saturating_sub(1),
        _ => count,
    }
}

// The structural index after index i, or the length.
pub(super) fn next_position(input: &[u8], i: usize) -> usize
    ensures { result ≡ next_position input.now i }
{
    let mut strings = Strings::NONE;
    let mut is_fresh = true;
    for (k, byte) in input.iter().enumerate() {
        let is_quote = strings.is_quote(*byte);
        strings = strings.after(*byte);
        if i < k && begins_token(*byte, is_quote, strings.is_inside, is_fresh) {
            return k;
        }
        is_fresh = ends_token(*byte, is_quote, strings.is_inside);
    }
    input.len()
}

// Whether a token begins with this byte, which may open or close a string, where a string is or is
// not open after it, and where the byte before it ends a token.
fn begins_token(byte: u8, is_quote: bool, is_inside: bool, is_fresh: bool) -> bool
    ensures { result ≡ ((is_quote && is_inside) || ((not is_inside && not is_quote)
        && (is_structural byte || (not (is_whitespace byte) && is_fresh)))) }
{
    if is_inside || is_quote {
        return is_inside && is_quote;
    }
    !is_whitespace(byte) && (is_fresh || is_structural_or_whitespace(byte))
}

// Whether a token ends before the byte after this one.
fn ends_token(byte: u8, is_quote: bool, is_inside: bool) -> bool
    ensures { result ≡ (is_whitespace byte || (is_structural byte && not is_inside) || is_quote) }
{
    is_quote || is_whitespace(byte) || (!is_inside && is_structural_or_whitespace(byte))
}
