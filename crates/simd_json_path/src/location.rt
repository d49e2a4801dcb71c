//! Where a value is: normalized paths (RFC 9535, section 2.7).
ghost use Rattle.std.specs.Prelude.{◌≡◌, ◌<◌, ◌++◌, OnOk, string_bytes, flat_map};
ghost use Rattle.std.specs.Char.{digit_char};
ghost use Rattle.std.specs.Str.{chars};
ghost use Rattle.simd_json_path.specs.Locations.{control, escaped, indexed, normalized};
ghost use Rattle.simd_json_path.specs.Locations.{quoted, segment};
ghost use Rattle.simd_json_path.specs.PlacedNodes.{place_of, way_of};

use simd_json::tape::Value;
use std::alloc::AllocError;

// A child of a value: an element by its index, a member by its name.
#[derive(Clone, Copy)]
pub(crate) enum Place<'path, 'input> {
    Index(usize),
    // A name is the query's, a key the document's.
    Name(&'path str),
    Key(&'input str),
}

// Where a value is: at the root, or where its parent is and then at a place.
#[derive(Clone, Copy)]
pub(crate) enum Location<'above, 'path, 'input> {
    Root,
    Child(&'above Location<'above, 'path, 'input>, Place<'path, 'input>),
}

// A node (section 1.1): a value and its location.
#[derive(Clone, Copy)]
pub(crate) struct Node<'above, 'path, 'tape, 'input> {
    pub(crate) location: Location<'above, 'path, 'input>,
    pub(crate) value: Value<'tape, 'input>,
}

// Appends the normalized path of a location.
pub(crate) fn append_location(
    path: &mut String,
    location: &Location<'_, '_, '_>,
) -> Result<(), AllocError>
    ensures { OnOk result (string_bytes path.new
        ≡ string_bytes path.old ++ normalized (way_of location.now)) }
{
    match location {
        Location::Root => path.push_str("$"),
        Location::Child(parent, place) => {
            append_location(path, parent)?;
            append_place(path, place)
        }
    }
}

fn append_place(path: &mut String, place: &Place<'_, '_>) -> Result<(), AllocError>
    ensures { OnOk result (string_bytes path.new
        ≡ string_bytes path.old ++ segment (place_of place.now)) }
{
    match place {
        Place::Index(index) => append_index(path, *index),
        Place::Name(name) => append_name(path, name),
        Place::Key(key) => append_name(path, key),
    }
}

fn append_index(path: &mut String, index: usize) -> Result<(), AllocError>
    ensures { OnOk result (string_bytes path.new
        ≡ string_bytes path.old ++ indexed index) }
{
    let mut digits = itoa::Buffer::new();
    path.push_str("[")?;
    path.push_str(digits.format(index))?;
    path.push_str("]")
}

fn append_name(path: &mut String, name: &str) -> Result<(), AllocError>
    ensures { OnOk result (string_bytes path.new
        ≡ string_bytes path.old ++ quoted name.now) }
{
    path.push_str("['")?;
    append_characters(path, name)?;
    path.push_str("']")
}

fn append_characters(path: &mut String, name: &str) -> Result<(), AllocError>
    ensures { OnOk result (string_bytes path.new
        ≡ string_bytes path.old ++ flat_map escaped (chars name.now)) }
{
    for c in name.chars() {
        append_escaped(path, c)?;
    }
    Ok(())
}

fn append_escaped(path: &mut String, c: char) -> Result<(), AllocError>
    ensures { OnOk result (string_bytes path.new ≡ string_bytes path.old ++ escaped c) }
{
    match c {
        '\u{8}' => path.push_str("\\b"),
        '\t' => path.push_str("\\t"),
        '\n' => path.push_str("\\n"),
        '\u{c}' => path.push_str("\\f"),
        '\r' => path.push_str("\\r"),
        '\'' => path.push_str("\\'"),
        '\\' => path.push_str("\\\\"),
        _ if c < ' ' => append_control(path, c as u8),
        _ => path.push(c),
    }
}

// Another control character.
fn append_control(path: &mut String, c: u8) -> Result<(), AllocError>
    requires { c < 32 }
    ensures { OnOk result (string_bytes path.new ≡ string_bytes path.old ++ control c) }
{
    path.push_str("\\u00")?;
    path.push(digit(c / 16))?;
    path.push(digit(c % 16))
}

// A hexadecimal digit, in lower case.
fn digit(digit: u8) -> char
    requires { digit < 16 }
    ensures { result ≡ digit_char digit }
{
    if digit < 10 {
        char::from(b'0' + digit)
    } else {
        char::from(b'a' + (digit - 10))
    }
}
