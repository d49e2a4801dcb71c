//! How a value is printed.
ghost use Rattle.std.specs.Prelude.{◌≡◌, ◌<◌, ◌++◌, ℕ, List, IfNone, IfSome, OnOk, flat_map};
ghost use Rattle.std.specs.Prelude.{length, option_map, take};
ghost use Rattle.simd_json.specs.Viewed.{doc};
ghost use Rattle.simd_json_parts.specs.Document.{Elements, array, string};
ghost use Rattle.simd_json_parts.specs.Printed.{compact};
ghost use Rattle.simd_json_print.specs.Layout.{is_pretty as has_lines};
ghost use Rattle.simd_json_print.specs.Texts.{Adds};
ghost use Rattle.jpick.specs.Putting.{Puts};
ghost use Rattle.jpick.specs.Rows.{arranged, closing, element_text, escape_of, escaped};
ghost use Rattle.jpick.specs.Rows.{field_text, mark_of, no_value_text, opening, plain_text};
ghost use Rattle.jpick.specs.Rows.{quote_of, shown};
ghost use Rattle.jpick.specs.Rows.{value_cell, value_text};

use crate::query::Query;
use crate::sorted::{put_sorted, sorted_nodes};
use programs::tsv_escape;
use simd_json::tape::Value;
use simd_json_path::Filter;
use simd_json_print::document::Layout::Compact;
use simd_json_print::document::{self, Level, append};
use simd_json_print::text::{Target, Text};
use std::alloc::{AllocError, Allocator};

/// What is picked of each line, and how it is printed.
#[derive(Clone, Copy)]
pub struct Wanted<'a> {
    /// What selects the values of a line of which there are rows. Without it, these are rows of the
    /// line. What is said of a line below holds of each such value.
    pub each: Option<Query<'a>>,
    /// What selects the values.
    pub queries: &'a [Query<'a>],
    /// Lines that do not pass them all are skipped.
    pub filters: &'a [Filter<'a>],
    /// How the values of a line are printed.
    pub layout: Layout,
    /// Whether a string is printed as its text, if the layout is [`Layout::Tabs`].
    pub is_raw: bool,
    /// Whether a value is printed over several lines, if the layout is [`Layout::Tabs`]. The array
    /// of what a path selects, in a row of several queries, is not.
    pub is_pretty: bool,
    /// Whether the members of each object are printed in the order of their keys.
    pub has_sorted_keys: bool,
    /// Whether a line is skipped if a query selects nothing of it.
    pub needs_all: bool,
    /// Whether rejected lines are not named.
    pub is_quiet: bool,
    /// How many bytes a line may have.
    pub longest: usize,
    /// How many containers of a line may be open at a time.
    pub depth: usize,
    /// Whether each file is one document.
    pub is_document: bool,
}

/// How the values of a line are printed.
#[derive(Clone, Copy, Debug, PartialEq, Eq)]
pub enum Layout {
    /// Compact texts with tabs between them.
    Tabs,
    /// Tab separated text.
    Tsv,
    /// Comma separated text.
    Csv,
    /// A JSON array.
    Json,
}

impl Layout {
    /// What is before the first value, between two of them and after the last one.
    pub(crate) fn marks(self) -> (&'static [u8], &'static [u8], &'static [u8])
        ensures opening { result.0.now ≡ opening self }
        ensures mark { result.1.now ≡ mark_of self }
        ensures closing { result.2.now ≡ closing self }
    {
        match self {
            Layout::Tabs | Layout::Tsv => (b"", b"\t", b"\n"),
            Layout::Csv => (b"", b",", b"\n"),
            Layout::Json => (b"[", b",", b"]\n"),
        }
    }

    /// What is printed for a query that selects nothing.
    fn no_value(self) -> &'static [u8]
        ensures { result.now ≡ no_value_text self }
    {
        match self {
            Layout::Json => b"null",
            _ => b"",
        }
    }
}

/// Memory for putting values, which is kept from one to the next.
#[derive(Drop)]
pub struct Spare<A: Allocator> {
    bytes: Vec<u8, A>,
    // for the containers that are open, so that putting a value takes the same stack at any depth
    levels: Vec<Level, A>,
}

impl<A: Allocator + Copy> Spare<A> {
    /// Returns no memory yet.
    pub fn new(a: A) -> Spare<A> {
        Spare {
            bytes: Vec::new(a),
            levels: Vec::new(a),
        }
    }

    /// Reserves all memory for putting values of at most `longest` bytes, in which at most `depth`
    /// containers are open at a time.
    ///
    /// Returns an error if an allocation fails.
    pub fn reserve(&mut self, longest: usize, depth: usize) -> Result<(), AllocError> {
        self.bytes.reserve(longest)?;
        lengthen(&mut self.levels, depth.min(longest))
    }

    /// Returns the allocator of the memory.
    pub fn allocator(&self) -> A {
        *self.bytes.allocator()
    }
}

// Makes the list as long as that, if it is shorter.
fn lengthen<A: Allocator>(levels: &mut Vec<Level, A>, length: usize) -> Result<(), AllocError> {
    if levels.len() < length {
        levels.resize(length, Level::EMPTY)?;
    }
    Ok(())
}

/// Puts what is printed for a column with this value. `spare` may be overwritten.
///
/// Returns an error if an allocation fails, after a prefix of that.
pub fn put_cell<T: Target, const SIZE: usize, A: Allocator + Copy>(
    text: &mut Text<'_, T, SIZE>,
    spare: &mut Spare<A>,
    wanted: &Wanted<'_>,
    value: Option<Value<'_, '_>>,
) -> Result<(), AllocError>
    ensures { Puts T.state text.old text.new result
        (value_cell wanted.now (option_map doc value.entry)) }
{
    match value {
        Some(value) => put_value(text, spare, wanted, value),
        None => {
            text.put(wanted.layout.no_value());
            Ok(())
        }
    }
}

/// Puts what is printed for a value. `spare` may be overwritten.
///
/// Returns an error if an allocation fails, after a prefix of that.
pub fn put_value<T: Target, const SIZE: usize, A: Allocator + Copy>(
    text: &mut Text<'_, T, SIZE>,
    spare: &mut Spare<A>,
    wanted: &Wanted<'_>,
    value: Value<'_, '_>,
) -> Result<(), AllocError>
    ensures { Puts T.state text.old text.new result (value_text wanted.now (doc value.entry)) }
{
    match wanted.layout {
        Layout::Tabs => put_plain(text, spare, wanted, value),
        Layout::Json => put_document(text, spare, wanted, value, false),
        Layout::Tsv | Layout::Csv => put_field(text, spare, wanted, value),
    }
}

// Puts a string as its text, if that is wanted, and every other value as JSON.
fn put_plain<T: Target, const SIZE: usize, A: Allocator + Copy>(
    text: &mut Text<'_, T, SIZE>,
    spare: &mut Spare<A>,
    wanted: &Wanted<'_>,
    value: Value<'_, '_>,
) -> Result<(), AllocError>
    ensures { Puts T.state text.old text.new result
        (plain_text wanted.now.is_raw wanted.now.is_pretty
        (arranged wanted.now (doc value.entry))) }
{
    if wanted.is_raw
        && let Some(string) = value.as_str()
    {
        text.put(string.as_bytes());
        return Ok(());
    }
    put_document(text, spare, wanted, value, wanted.is_pretty)
}

// Puts a value as JSON, over several lines or compact.
fn put_document<T: Target, const SIZE: usize, A: Allocator + Copy>(
    text: &mut Text<'_, T, SIZE>,
    spare: &mut Spare<A>,
    wanted: &Wanted<'_>,
    value: Value<'_, '_>,
    is_pretty: bool,
) -> Result<(), AllocError>
    ensures { Puts T.state text.old text.new result
        (shown is_pretty (arranged wanted.now (doc value.entry))) }
{
    let layout = laid_out(is_pretty);
    let nodes = value.nodes();
    lengthen(&mut spare.levels, wanted.depth.min(nodes.len()))?;
    if wanted.has_sorted_keys {
        let a = spare.allocator();
        return put_sorted(text, a, value, layout, spare.levels.as_mut_slice());
    }
    document::put(text, nodes, layout, spare.levels.as_mut_slice());
    Ok(())
}

fn laid_out(is_pretty: bool) -> document::Layout
    ensures { has_lines result ≡ is_pretty }
{
    if is_pretty {
        document::Layout::Pretty
    } else {
        document::Layout::Compact
    }
}

// Puts a value as tab separated or comma separated text has it.
fn put_field<T: Target, const SIZE: usize, A: Allocator + Copy>(
    text: &mut Text<'_, T, SIZE>,
    spare: &mut Spare<A>,
    wanted: &Wanted<'_>,
    value: Value<'_, '_>,
) -> Result<(), AllocError>
    ensures { Puts T.state text.old text.new result
        (field_text wanted.now.layout (arranged wanted.now (doc value.entry))) }
{
    if value.eq_null() {
        return Ok(());
    }
    if let Some(string) = value.as_str() {
        put_name(text, wanted.layout, string);
        return Ok(());
    }
    let quote = quote_of(wanted.layout, value);
    text.put(quote);
    put_element(text, spare, wanted, value)?;
    text.put(quote);
    Ok(())
}

/// Puts a value as compact JSON, escaped. `spare` may be overwritten.
///
/// Returns an error if an allocation fails. Nothing is put then.
pub fn put_element<T: Target, const SIZE: usize, A: Allocator + Copy>(
    text: &mut Text<'_, T, SIZE>,
    spare: &mut Spare<A>,
    wanted: &Wanted<'_>,
    value: Value<'_, '_>,
) -> Result<(), AllocError>
    ensures { Puts T.state text.old text.new result
        (element_text wanted.now (doc value.entry)) }
{
    if matches!(wanted.layout, Layout::Tabs | Layout::Json) {
        return put_document(text, spare, wanted, value, false);
    }
    fill_compact(spare, wanted, value)?;
    put_escaped(text, wanted.layout, spare.bytes.as_slice());
    Ok(())
}

// Makes the bytes those of a value as compact JSON.
fn fill_compact<A: Allocator + Copy>(
    spare: &mut Spare<A>,
    wanted: &Wanted<'_>,
    value: Value<'_, '_>,
) -> Result<(), AllocError>
    ensures { OnOk result (spare.new.bytes.items
        ≡ compact (arranged wanted.now (doc value.entry))) }
{
    spare.bytes.clear();
    if !wanted.has_sorted_keys {
        return append(&mut spare.bytes, value.nodes(), Compact, &mut spare.levels);
    }
    let nodes = sorted_nodes(spare.allocator(), value)?;
    append(
        &mut spare.bytes,
        nodes.as_slice(),
        Compact,
        &mut spare.levels,
    )
}

/// Puts a text as a string.
pub fn put_name<T: Target, const SIZE: usize>(
    text: &mut Text<'_, T, SIZE>,
    layout: Layout,
    name: &str,
)
    ensures { Adds T.state text.old text.new (field_text layout (string name.now)) }
{
    let quote = quote(layout);
    text.put(quote);
    put_escaped(text, layout, name.as_bytes());
    text.put(quote);
}

// What is before and after a value: quotes in comma separated text, if it is no truth value and no
// number.
fn quote_of(layout: Layout, value: Value<'_, '_>) -> &'static [u8]
    ensures { result.now ≡ quote_of layout (doc value.entry) }
{
    let is_quoted = value.as_str().is_some() || value.is_array() || value.is_object();
    match layout {
        Layout::Csv if is_quoted => b"\"",
        _ => b"",
    }
}

/// What is before and after a string or an array.
pub fn quote(layout: Layout) -> &'static [u8]
    ensures string { (t : List ℕ) → result.now ≡ quote_of layout (string t) }
    ensures array { (ds : Elements) → result.now ≡ quote_of layout (array ds) }
{
    match layout {
        Layout::Csv => b"\"",
        _ => b"",
    }
}

// Puts the runs of bytes without escapes, and what is written for each byte between them.
fn put_escaped<T: Target, const SIZE: usize>(
    text: &mut Text<'_, T, SIZE>,
    layout: Layout,
    bytes: &[u8],
)
    ensures { Adds T.state text.old text.new (flat_map (escaped layout) bytes.now) }
{
    let mut left = bytes;
    'runs: while let Some(at) = escape_in(layout, left) {
        let (run, rest) = left.split_at(at);
        text.put(run);
        put_byte(text, layout, rest[0]);
        left = rest.split_at(1).1;
    }
    text.put(left);
}

// Where the first byte is that is not written as itself.
fn escape_in(layout: Layout, bytes: &[u8]) -> Option<usize>
    ensures found { IfSome result (λ at. (at < length bytes.now)
        × (flat_map (escaped layout) (take at bytes.now) ≡ take at bytes.now)) }
    ensures none { IfNone result (flat_map (escaped layout) bytes.now ≡ bytes.now) }
{
    for at in 0..bytes.len() {
        if escape_of(layout, bytes[at]).is_some() {
            return Some(at);
        }
    }
    None
}

fn put_byte<T: Target, const SIZE: usize>(text: &mut Text<'_, T, SIZE>, layout: Layout, byte: u8)
    ensures { Adds T.state text.old text.new (escaped layout byte) }
{
    match escape_of(layout, byte) {
        Some(escape) => text.put(escape),
        None => text.put(&[byte]),
    }
}

// What is written for a byte, if not the byte itself.
fn escape_of(layout: Layout, byte: u8) -> Option<&'static [u8]>
    ensures { option_map (λ escape. escape.now) result ≡ escape_of layout byte }
{
    match (layout, byte) {
        (Layout::Tsv, _) => tsv_escape(byte),
        (Layout::Csv, b'"') => Some(b"\"\""),
        _ => None,
    }
}
