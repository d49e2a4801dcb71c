//! The row of a line: a column for each value that lines count by.
ghost use Rattle.std.specs.Prelude.{◌≡◌, ◌∷◌, [], OnOk, flat_map, option_map};
ghost use Rattle.programs.specs.Cells.{after_mark};
ghost use Rattle.simd_json.specs.Viewed.{doc};
ghost use Rattle.simd_json_parts.specs.Bytes.{tab};
ghost use Rattle.simd_json_parts.specs.Printed.{compact};
ghost use Rattle.log_report.specs.Rows.{Extends, cell, column, row_text, selected, tsv_byte};
ghost use Rattle.log_report.specs.Rows.{tsv_text};
ghost use Rattle.log_report.specs.Table.{most_texts, no_value, others, rejected, separator};

use arrayvec::ArrayVec;
use programs::tsv_escape;
use simd_json::tape::Value;
use std::alloc::AllocError;
use std::io::Write;

/// A row of up to 1,024 bytes; one that is full is longer, and cut.
pub type Row = ArrayVec<u8, 1025>;

/// What names a value of a line.
#[derive(Clone, Copy, Debug, PartialEq, Eq)]
pub enum Selector<'a> {
    /// The first value with this key of an object.
    Key(&'a str),
    /// The value at this JSON Pointer (RFC 6901).
    Pointer(&'a str),
}

/// What lines count by, and how the report is written.
#[derive(Clone, Copy)]
pub struct Wanted<'a> {
    /// What names each column's value.
    pub selectors: &'a [Selector<'a>],
    /// Whether rows are tab separated text, and not compact JSON between tabs.
    pub is_tsv: bool,
    /// How many rows have a count of their own.
    pub values: u32,
    /// How many bytes a line may have.
    pub longest: usize,
}

// In tab separated text a mark has a backslash in front, since no value begins with `\-`, `\*` or
// `\!` there: each of its own backslashes is doubled.
impl Wanted<'_> {
    // What is shown for a value that there is not.
    pub(crate) fn no_value(&self) -> &'static [u8]
        ensures { result.now ≡ no_value self.now.is_tsv }
    {
        if self.is_tsv { b"\\-" } else { b"-" }
    }

    // The row of the lines that have no count of their own.
    pub(crate) fn others(&self) -> &'static [u8]
        ensures { result.now ≡ others self.now.is_tsv }
    {
        self.others_mark().as_bytes()
    }

    // The same as text.
    pub(crate) fn others_mark(&self) -> &'static str
        ensures { result.now ≡ others self.now.is_tsv }
    {
        if self.is_tsv { "\\*" } else { "*" }
    }

    // The row of rejected lines.
    pub(crate) fn rejected(&self) -> &'static [u8]
        ensures { result.now ≡ rejected self.now.is_tsv }
    {
        if self.is_tsv { b"\\!" } else { b"!" }
    }

    // How many rows there are at most: those that have a count of their own, and three marks.
    pub(crate) fn most_texts(&self) -> usize
        ensures { result ≡ most_texts self.now.values }
    {
        self.values as usize + 3
    }

    // What is between a count and its row.
    pub(crate) fn separator(&self) -> &'static [u8]
        ensures { result.now ≡ separator self.now.is_tsv }
    {
        if self.is_tsv { b"\t" } else { b" " }
    }
}

/// Appends the row of a value to an empty row, as far as there is room.
///
/// Returns an error if the value's text can't be written, which does not happen.
pub fn append_row(
    row: &mut Row,
    wanted: &Wanted<'_>,
    value: Value<'_, '_>,
) -> Result<(), AllocError>
    ensures { OnOk result (Extends row.old.items row.new.items
        (row_text wanted.now (doc value.entry))) }
{
    let Some((first, rest)) = wanted.selectors.split_first() else {
        return Ok(());
    };
    append_cell(row, wanted, select(value, first))?;
    append_others(row, wanted, value, rest)
}

// Appends the values at more selectors, each after a tab.
fn append_others(
    row: &mut Row,
    wanted: &Wanted<'_>,
    value: Value<'_, '_>,
    selectors: &[Selector<'_>],
) -> Result<(), AllocError>
    ensures { OnOk result (Extends row.old.items row.new.items
        (flat_map (after_mark (tab ∷ []) (column wanted.now (doc value.entry))) selectors.now)) }
{
    for selector in selectors {
        append(row, b"\t");
        append_cell(row, wanted, select(value, selector))?;
    }
    Ok(())
}

fn select<'t, 'i>(value: Value<'t, 'i>, selector: &Selector<'_>) -> Option<Value<'t, 'i>>
    ensures { option_map doc result ≡ selected selector.now (doc value.entry) }
{
    match selector {
        Selector::Key(key) => value.get(*key),
        Selector::Pointer(pointer) => value.pointer(*pointer),
    }
}

fn append_cell(
    row: &mut Row,
    wanted: &Wanted<'_>,
    value: Option<Value<'_, '_>>,
) -> Result<(), AllocError>
    ensures { OnOk result (Extends row.old.items row.new.items
        (cell wanted.now (option_map doc value.entry))) }
{
    match value {
        Some(value) if wanted.is_tsv => append_field(row, value),
        Some(value) => append_compact(row, value),
        None => {
            append(row, wanted.no_value());
            Ok(())
        }
    }
}

fn append_compact(row: &mut Row, value: Value<'_, '_>) -> Result<(), AllocError>
    ensures { OnOk result (Extends row.old.items row.new.items (compact (doc value.entry))) }
{
    match value.write(row) {
        Ok(()) => Ok(()),
        Err(_) if row.is_full() => Ok(()),
        Err(_) => Err(AllocError),
    }
}

// Appends a value as tab separated text has it: null as nothing, a string as its text, and any
// other as compact JSON.
fn append_field(row: &mut Row, value: Value<'_, '_>) -> Result<(), AllocError>
    ensures { OnOk result (Extends row.old.items row.new.items (tsv_text (doc value.entry))) }
{
    if value.eq_null() {
        return Ok(());
    }
    if let Some(string) = value.as_str() {
        append_escaped(row, string.as_bytes());
        return Ok(());
    }
    let mut text = Row::new();
    append_compact(&mut text, value)?;
    append_escaped(row, text.as_slice());
    Ok(())
}

fn append_escaped(row: &mut Row, text: &[u8])
    ensures { Extends row.old.items row.new.items (flat_map tsv_byte text.now) }
{
    for byte in text {
        append(row, tsv_escape(*byte).unwrap_or(&[*byte]));
    }
}

// Appends bytes, as far as there is room.
fn append(row: &mut Row, bytes: &[u8])
    ensures { Extends row.old.items row.new.items bytes.now }
{
    let _fits = row.write(bytes);
}
