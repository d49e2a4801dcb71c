//! The rows of a document.
ghost use Rattle.std.specs.Prelude.{◌≡◌, ◌≤◌, ◌∷◌, [], length, true, Some};
ghost use Rattle.std.specs.Prelude.{flat_map, option_map};
ghost use Rattle.std.specs.List.{list_all};
ghost use Rattle.programs.specs.Cells.{after_mark, cells};
ghost use Rattle.simd_json.specs.Viewed.{doc};
ghost use Rattle.simd_json_parts.specs.Bytes.{comma};
ghost use Rattle.simd_json_path.specs.Paths.{selected};
ghost use Rattle.jpick.specs.Putting.{Puts};
ghost use Rattle.jpick.specs.Queries.{has_room};
ghost use Rattle.jpick.specs.Rows.{array_text, cell_at, document_rows, element_text, mark_of};
ghost use Rattle.jpick.specs.Picked.{rows_of};
ghost use Rattle.jpick.specs.Rows.{needed_rows, picked_rows, row, value_row};

use crate::conditions::{has_needed, meets_all};
use crate::fields::{Spare, Wanted, put_cell, put_element, put_name, put_value, quote};
use crate::query::{Query, are_singular, frames};
use simd_json::tape::Value;
use simd_json_path::{Frame, Path};
use simd_json_print::text::{Target, Text};
use std::alloc::{AllocError, Allocator};

// How many frames are on the stack, for queries of no more segments.
const FEW: usize = 8;

/// Puts the rows of a value: of each that `wanted.each` selects of it, or of itself. `spare` may be
/// overwritten.
///
/// Returns an error if an allocation fails, after a prefix of the rows.
pub fn put_rows_of<T: Target, const SIZE: usize, A: Allocator + Copy>(
    text: &mut Text<'_, T, SIZE>,
    spare: &mut Spare<A>,
    wanted: &Wanted<'_>,
    value: Value<'_, '_>,
) -> Result<(), AllocError>
    ensures { Puts T.state text.old text.new result (rows_of wanted.now (doc value.entry)) }
{
    let Some(each) = &wanted.each else {
        return put_picked(text, spare, wanted, value);
    };
    match each {
        Query::Path(_, path) => put_each(text, spare, wanted, path, value),
        Query::Pointer(pointer) => match value.pointer(*pointer) {
            Some(value) => put_picked(text, spare, wanted, value),
            None => Ok(()),
        },
    }
}

// Puts the rows of each value that the path selects.
fn put_each<'q, 't, 'i, T: Target, const SIZE: usize, A: Allocator + Copy>(
    text: &mut Text<'_, T, SIZE>,
    spare: &mut Spare<A>,
    wanted: &Wanted<'q>,
    path: &Path<'q>,
    value: Value<'t, 'i>,
) -> Result<(), AllocError>
    ensures { Puts T.state text.old text.new result
        (flat_map (picked_rows wanted.now) (selected path.now (doc value.entry))) }
{
    let closed: Frame<'q, 't, 'i> = Frame::closed();
    let mut frames: Vec<Frame<'q, 't, 'i>, A> = Vec::new(spare.allocator());
    frames.resize(path.frames(), closed)?;
    put_each_within(text, spare, frames.as_mut_slice(), wanted, path, value)
}

// Puts them in these frames, or those before the target failed.
fn put_each_within<'q, 't, 'i, T: Target, const SIZE: usize, A: Allocator + Copy>(
    text: &mut Text<'_, T, SIZE>,
    spare: &mut Spare<A>,
    frames: &mut [Frame<'q, 't, 'i>],
    wanted: &Wanted<'q>,
    path: &Path<'q>,
    value: Value<'t, 'i>,
) -> Result<(), AllocError>
    requires { length path.now.segments.now ≤ length frames.old }
    ensures { Puts T.state text.old text.new result
        (flat_map (picked_rows wanted.now) (selected path.now (doc value.entry))) }
{
    let mut values = path.select(&value, frames);
    'values: while let Some(item) = values.next() {
        // There are frames enough.
        let Ok(selected) = item else {
            return Err(AllocError);
        };
        put_picked(text, spare, wanted, selected)?;
        if text.has_failed() {
            return Ok(());
        }
    }
    Ok(())
}

// Puts the rows of a value, if it passes the filters, and each query selects a value where that is
// needed.
fn put_picked<T: Target, const SIZE: usize, A: Allocator + Copy>(
    text: &mut Text<'_, T, SIZE>,
    spare: &mut Spare<A>,
    wanted: &Wanted<'_>,
    value: Value<'_, '_>,
) -> Result<(), AllocError>
    ensures { Puts T.state text.old text.new result (picked_rows wanted.now (doc value.entry)) }
{
    if !meets_all(wanted.filters, &value) {
        return Ok(());
    }
    put_needed(text, spare, wanted, value)
}

// Puts the rows of a value, if each query selects a value where that is needed.
fn put_needed<'q, T: Target, const SIZE: usize, A: Allocator + Copy>(
    text: &mut Text<'_, T, SIZE>,
    spare: &mut Spare<A>,
    wanted: &Wanted<'q>,
    value: Value<'_, '_>,
) -> Result<(), AllocError>
    ensures { Puts T.state text.old text.new result (needed_rows wanted.now (doc value.entry)) }
{
    let count = frames(wanted.queries);
    if count == 0 {
        return put_within(text, spare, &mut [], wanted, value);
    } else if count <= FEW {
        return put_by_few(text, spare, wanted, value);
    }
    put_by_many(text, spare, wanted, value, count)
}

fn put_by_few<'q, T: Target, const SIZE: usize, A: Allocator + Copy>(
    text: &mut Text<'_, T, SIZE>,
    spare: &mut Spare<A>,
    wanted: &Wanted<'q>,
    value: Value<'_, '_>,
) -> Result<(), AllocError>
    requires { list_all (has_room 8 (Some (doc value))) wanted.now.queries.now ≡ true }
    ensures { Puts T.state text.old text.new result (needed_rows wanted.now (doc value.entry)) }
{
    let mut frames = [Frame::closed(); FEW];
    put_within(text, spare, &mut frames, wanted, value)
}

fn put_by_many<'q, 't, 'i, T: Target, const SIZE: usize, A: Allocator + Copy>(
    text: &mut Text<'_, T, SIZE>,
    spare: &mut Spare<A>,
    wanted: &Wanted<'q>,
    value: Value<'t, 'i>,
    count: usize,
) -> Result<(), AllocError>
    requires { list_all (has_room count (Some (doc value))) wanted.now.queries.now ≡ true }
    ensures { Puts T.state text.old text.new result (needed_rows wanted.now (doc value.entry)) }
{
    let closed: Frame<'q, 't, 'i> = Frame::closed();
    let mut frames: Vec<Frame<'q, 't, 'i>, A> = Vec::new(spare.allocator());
    frames.resize(count, closed)?;
    put_within(text, spare, frames.as_mut_slice(), wanted, value)
}

// Puts the rows of a value in these frames.
fn put_within<'q, 't, 'i, T: Target, const SIZE: usize, A: Allocator + Copy>(
    text: &mut Text<'_, T, SIZE>,
    spare: &mut Spare<A>,
    frames: &mut [Frame<'q, 't, 'i>],
    wanted: &Wanted<'q>,
    value: Value<'t, 'i>,
) -> Result<(), AllocError>
    requires { list_all (has_room (length frames.old) (Some (doc value)))
        wanted.now.queries.now ≡ true }
    ensures { Puts T.state text.old text.new result (needed_rows wanted.now (doc value.entry)) }
{
    if !has_needed(wanted, value, frames) {
        return Ok(());
    }
    put_rows(text, spare, frames, wanted, value)
}

// Puts the rows of a value: if there is one query, and it is not singular, one for each value that
// it selects. `spare` and the frames may be overwritten.
fn put_rows<'q, 't, 'i, T: Target, const SIZE: usize, A: Allocator + Copy>(
    text: &mut Text<'_, T, SIZE>,
    spare: &mut Spare<A>,
    frames: &mut [Frame<'q, 't, 'i>],
    wanted: &Wanted<'q>,
    value: Value<'t, 'i>,
) -> Result<(), AllocError>
    requires { list_all (has_room (length frames.old) (Some (doc value)))
        wanted.now.queries.now ≡ true }
    ensures { Puts T.state text.old text.new result (document_rows wanted.now (doc value.entry)) }
{
    if let [query] = wanted.queries
        && let Query::Path(_, path) = query
        && !are_singular(path.segments)
    {
        return put_value_rows(text, spare, frames, wanted, path, value);
    }
    put_row(text, spare, frames, wanted, Some(value))
}

/// Puts the row of a value, or without one the header: the queries themselves, as strings.
/// `spare` and the frames may be overwritten.
///
/// Returns an error if an allocation fails, after a prefix of the row.
pub fn put_row<'q, 't, 'i, T: Target, const SIZE: usize, A: Allocator + Copy>(
    text: &mut Text<'_, T, SIZE>,
    spare: &mut Spare<A>,
    frames: &mut [Frame<'q, 't, 'i>],
    wanted: &Wanted<'q>,
    value: Option<Value<'t, 'i>>,
) -> Result<(), AllocError>
    requires { list_all (has_room (length frames.old) (option_map doc value))
        wanted.now.queries.now ≡ true }
    ensures { Puts T.state text.old text.new result (row wanted.now (option_map doc value.entry)) }
{
    let (opening, _, closing) = wanted.layout.marks();
    text.put(opening);
    put_cells(text, spare, frames, wanted, value)?;
    text.put(closing);
    Ok(())
}

fn put_cells<'q, 't, 'i, T: Target, const SIZE: usize, A: Allocator + Copy>(
    text: &mut Text<'_, T, SIZE>,
    spare: &mut Spare<A>,
    frames: &mut [Frame<'q, 't, 'i>],
    wanted: &Wanted<'q>,
    value: Option<Value<'t, 'i>>,
) -> Result<(), AllocError>
    requires { list_all (has_room (length frames.old) (option_map doc value))
        wanted.now.queries.now ≡ true }
    ensures { Puts T.state text.old text.new result (cells (mark_of wanted.now.layout)
        (cell_at wanted.now (option_map doc value.entry)) wanted.now.queries.now) }
{
    let Some((first, rest)) = wanted.queries.split_first() else {
        return Ok(());
    };
    put_cell_at(text, spare, frames, wanted, value, first)?;
    put_others(text, spare, frames, wanted, value, rest)
}

// Puts the cells of more queries, each after the mark.
fn put_others<'q, 't, 'i, T: Target, const SIZE: usize, A: Allocator + Copy>(
    text: &mut Text<'_, T, SIZE>,
    spare: &mut Spare<A>,
    frames: &mut [Frame<'q, 't, 'i>],
    wanted: &Wanted<'q>,
    value: Option<Value<'t, 'i>>,
    queries: &[Query<'q>],
) -> Result<(), AllocError>
    requires { list_all (has_room (length frames.old) (option_map doc value))
        queries.now ≡ true }
    ensures { Puts T.state text.old text.new result (flat_map (after_mark
        (mark_of wanted.now.layout) (cell_at wanted.now (option_map doc value.entry)))
        queries.now) }
{
    let (_, mark, _) = wanted.layout.marks();
    for query in queries {
        text.put(mark);
        put_cell_at(text, spare, frames, wanted, value, query)?;
    }
    Ok(())
}

// Puts the cell of a query.
fn put_cell_at<'q, 't, 'i, T: Target, const SIZE: usize, A: Allocator + Copy>(
    text: &mut Text<'_, T, SIZE>,
    spare: &mut Spare<A>,
    frames: &mut [Frame<'q, 't, 'i>],
    wanted: &Wanted<'q>,
    value: Option<Value<'t, 'i>>,
    query: &Query<'q>,
) -> Result<(), AllocError>
    requires { has_room (length frames.old) (option_map doc value) query.now ≡ true }
    ensures { Puts T.state text.old text.new result
        (cell_at wanted.now (option_map doc value.entry) query.now) }
{
    let Some(value) = value else {
        put_name(text, wanted.layout, query.text());
        return Ok(());
    };
    match query {
        Query::Path(_, path) if !are_singular(path.segments) => {
            put_array(text, spare, frames, wanted, path, value)
        }
        _ => put_cell(text, spare, wanted, query.first(value, frames)),
    }
}

// Puts a row for each value that the path selects, or for those before the target failed.
fn put_value_rows<'q, 't, 'i, T: Target, const SIZE: usize, A: Allocator + Copy>(
    text: &mut Text<'_, T, SIZE>,
    spare: &mut Spare<A>,
    frames: &mut [Frame<'q, 't, 'i>],
    wanted: &Wanted<'q>,
    path: &Path<'q>,
    value: Value<'t, 'i>,
) -> Result<(), AllocError>
    requires { length path.now.segments.now ≤ length frames.old }
    ensures { Puts T.state text.old text.new result
        (flat_map (value_row wanted.now) (selected path.now (doc value.entry))) }
{
    let mut values = path.select(&value, frames);
    'values: while let Some(item) = values.next() {
        // There are frames enough.
        let Ok(selected) = item else {
            return Err(AllocError);
        };
        put_value_row(text, spare, wanted, selected)?;
        if text.has_failed() {
            return Ok(());
        }
    }
    Ok(())
}

// Puts the row of a lone value.
fn put_value_row<T: Target, const SIZE: usize, A: Allocator + Copy>(
    text: &mut Text<'_, T, SIZE>,
    spare: &mut Spare<A>,
    wanted: &Wanted<'_>,
    value: Value<'_, '_>,
) -> Result<(), AllocError>
    ensures { Puts T.state text.old text.new result (value_row wanted.now (doc value.entry)) }
{
    let (opening, _, closing) = wanted.layout.marks();
    text.put(opening);
    put_value(text, spare, wanted, value)?;
    text.put(closing);
    Ok(())
}

// Puts the cell of a path: the array of what it selects, as compact JSON, escaped.
fn put_array<'q, 't, 'i, T: Target, const SIZE: usize, A: Allocator + Copy>(
    text: &mut Text<'_, T, SIZE>,
    spare: &mut Spare<A>,
    frames: &mut [Frame<'q, 't, 'i>],
    wanted: &Wanted<'q>,
    path: &Path<'q>,
    value: Value<'t, 'i>,
) -> Result<(), AllocError>
    requires { length path.now.segments.now ≤ length frames.old }
    ensures { Puts T.state text.old text.new result
        (array_text wanted.now (selected path.now (doc value.entry))) }
{
    let quote = quote(wanted.layout);
    text.put_between(quote, b"[", b"");
    put_elements(text, spare, frames, wanted, path, value)?;
    text.put_between(b"]", quote, b"");
    Ok(())
}

// Puts what a path selects, with commas between two values, or a prefix where the target failed.
fn put_elements<'q, 't, 'i, T: Target, const SIZE: usize, A: Allocator + Copy>(
    text: &mut Text<'_, T, SIZE>,
    spare: &mut Spare<A>,
    frames: &mut [Frame<'q, 't, 'i>],
    wanted: &Wanted<'q>,
    path: &Path<'q>,
    value: Value<'t, 'i>,
) -> Result<(), AllocError>
    requires { length path.now.segments.now ≤ length frames.old }
    ensures { Puts T.state text.old text.new result
        (cells (comma ∷ []) (element_text wanted.now) (selected path.now (doc value.entry))) }
{
    let mut values = path.select(&value, frames);
    let mut mark = b"".as_slice();
    'values: while let Some(item) = values.next() {
        // There are frames enough.
        let Ok(selected) = item else {
            return Err(AllocError);
        };
        text.put(mark);
        put_element(text, spare, wanted, selected)?;
        if text.has_failed() {
            return Ok(());
        }
        mark = b",";
    }
    Ok(())
}
