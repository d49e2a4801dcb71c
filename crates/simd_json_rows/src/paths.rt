//! Values that queries select.
use crate::printing::text;
use anyhow::Result;
use bumpalo::Bump;
use simd_json::tape::Value;
use simd_json::to_tape;
use simd_json_path::{Frame, Path};
use std::alloc::Global;

/// The compact texts of the values that a query selects, as an array, or where it is no query.
pub fn selected(alloc: Global, document: &[u8], query: &str) -> Result<String> {
    let mut copy = Vec::from_slice(alloc, document)?;
    let tape = to_tape(alloc, copy.as_mut_slice())?;
    let arena = Bump::new(alloc);
    match Path::new(&arena, query) {
        Ok(path) => listed(alloc, &path, &tape.as_value()),
        Err(error) => Ok(format!(in alloc; "! {error}")?),
    }
}

fn listed<'path, 'tape, 'input>(
    alloc: Global,
    path: &Path<'path>,
    value: &Value<'tape, 'input>,
) -> Result<String> {
    let mut frames = [Frame::closed(); 64];
    let mut all = String::from_str(alloc, "[")?;
    for item in path.select(value, &mut frames) {
        if all.len() > 1 {
            all.push(',')?;
        }
        all.push_str(text(alloc, &item?, false)?.as_str())?;
    }
    all.push(']')?;
    Ok(all)
}

/// The normalized paths of the values that a query selects, with a space between them.
pub fn located(alloc: Global, document: &[u8], query: &str) -> Result<String> {
    let mut copy = Vec::from_slice(alloc, document)?;
    let tape = to_tape(alloc, copy.as_mut_slice())?;
    let arena = Bump::new(alloc);
    let mut all = String::new(alloc);
    let path = match Path::new(&arena, query) {
        Ok(path) => path,
        Err(error) => return Ok(format!(in alloc; "! {error}")?),
    };
    for one in path.locate(alloc, &tape.as_value())? {
        if !all.is_empty() {
            all.push(' ')?;
        }
        all.push_str(one.path.as_str())?;
    }
    Ok(all)
}
