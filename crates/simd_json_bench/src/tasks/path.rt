//! The tasks by a query over a tape.
use super::ASKED;
use bumpalo::Bump;
use simd_json::tape::Value;
use simd_json::{Buffers, Tape, fill_tape};
use simd_json_path::{Frame, Path};
use std::alloc::Global;

// Of texts of `len` bytes, one at the front of each whole stride.
pub(crate) fn of_texts(
    alloc: Global,
    texts: &mut [u8],
    stride: usize,
    len: usize,
    task: u32,
) -> Option<u64> {
    let arena = Bump::new(alloc);
    let path = Path::new(&arena, query(task)?).ok()?;
    let mut buffers = Buffers::new(alloc, len).ok()?;
    let mut tape = Tape::null(alloc).ok()?;
    let mut sum = 0u64;
    for slot in texts.chunks_exact_mut(stride.max(1)) {
        fill_tape(slot.get_mut(..len)?, &mut buffers, &mut tape).ok()?;
        for _ in 0..ASKED {
            sum = sum.wrapping_add(selected(&path, tape.as_value())?);
        }
    }
    Some(sum)
}

fn query(task: u32) -> Option<&'static str> {
    match task {
        8 => Some("$.performances[*].prices[*].amount"),
        9 => Some("$..amount"),
        _ => None,
    }
}

#[inline(never)]
fn selected(path: &Path<'_>, root: Value<'_, '_>) -> Option<u64> {
    let mut frames = [Frame::closed(); 32];
    let mut sum = 0u64;
    for item in path.select(&root, &mut frames) {
        let value = item.ok()?;
        sum = sum.wrapping_add(value.as_u64()?);
    }
    Some(sum)
}
