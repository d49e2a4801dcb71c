//! The structural indexes of an input, as a program in C gets them.
ghost use Rattle.std.specs.Prelude.{◌≡◌, IfErr, IfOk, None};
ghost use Rattle.simd_json_parts.specs.InputFaults.{input_fault};
ghost use Rattle.simd_json_parts.specs.Positions.{positions};
ghost use Rattle.simd_json_c.specs.Indexed.{AreIndexesPut, IsIndexed, IsUnscanned};

use crate::status::{ErrorPlace, TOO_LITTLE_ROOM, reported};
use simd_json::Result;
use simd_json_check::Index;
use std::alloc::Global;

// Finds the structural indexes, and copies them if there is room for them.
fn scan(alloc: Global, input: &[u8], indexes: &mut [u32], used: &mut usize) -> Result<i32>
    ensures put { IfOk result (λ status. (input_fault input.now ≡ None)
        × AreIndexesPut (positions input.now) status used.new indexes.old indexes.new) }
    ensures fault { IfErr result (λ e. IsUnscanned 0 input.now e
        × (used.new ≡ used.old) × (indexes.new ≡ indexes.old)) }
{
    let mut index = Index::empty(alloc);
    index.scan(input)?;
    let listed = index.structural_indexes();
    *used = listed.len();
    if listed.len() > indexes.len() {
        return Ok(TOO_LITTLE_ROOM);
    }
    let (front, _) = indexes.split_at_mut(listed.len());
    front.copy_from_slice(listed);
    Ok(0)
}

/// Writes the structural indexes of an input to the caller's memory.
#[unsafe(no_mangle)]
pub extern "C" fn simd_json_scan(
    alloc: Global,
    input: &[u8],
    indexes: &mut [u32],
    used: &mut usize,
    place: &mut ErrorPlace,
) -> i32
    ensures { IsIndexed input.now result place.new used.old used.new indexes.old indexes.new }
{
    reported(scan(alloc, input, indexes, used), place)
}
