//! A slice that goes back.
ghost use Rattle.std.specs.Prelude.{◌≡◌, ◌≤◌, length};
ghost use Rattle.simd_json.specs.Viewed.{docs, doc};
ghost use Rattle.simd_json_parts.specs.Document.{elements};
ghost use Rattle.simd_json_path.specs.Slices.{bound_after, bound_after_or};
ghost use Rattle.std.specs.Iterator.{YieldsFirstBy, item_count};

use simd_json::tape::{Array, Value};
use simd_json_query::Slice;

// Of the elements from `floor` up to `end` the last one, and each one a gap before it.
#[derive(Clone, Copy, Debug)]
pub(crate) struct Back<'tape, 'input> {
    array: Array<'tape, 'input>,
    floor: usize,
    end: usize,
    gap: usize,
    ghost within: { end ≤ length (elements (docs array)) },
}

impl<'tape, 'input> Back<'tape, 'input> {
    ghost use Rattle.simd_json_path.specs.SliceNodes.{back_left};
    ghost use Rattle.simd_json_path.specs.Slices.{backward};

    // What a slice selects, back.
    pub(crate) fn of(slice: &Slice, array: Array<'tape, 'input>, gap: usize) -> Self
        ensures { back_left result ≡ backward slice.now gap (elements (docs array.entry)) }
    {
        let len = array.len();
        Back {
            array,
            floor: bound_after_or(slice.end, 0, len),
            end: bound_after_or(slice.start, len, len),
            gap,
        }
    }
}

impl<'tape, 'input> Iterator for Back<'tape, 'input> {
    type Item = Value<'tape, 'input>;

    ghost use Rattle.simd_json_path.specs.SliceNodes.{back_left};

    ghost next_gives = { YieldsFirstBy doc back_left };

    ghost remaining = { item_count back_left };

    fn next(&mut self) -> Option<Value<'tape, 'input>> {
        if self.end <= self.floor {
            return None;
        }
        let last = self.end - 1;
        let value = self.array.get(last)?;
        self.end = last.saturating_sub(self.gap);
        Some(value)
    }
}

pub(crate) fn bound_after_or(index: Option<i64>, default: usize, len: usize) -> usize
    requires { default ≤ len }
    ensures value { result ≡ bound_after_or index default len }
    ensures within { result ≤ len }
{
    match index {
        Some(index) => bound_after(index, len),
        None => default,
    }
}

fn bound_after(index: i64, len: usize) -> usize
    ensures value { result ≡ bound_after index len }
    ensures within { result ≤ len }
{
    if index >= 0 {
        let before = index as usize;
        return if before < len { before + 1 } else { len };
    }
    len.saturating_sub(index.unsigned_abs() as usize - 1)
}
