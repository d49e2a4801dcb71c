//! The elements that a slice selects.
ghost use Rattle.std.specs.Prelude.{◌≡◌, drop, length};
ghost use Rattle.simd_json.specs.Iterated.{elements_left};
ghost use Rattle.simd_json_path.specs.Slices.{bound, bound_or};
ghost use Rattle.simd_json.specs.Viewed.{docs, doc};
ghost use Rattle.std.specs.Iterator.{YieldsFirstBy, item_count};

use simd_json::tape::{Array, Value, array};
use simd_json_query::Slice;

// Of the next `span` elements the first, and each one after a gap.
#[derive(Clone, Copy, Debug)]
pub(crate) struct Every<'tape, 'input> {
    elements: array::Iter<'tape, 'input>,
    span: usize,
    gap: usize,
}

impl<'tape, 'input> Every<'tape, 'input> {
    ghost use Rattle.simd_json_parts.specs.Document.{elements};
    ghost use Rattle.simd_json_path.specs.SliceNodes.{every_left};
    ghost use Rattle.simd_json_path.specs.Slices.{forward};

    // What a slice selects, forward.
    pub(crate) fn of(slice: &Slice, array: Array<'tape, 'input>, gap: usize) -> Self
        ensures { every_left result ≡ forward slice.now gap (elements (docs array.entry)) }
    {
        let len = array.len();
        let from = bound_or(slice.start, 0, len);
        let to = bound_or(slice.end, len, len);
        let mut elements = array.iter();
        pass(&mut elements, from);
        Every {
            elements,
            span: to.saturating_sub(from),
            gap,
        }
    }
}

impl<'tape, 'input> Iterator for Every<'tape, 'input> {
    type Item = Value<'tape, 'input>;

    ghost use Rattle.simd_json_path.specs.SliceNodes.{every_left};

    ghost next_gives = { YieldsFirstBy doc every_left };

    ghost remaining = { item_count every_left };

    fn next(&mut self) -> Option<Value<'tape, 'input>> {
        if self.span == 0 {
            return None;
        }
        let value = self.elements.next()?;
        let skipped = self.gap.min(self.span - 1);
        pass(&mut self.elements, skipped);
        self.span = self.span - 1 - skipped;
        Some(value)
    }
}

// Passes over elements.
fn pass(elements: &mut array::Iter<'_, '_>, count: usize)
    ensures { elements_left elements.new ≡ drop count (elements_left elements.old) }
{
    let mut left = count;
    while left > 0 {
        if elements.next().is_none() {
            return;
        }
        left -= 1;
    }
}

pub(crate) fn bound_or(index: Option<i64>, default: usize, len: usize) -> usize
    ensures { result ≡ bound_or index default len }
{
    match index {
        Some(index) => bound(index, len),
        None => default,
    }
}

fn bound(index: i64, len: usize) -> usize
    ensures { result ≡ bound index len }
{
    if index >= 0 {
        return len.min(index as usize);
    }
    len.saturating_sub(index.unsigned_abs() as usize)
}
