//! Children of a value.
ghost use Rattle.std.specs.Prelude.{◌≡◌, option_map};
ghost use Rattle.simd_json.specs.Viewed.{doc};
ghost use Rattle.simd_json_path.specs.Indexes.{at_index, element_index};
ghost use Rattle.std.specs.Iterator.{YieldsFirstBy, item_count};
ghost use Rattle.std.specs.Option.{option_to_list};
ghost use Rattle.simd_json.specs.Beneath.{children};

use crate::back::Back;
use crate::slice::Every;
use simd_json::tape::{Value, array, object};
use simd_json_query::Slice;

// What is left of some children of a value.
#[derive(Clone, Copy, Debug)]
pub(crate) enum Children<'tape, 'input> {
    Nothing,
    One(Value<'tape, 'input>),
    Elements(array::Iter<'tape, 'input>),
    Values(object::Values<'tape, 'input>),
    Every(Every<'tape, 'input>),
    Back(Back<'tape, 'input>),
}

impl<'tape, 'input> Children<'tape, 'input> {
    ghost use Rattle.simd_json_path.specs.Slices.{sliced};
    ghost use Rattle.simd_json_path.specs.SliceNodes.{children_left};

    // One, or none.
    #[inline(always)]
    pub(crate) fn of_option(value: Option<Value<'tape, 'input>>) -> Self
        ensures { children_left result ≡ option_to_list (option_map doc value.entry) }
    {
        match value {
            Some(value) => Children::One(value),
            None => Children::Nothing,
        }
    }

    // All of them.
    #[inline(always)]
    pub(crate) fn of(value: Value<'tape, 'input>) -> Self
        ensures { children_left result ≡ children (doc value.entry) }
    {
        if let Some(array) = value.as_array() {
            return Children::Elements(array.iter());
        }
        if let Some(object) = value.as_object() {
            return Children::Values(object.values());
        }
        Children::Nothing
    }

    // Those that a slice selects.
    #[inline(always)]
    pub(crate) fn in_slice(slice: &Slice, value: Value<'tape, 'input>) -> Self
        ensures { children_left result ≡ sliced slice.now (doc value.entry) }
    {
        let Some(array) = value.as_array() else {
            return Children::Nothing;
        };
        if slice.step > 0 {
            return Children::Every(Every::of(slice, array, slice.step as usize - 1));
        }
        if slice.step < 0 {
            let gap = slice.step.unsigned_abs() as usize - 1;
            return Children::Back(Back::of(slice, array, gap));
        }
        Children::Nothing
    }

    // The next one of those that are neither all elements nor all values.
    #[inline(never)]
    fn next_other(&mut self) -> Option<Value<'tape, 'input>>
        ensures { YieldsFirstBy doc children_left self.old result self.new }
    {
        match self {
            Children::Nothing => None,
            Children::One(value) => {
                let only = *value;
                *self = Children::Nothing;
                Some(only)
            }
            Children::Elements(elements) => elements.next(),
            Children::Values(values) => values.next(),
            Children::Every(elements) => elements.next(),
            Children::Back(elements) => elements.next(),
        }
    }
}

impl<'tape, 'input> Iterator for Children<'tape, 'input> {
    type Item = Value<'tape, 'input>;

    ghost use Rattle.simd_json_path.specs.SliceNodes.{children_left};

    ghost next_gives = { YieldsFirstBy doc children_left };

    ghost remaining = { item_count children_left };

    #[inline(always)]
    fn next(&mut self) -> Option<Value<'tape, 'input>> {
        if let Children::Elements(elements) = self {
            return elements.next();
        }
        if let Children::Values(values) = self {
            return values.next();
        }
        if matches!(self, Children::Nothing) {
            return None;
        }
        // Of a value that a call wrote, a copy is returned: else all values would lie in memory.
        Some(self.next_other()?)
    }
}

// The element at an index, which below zero counts from the end.
pub(crate) fn at_index<'tape, 'input>(
    value: Value<'tape, 'input>,
    index: i64,
) -> Option<Value<'tape, 'input>>
    ensures { option_map doc result ≡ at_index index (doc value.entry) }
{
    let array = value.as_array()?;
    array.get(element_index(index, array.len())?)
}

// Which of so many elements it is, if it is one.
#[inline(always)]
pub(crate) fn element_index(index: i64, len: usize) -> Option<usize>
    ensures { result ≡ element_index index len }
{
    if index >= 0 {
        return Some(index as usize);
    }
    len.checked_sub(index.unsigned_abs() as usize)
}
