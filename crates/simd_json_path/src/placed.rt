//! Children of a value, each with its place.
ghost use Rattle.std.specs.Prelude.{◌≡◌, ◌≤◌, length, option_map};
ghost use Rattle.std.specs.Iterator.{YieldsFirstBy};
ghost use Rattle.std.specs.Option.{option_to_list};
ghost use Rattle.simd_json.specs.Viewed.{doc};
ghost use Rattle.simd_json_parts.specs.Document.{Document};
ghost use Rattle.simd_json_path.specs.Locations.{placed_by, placed_children, placed_choice};
ghost use Rattle.simd_json_path.specs.Locations.{placed_index, placed_name, placed_slice};
ghost use Rattle.simd_json_path.specs.Locations.{placed_step};
ghost use Rattle.simd_json_path.specs.PlacedNodes.{first_by, moved, numbered_by, placed};
ghost use Rattle.simd_json_path.specs.PlacedNodes.{placed_left, placed_nodes_left};
ghost use Rattle.simd_json_path.specs.SliceNodes.{children_left};

use crate::back::bound_after_or;
use crate::children::{Children, element_index};
use crate::filter::{holds, member};
use crate::location::Place;
use crate::slice::bound_or;
use simd_json::tape::{Value, object};
use simd_json_query::{Choice, Selector, Slice, Step, Test};

// Elements, the first of which has an index, and each next one that is a step from it.
#[derive(Clone, Copy)]
pub(crate) struct Numbered<'tape, 'input> {
    elements: Children<'tape, 'input>,
    index: usize,
    step: i64,
}

impl<'tape, 'input> Numbered<'tape, 'input> {
    fn next<'path>(&mut self) -> Option<(Place<'path, 'input>, Value<'tape, 'input>)>
        ensures { YieldsFirstBy placed
            (λ e. numbered_by e.step e.index (children_left e.elements))
            self.old result self.new }
    {
        let value = self.elements.next()?;
        let index = self.index;
        self.index = moved(index, self.step);
        Some((Place::Index(index), value))
    }
}

// The index that is so far after an index, below zero before it.
fn moved(index: usize, step: i64) -> usize
    ensures { result ≡ moved index step }
{
    let distance = step.unsigned_abs() as usize;
    if step >= 0 {
        index.saturating_add(distance)
    } else {
        index.saturating_sub(distance)
    }
}

// What is left of some children of a value.
#[derive(Clone, Copy)]
pub(crate) enum PlacedChildren<'path, 'tape, 'input> {
    Nothing,
    One((Place<'path, 'input>, Value<'tape, 'input>)),
    Elements(Numbered<'tape, 'input>),
    Pairs(object::Iter<'tape, 'input>),
}

impl<'path, 'tape, 'input> PlacedChildren<'path, 'tape, 'input> {
    // One, or none.
    fn of_option(child: Option<(Place<'path, 'input>, Value<'tape, 'input>)>) -> Self
        ensures { placed_left result ≡ option_to_list (option_map placed child.entry) }
    {
        match child {
            Some(child) => PlacedChildren::One(child),
            None => PlacedChildren::Nothing,
        }
    }

    // All of them.
    pub(crate) fn of(value: Value<'tape, 'input>) -> Self
        ensures { placed_left result ≡ placed_children (doc value.entry) }
    {
        if let Some(array) = value.as_array() {
            // Each index fits, since their number does.
            let _len = array.len();
            return PlacedChildren::Elements(Numbered {
                elements: Children::Elements(array.iter()),
                index: 0,
                step: 1,
            });
        }
        if let Some(object) = value.as_object() {
            return PlacedChildren::Pairs(object.iter());
        }
        PlacedChildren::Nothing
    }

    // Those that a slice selects.
    fn in_slice(slice: &Slice, value: Value<'tape, 'input>) -> Self
        ensures { placed_left result ≡ placed_slice slice.now (doc value.entry) }
    {
        let Some(array) = value.as_array() else {
            return PlacedChildren::Nothing;
        };
        PlacedChildren::Elements(Numbered {
            elements: Children::in_slice(slice, value),
            index: first_index(slice, array.len()),
            step: slice.step,
        })
    }

    // Those that a selector by name or place selects.
    fn chosen(choice: &Choice<'path>, value: Value<'tape, 'input>) -> Self
        ensures { placed_left result ≡ placed_choice choice.now (doc value.entry) }
    {
        match choice {
            Choice::Name(name) => PlacedChildren::of_option(named(value, name)),
            Choice::Wildcard => PlacedChildren::of(value),
            Choice::Index(index) => PlacedChildren::of_option(indexed(value, *index)),
            Choice::Slice(slice) => PlacedChildren::in_slice(slice, value),
        }
    }

    // The next one.
    pub(crate) fn next(&mut self) -> Option<(Place<'path, 'input>, Value<'tape, 'input>)>
        ensures { YieldsFirstBy placed placed_left self.old result self.new }
    {
        match self {
            PlacedChildren::Nothing => None,
            PlacedChildren::One(child) => {
                let only = *child;
                *self = PlacedChildren::Nothing;
                Some(only)
            }
            PlacedChildren::Elements(elements) => elements.next(),
            PlacedChildren::Pairs(pairs) => {
                let (key, value) = pairs.next()?;
                Some((Place::Key(key), value))
            }
        }
    }
}

// The index of the first element that a slice selects of so many, if it selects one.
fn first_index(slice: &Slice, len: usize) -> usize
    ensures { result ≡ first_by slice.now.step slice.now len }
{
    if slice.step < 0 {
        return bound_after_or(slice.start, len, len).saturating_sub(1);
    }
    bound_or(slice.start, 0, len)
}

// The member with a name.
fn named<'path, 'tape, 'input>(
    value: Value<'tape, 'input>,
    name: &'path str,
) -> Option<(Place<'path, 'input>, Value<'tape, 'input>)>
    ensures { option_map placed result ≡ placed_name name.now (doc value.entry) }
{
    let member = member(value, name)?;
    Some((Place::Name(name), member))
}

// The element at an index, which below zero counts from the end.
fn indexed<'path, 'tape, 'input>(
    value: Value<'tape, 'input>,
    index: i64,
) -> Option<(Place<'path, 'input>, Value<'tape, 'input>)>
    ensures { option_map placed result ≡ placed_index index (doc value.entry) }
{
    let array = value.as_array()?;
    let place = element_index(index, array.len())?;
    let element = array.get(place)?;
    Some((Place::Index(place), element))
}

// The child to which a step leads.
pub(crate) fn step_to<'path, 'tape, 'input>(
    step: &Step<'path>,
    value: Value<'tape, 'input>,
) -> Option<(Place<'path, 'input>, Value<'tape, 'input>)>
    ensures { option_map placed result ≡ placed_step step.now (doc value.entry) }
{
    match step {
        Step::Name(name) => named(value, name),
        Step::Index(index) => indexed(value, *index),
    }
}

// What a selector has still to select: those of the children that pass the test, if there is one.
#[derive(Clone, Copy)]
pub(crate) struct PlacedNodes<'path, 'tape, 'input> {
    children: PlacedChildren<'path, 'tape, 'input>,
    test: Option<&'path Test<'path>>,
}

impl<'path, 'tape, 'input> PlacedNodes<'path, 'tape, 'input> {
    pub(crate) fn new(selector: &Selector<'path>, value: Value<'tape, 'input>) -> Self
        ensures { (root : Document) → placed_nodes_left root result
            ≡ placed_by root selector.now (doc value.entry) }
    {
        match selector {
            Selector::Choice(choice) => PlacedNodes {
                children: PlacedChildren::chosen(choice, value),
                test: None,
            },
            Selector::Filter(test) => PlacedNodes {
                children: PlacedChildren::of(value),
                test: Some(test),
            },
        }
    }

    // The next one, in a query that is applied to `root`.
    pub(crate) fn next(
        &mut self,
        root: Value<'tape, 'input>,
    ) -> Option<(Place<'path, 'input>, Value<'tape, 'input>)>
        ensures { YieldsFirstBy placed (placed_nodes_left (doc root.entry))
            self.old result self.new }
    {
        'children: loop {
            let Some((place, value)) = self.children.next() else {
                return None;
            };
            let Some(test) = self.test else {
                return Some((place, value));
            };
            if holds(test, root, value) {
                return Some((place, value));
            }
        }
    }
}
