//! What one selector selects of one value.
ghost use Rattle.std.specs.Prelude.{◌≡◌};
ghost use Rattle.simd_json.specs.Viewed.{doc};
ghost use Rattle.simd_json_path.specs.Nodes.{chosen_by};
ghost use Rattle.simd_json_path.specs.SliceNodes.{children_left};
ghost use Rattle.std.specs.Iterator.{YieldsFirstBy};
ghost use Rattle.simd_json_parts.specs.Document.{Document};

use crate::children::{Children, at_index};
use crate::filter::{holds, member};
use simd_json::tape::Value;
use simd_json_query::{Choice, Selector, Test};

// The nodes that a selector has still to select: those of the children that pass the test, if any.
#[derive(Clone, Copy)]
pub(crate) struct SelectorNodes<'path, 'tape, 'input> {
    pub(crate) children: Children<'tape, 'input>,
    pub(crate) test: Option<&'path Test<'path>>,
}

impl<'path, 'tape, 'input> SelectorNodes<'path, 'tape, 'input> {
    ghost use Rattle.simd_json_path.specs.IteratorNodes.{selector_nodes_left};
    ghost use Rattle.simd_json_path.specs.Paths.{selected_by};

    #[inline(always)]
    pub(crate) fn new(selector: &Selector<'path>, value: Value<'tape, 'input>) -> Self
        ensures { (root : Document)
            → selector_nodes_left root result ≡ selected_by root selector.now (doc value.entry) }
    {
        match selector {
            Selector::Choice(choice) => SelectorNodes {
                children: chosen(choice, value),
                test: None,
            },
            Selector::Filter(test) => SelectorNodes {
                children: Children::of(value),
                test: Some(test),
            },
        }
    }

    // The next one, in a query that is applied to `root`.
    #[inline(always)]
    pub(crate) fn next(&mut self, root: Value<'tape, 'input>) -> Option<Value<'tape, 'input>>
        ensures { YieldsFirstBy doc (selector_nodes_left (doc root.entry))
            self.old result self.new }
    {
        'children: loop {
            let Some(value) = self.children.next() else {
                return None;
            };
            let Some(test) = self.test else {
                return Some(value);
            };
            if holds(test, root, value) {
                return Some(value);
            }
        }
    }
}

// What a selector by name or place selects.
#[inline(always)]
pub(crate) fn chosen<'tape, 'input>(
    choice: &Choice<'_>,
    value: Value<'tape, 'input>,
) -> Children<'tape, 'input>
    ensures { children_left result ≡ chosen_by choice.now (doc value.entry) }
{
    match choice {
        Choice::Name(name) => Children::of_option(member(value, name)),
        Choice::Wildcard => Children::of(value),
        Choice::Index(index) => Children::of_option(at_index(value, *index)),
        Choice::Slice(slice) => Children::in_slice(slice, value),
    }
}
