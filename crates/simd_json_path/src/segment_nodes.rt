//! What the selectors of a segment select of one value.
use crate::children::Children;
use crate::selector_nodes::SelectorNodes;
use simd_json::tape::Value;
use simd_json_query::Selector;

// The nodes that selectors have still to select of a value.
#[derive(Clone, Copy)]
pub(crate) struct SegmentNodes<'path, 'tape, 'input> {
    value: Value<'tape, 'input>,
    // Of one selector, and the selectors after it.
    nodes: SelectorNodes<'path, 'tape, 'input>,
    selectors: &'path [Selector<'path>],
}

impl<'path, 'tape, 'input> SegmentNodes<'path, 'tape, 'input> {
    ghost use Rattle.std.specs.Prelude.{◌≡◌};
    ghost use Rattle.std.specs.Iterator.{YieldsFirstBy};
    ghost use Rattle.simd_json.specs.Viewed.{doc};
    ghost use Rattle.simd_json_parts.specs.Document.{Document};
    ghost use Rattle.simd_json_path.specs.IteratorNodes.{segment_nodes_left};
    ghost use Rattle.simd_json_path.specs.Paths.{selected_by_all};

    #[inline(always)]
    pub(crate) fn new(selectors: &'path [Selector<'path>], value: Value<'tape, 'input>) -> Self
        ensures { (root : Document) → segment_nodes_left root result
            ≡ selected_by_all root selectors.now (doc value.entry) }
    {
        SegmentNodes {
            value,
            nodes: SelectorNodes {
                children: Children::Nothing,
                test: None,
            },
            selectors,
        }
    }

    // The next one, in a query that is applied to `root`.
    #[inline(always)]
    pub(crate) fn next(&mut self, root: Value<'tape, 'input>) -> Option<Value<'tape, 'input>>
        ensures { YieldsFirstBy doc (segment_nodes_left (doc root.entry))
            self.old result self.new }
    {
        'selectors: loop {
            if let Some(node) = self.nodes.next(root) {
                return Some(node);
            }
            let Some((selector, others)) = self.selectors.split_first() else {
                return None;
            };
            *self = SegmentNodes {
                value: self.value,
                nodes: SelectorNodes::new(selector, self.value),
                selectors: others,
            };
        }
    }
}
