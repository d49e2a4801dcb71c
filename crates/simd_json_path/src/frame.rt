//! What a segment selects of one value.
use crate::filter::follow;
use crate::segment_nodes::SegmentNodes;
use simd_json::tape::{Containers, Value};
use simd_json_query::{Segment, Selector, Step};

/// Memory for a segment: what it has still to select of one value.
#[derive(Clone, Copy)]
pub struct Frame<'path, 'tape, 'input> {
    selectors: &'path [Selector<'path>],
    steps: &'path [Step<'path>],
    // Of one value that it visits, and the arrays and objects that it visits after that.
    nodes: SegmentNodes<'path, 'tape, 'input>,
    containers: Containers<'tape, 'input>,
}

impl<'path, 'tape, 'input> Frame<'path, 'tape, 'input> {
    ghost use Rattle.std.specs.Prelude.{◌≡◌, []};
    ghost use Rattle.std.specs.Iterator.{YieldsFirstBy};
    ghost use Rattle.simd_json.specs.Viewed.{doc};
    ghost use Rattle.simd_json_parts.specs.Document.{Document};
    ghost use Rattle.simd_json_path.specs.IteratorNodes.{frame_left};
    ghost use Rattle.simd_json_path.specs.Nodes.{selected_of};
    ghost use Rattle.simd_json_path.specs.Paths.{selected_by};

    /// A frame for [`Path::select`](crate::Path::select), in which nothing is left.
    pub fn closed() -> Self
        ensures { (root : Document) → frame_left root result ≡ [] }
    {
        let null: Value<'tape, 'input> = Value::null();
        Frame {
            selectors: &[],
            steps: &[],
            nodes: SegmentNodes::new(&[], null),
            containers: null.containers(),
        }
    }

    // What a segment selects of a value. Of a scalar the selectors select nothing.
    #[inline(always)]
    pub(crate) fn new(segment: &'path Segment<'path>, value: Value<'tape, 'input>) -> Self
        ensures { (root : Document) → frame_left root result
            ≡ selected_of (selected_by root) segment.now (doc value.entry) }
    {
        let null: Value<'tape, 'input> = Value::null();
        if segment.is_descendant {
            return Frame {
                selectors: segment.selectors,
                steps: segment.steps,
                nodes: SegmentNodes::new(&[], value),
                containers: value.containers(),
            };
        }
        Frame {
            selectors: segment.selectors,
            steps: segment.steps,
            nodes: SegmentNodes::new(segment.selectors, value),
            containers: null.containers(),
        }
    }

    // The next node, in a query that is applied to `root`.
    #[inline(always)]
    pub(crate) fn next(&mut self, root: Value<'tape, 'input>) -> Option<Value<'tape, 'input>>
        ensures { YieldsFirstBy doc (frame_left (doc root.entry)) self.old result self.new }
    {
        'nodes: loop {
            if let Some(node) = self.nodes.next(root) {
                if let Some(reached) = follow(self.steps, node) {
                    return Some(reached);
                }
                continue;
            }
            let Some(value) = self.containers.next() else {
                return None;
            };
            self.nodes = SegmentNodes::new(self.selectors, value);
        }
    }
}
