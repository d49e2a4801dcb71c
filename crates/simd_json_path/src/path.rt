//! A query (RFC 9535, section 2.1): segments, each with selectors.
ghost use Rattle.std.specs.Prelude.{◌≡◌};
ghost use Rattle.simd_json_path.specs.Singular.{is_one};

use crate::collect::{append_from, first_from};
use crate::filter::follow;
use crate::frame::Frame;
use crate::located::{Located, locate_along};
use crate::location::{Location, Node};
use crate::selected::{Selected, TooFewFrames};
use bumpalo::Bump;
use simd_json::tape::Value;
use simd_json_query::{Choice, PathError, Segment, Selector, Step, read};
use std::alloc::{AllocError, Allocator, Global};

/// A query: what it selects, of any value.
#[derive(Clone, Copy)]
pub struct Path<'path> {
    /// Where the first segment begins: each is a child segment of one name or one index, and takes
    /// no frame.
    pub steps: &'path [Step<'path>],
    /// Each selects of the nodes that the one before it selected. Without any the value itself is
    /// selected.
    pub segments: &'path [Segment<'path>],
}

impl<'path> Path<'path> {
    ghost use Rattle.std.specs.Prelude.{◌≡◌, length, map, option_map, slice_get, IfOk};
    ghost use Rattle.simd_json.specs.Viewed.{doc};
    ghost use Rattle.simd_json_query.specs.Queries.{Query};
    ghost use Rattle.simd_json_path.specs.Frames.{selected_within};
    ghost use Rattle.simd_json_path.specs.IteratorNodes.{selected_left};
    ghost use Rattle.simd_json_path.specs.Locations.{located};
    ghost use Rattle.simd_json_path.specs.Paths.{is_singular, selected};
    ghost use Rattle.simd_json_path.specs.PlacedNodes.{found, texts};

    /// The query of a text, in an arena.
    ///
    /// Returns where the text is no query, and what it lacks there, or `Memory` where an allocation
    /// fails. A filter in a filter's query is rejected.
    pub fn new<A: Allocator>(arena: &'path Bump<A>, text: &str) -> Result<Path<'path>, PathError>
        ensures { IfOk result (λ path. Query path.steps.now path.segments.now text.now) }
    {
        let (steps, segments) = read(arena, text)?;
        Ok(Path { steps, segments })
    }

    /// How many frames suffice, for any value: one for each segment.
    pub fn frames(&self) -> usize
        ensures { result ≡ length self.now.segments.now }
    {
        self.segments.len()
    }

    /// An iterator over the values that the query selects of a value, in order; one may come more
    /// than once. It allocates nothing.
    ///
    /// The frames are memory: what they hold does not matter. With fewer than
    /// [`frames`](Path::frames) the only item is [`TooFewFrames`].
    pub fn select<'frames, 'tape, 'input>(
        &self,
        value: &Value<'tape, 'input>,
        frames: &'frames mut [Frame<'path, 'tape, 'input>],
    ) -> Selected<'frames, 'path, 'tape, 'input>
        ensures { selected_left result
            ≡ selected_within (length frames.entry.now) self.now (doc value.now) }
    {
        let root = *value;
        if frames.len() < self.segments.len() {
            return Selected::only(Some(Err(TooFewFrames)), root, frames);
        }
        match follow(self.steps, root) {
            Some(start) => Selected::new(self.segments, root, start, frames),
            None => Selected::only(None, root, frames),
        }
    }

    /// The first value that the query selects of a value, if it selects one. It allocates nothing,
    /// and recurses once for each segment.
    pub fn first<'tape, 'input>(&self, value: &Value<'tape, 'input>) -> Option<Value<'tape, 'input>>
        ensures { option_map doc result ≡ slice_get (selected self.now (doc value.now)) 0 }
    {
        let start = follow(self.steps, *value)?;
        first_from(self.segments, *value, start)
    }

    /// All values that the query selects of a value, as [`select`](Path::select) returns them. It
    /// recurses once for each segment. Fails where an allocation fails.
    pub fn all<'tape, 'input>(
        &self,
        alloc: Global,
        value: &Value<'tape, 'input>,
    ) -> Result<Vec<Value<'tape, 'input>>, AllocError>
        ensures { IfOk result (λ values. map doc values.items ≡ selected self.now (doc value.now)) }
    {
        let mut values = Vec::new(alloc);
        let Some(start) = follow(self.steps, *value) else {
            return Ok(values);
        };
        append_from(self.segments, *value, start, &mut values)?;
        Ok(values)
    }

    /// Whether the query is singular (section 2.3.5.1): each segment is a child segment of one name
    /// or one index. Then it selects at most one value.
    pub fn is_singular(&self) -> bool
        ensures { result ≡ is_singular self.now }
    {
        for segment in self.segments {
            if segment.is_descendant || !is_one(segment.selectors) {
                return false;
            }
        }
        true
    }

    /// The values that the query selects of a value, in order, each with its normalized path
    /// (section 2.7). Fails where an allocation fails.
    ///
    /// It recurses once for each segment and step, and in a descendant segment once for each level
    /// of the value.
    pub fn locate<'tape, 'input>(
        &self,
        alloc: Global,
        value: &Value<'tape, 'input>,
    ) -> Result<Vec<Located<'tape, 'input>>, AllocError>
        ensures { IfOk result (λ all. found all.items ≡ texts (located self.now (doc value.now))) }
    {
        let root = Node {
            location: Location::Root,
            value: *value,
        };
        let mut located = Vec::new(alloc);
        locate_along(self.steps, self.segments, *value, &root, &mut located)?;
        Ok(located)
    }
}

// Whether the only selector is one of a name or an index.
fn is_one(selectors: &[Selector<'_>]) -> bool
    ensures { result ≡ is_one selectors.now }
{
    let Some((first, others)) = selectors.split_first() else {
        return false;
    };
    if !others.is_empty() {
        return false;
    }
    matches!(first, Selector::Choice(Choice::Name(_) | Choice::Index(_)))
}
