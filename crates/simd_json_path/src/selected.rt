//! The values that a query selects.
ghost use Rattle.std.specs.Prelude.{◌≤◌, length, codes, Some, ◌≡◌, ◌∷◌, [], map, option_map};
ghost use Rattle.std.specs.Option.{option_to_list};
ghost use Rattle.simd_json.specs.Viewed.{doc};
ghost use Rattle.std.specs.Iterator.{YieldsFirstBy, item_count};

use crate::frame::Frame;
use crate::frames::advance;
use simd_json::tape::Value;
use simd_json_query::Segment;
use std::fmt;

/// There are fewer frames than the query has segments.
///
/// It prints in words, as `too few frames`.
#[derive(Clone, Copy, Debug, Drop, PartialEq, Eq)]
pub struct TooFewFrames;

impl fmt::Display for TooFewFrames {
    ghost output = { λ _. Some (codes "too few frames") };

    fn fmt<W: fmt::Write>(&self, f: &mut fmt::Formatter<W>) -> fmt::Result {
        f.write_str("too few frames")
    }
}

impl std::error::Error for TooFewFrames {}

/// An iterator over the values that a query selects of a value, in order; one may come more than
/// once. With too few frames its only item is [`TooFewFrames`].
#[derive(Drop)]
pub struct Selected<'frames, 'path, 'tape, 'input> {
    // What the query is applied to.
    root: Value<'tape, 'input>,
    segments: &'path [Segment<'path>],
    // The first `opened` are open: each of a segment, at a value that the one before it selected.
    frames: &'frames mut [Frame<'path, 'tape, 'input>],
    opened: usize,
    // The only item, where no frame was opened.
    single: Option<Result<Value<'tape, 'input>, TooFewFrames>>,
    ghost enough: { length segments.now ≤ length frames.now },
    ghost within: { opened ≤ length segments.now },
}

impl<'frames, 'path, 'tape, 'input> Selected<'frames, 'path, 'tape, 'input> {
    ghost use Rattle.simd_json_path.specs.IteratorNodes.{item_of, selected_left};
    ghost use Rattle.simd_json_path.specs.Nodes.{nodes};
    ghost use Rattle.simd_json_path.specs.Paths.{selected_by};

    // What segments select of a value, in a query that is applied to `root`.
    pub(crate) fn new(
        segments: &'path [Segment<'path>],
        root: Value<'tape, 'input>,
        start: Value<'tape, 'input>,
        frames: &'frames mut [Frame<'path, 'tape, 'input>],
    ) -> Self
        requires { length segments.now ≤ length frames.now }
        ensures { selected_left result ≡ map Some
            (nodes (selected_by (doc root.entry)) segments.now (doc start.entry ∷ [])) }
    {
        let Some((first, _)) = segments.split_first() else {
            return Selected::only(Some(Ok(start)), root, frames);
        };
        frames[0] = Frame::new(first, start);
        Selected {
            root,
            segments,
            frames,
            opened: 1,
            single: None,
        }
    }

    // One item, or none.
    pub(crate) fn only(
        single: Option<Result<Value<'tape, 'input>, TooFewFrames>>,
        root: Value<'tape, 'input>,
        frames: &'frames mut [Frame<'path, 'tape, 'input>],
    ) -> Self
        ensures { selected_left result ≡ option_to_list (option_map item_of single.entry) }
    {
        Selected {
            root,
            segments: &[],
            frames,
            opened: 0,
            single,
        }
    }
}

impl<'frames, 'path, 'tape, 'input> Iterator for Selected<'frames, 'path, 'tape, 'input> {
    type Item = Result<Value<'tape, 'input>, TooFewFrames>;

    ghost use Rattle.simd_json_path.specs.IteratorNodes.{item_of, selected_left};

    ghost next_gives = { YieldsFirstBy item_of selected_left };

    ghost remaining = { item_count selected_left };

    #[inline(always)]
    fn next(&mut self) -> Option<Result<Value<'tape, 'input>, TooFewFrames>> {
        if let Some(value) = advance(self.frames, &mut self.opened, self.segments, self.root) {
            return Some(Ok(value));
        }
        self.single.take()
    }
}
