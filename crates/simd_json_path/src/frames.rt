//! What segments select, each at the values that the one before it selected.
ghost use Rattle.std.specs.Prelude.{◌≡◌, ◌+◌, ◌<◌, ◌≤◌, ◌∷◌, ◌++◌, [], List, drop, length, take};
ghost use Rattle.std.specs.Prelude.{MatchOption};
ghost use Rattle.simd_json.specs.Viewed.{doc};
ghost use Rattle.simd_json_parts.specs.Document.{Document};
ghost use Rattle.simd_json_path.specs.IteratorNodes.{effort, frames_effort, frames_left};
ghost use Rattle.simd_json_path.specs.Nodes.{nodes, selected_of};
ghost use Rattle.simd_json_path.specs.Paths.{selected_by};
ghost use Rattle.simd_json_query.specs.declared.query.Segment.{Segment};
ghost use Rattle.simd_json_query.specs.declared.query.Selector.{Selector};

use crate::frame::Frame;
use simd_json::tape::Value;
use simd_json_query::Segment;

// The next value that segments select, where the first `opened` frames are open, in a query that is
// applied to `root`.
#[inline(always)]
pub(crate) fn advance<'path, 'tape, 'input>(
    frames: &mut [Frame<'path, 'tape, 'input>],
    opened: &mut usize,
    segments: &'path [Segment<'path>],
    root: Value<'tape, 'input>,
) -> Option<Value<'tape, 'input>>
    requires enough { length segments.now ≤ length frames.old }
    requires within { opened.old ≤ length segments.now }
    ensures within { opened.new ≤ length segments.now }
    ensures left { MatchOption result
        ((frames_left (doc root.entry) segments.now (take opened.old frames.old) ≡ [])
        × (frames_left (doc root.entry) segments.now (take opened.new frames.new) ≡ []))
        (λ value. frames_left (doc root.entry) segments.now (take opened.old frames.old)
        ≡ doc value ∷ frames_left (doc root.entry) segments.now (take opened.new frames.new)) }
{
    'frames: while *opened > 0 {
        let last = *opened - 1;
        let Some(value) = step(frames, last, root) else {
            *opened = last;
            continue;
        };
        if *opened == segments.len() {
            return Some(value);
        }
        open(frames, *opened, &segments[*opened], value);
        *opened += 1;
    }
    None
}

// The next node of the frame at an index.
#[inline(always)]
fn step<'path, 'tape, 'input>(
    frames: &mut [Frame<'path, 'tape, 'input>],
    last: usize,
    root: Value<'tape, 'input>,
) -> Option<Value<'tape, 'input>>
    requires { last < length frames.old }
    ensures left { (ss : List (Segment Selector)) → last < length ss → MatchOption result
        (frames_left (doc root.entry) ss (take (last + 1) frames.old)
        ≡ frames_left (doc root.entry) ss (take last frames.new))
        (λ value. frames_left (doc root.entry) ss (take (last + 1) frames.old)
        ≡ nodes (selected_by (doc root.entry)) (drop (last + 1) ss) (doc value ∷ [])
        ++ frames_left (doc root.entry) ss (take (last + 1) frames.new)) }
    ensures effort { (ss : List (Segment Selector)) → last < length ss → MatchOption result
        (frames_effort (doc root.entry) ss (take last frames.new)
        < frames_effort (doc root.entry) ss (take (last + 1) frames.old))
        (λ value. frames_effort (doc root.entry) ss (take (last + 1) frames.old)
        ≡ effort (doc root.entry) (drop (last + 1) ss) (doc value ∷ [])
        + frames_effort (doc root.entry) ss (take (last + 1) frames.new)) }
{
    frames[last].next(root)
}

// Opens a frame for a segment at a value, after those that are open.
#[inline(always)]
fn open<'path, 'tape, 'input>(
    frames: &mut [Frame<'path, 'tape, 'input>],
    at: usize,
    segment: &'path Segment<'path>,
    value: Value<'tape, 'input>,
)
    requires { at < length frames.old }
    ensures left { (root : Document) (ss : List (Segment Selector)) → at < length ss
        → frames_left root ss (take (at + 1) frames.new)
        ≡ nodes (selected_by root) (drop (at + 1) ss)
        (selected_of (selected_by root) segment.now (doc value.entry))
        ++ frames_left root ss (take at frames.old) }
    ensures effort { (root : Document) (ss : List (Segment Selector)) → at < length ss
        → frames_effort root ss (take (at + 1) frames.new)
        ≡ 1 + effort root (drop (at + 1) ss)
        (selected_of (selected_by root) segment.now (doc value.entry))
        + frames_effort root ss (take at frames.old) }
{
    frames[at] = Frame::new(segment, value);
}
