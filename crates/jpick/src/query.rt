//! What selects values of a document.
ghost use Rattle.std.specs.Prelude.{◌≡◌, ◌≤◌, length, true, option_map};
ghost use Rattle.std.specs.List.{list_all};
ghost use Rattle.simd_json.specs.Viewed.{doc};
ghost use Rattle.simd_json_path.specs.Paths.{selected};
ghost use Rattle.jpick.specs.Queries.{first, frames_of, has_frames, is_single, is_singular};
ghost use Rattle.jpick.specs.Queries.{is_singular_segment, selected_by, text_of};

use simd_json::tape::Value;
use simd_json_path::{Choice, Frame, Path, Segment, Selector};

/// What selects values of a document.
#[derive(Clone, Copy)]
pub enum Query<'a> {
    /// A JSON Pointer (RFC 6901): the value that it names.
    Pointer(&'a str),
    /// A JSONPath (RFC 9535): the values that it selects. The header names it by its text.
    Path(&'a str, Path<'a>),
}

impl<'a> Query<'a> {
    /// What the header names it by.
    pub fn text(&self) -> &'a str
        ensures { result.now ≡ text_of self.now }
    {
        match *self {
            Query::Pointer(pointer) => pointer,
            Query::Path(text, _) => text,
        }
    }

    // Whether it selects at most one value of any document, by its form: it is a JSON Pointer, or
    // each segment has one name or one index.
    pub(crate) fn is_singular(&self) -> bool
        ensures { result ≡ is_singular self.now }
    {
        match self {
            Query::Pointer(_) => true,
            Query::Path(_, path) => are_singular(path.segments),
        }
    }

    // How many frames it takes.
    fn frames(&self) -> usize
        ensures { result ≡ frames_of self.now }
    {
        match self {
            Query::Pointer(_) => 0,
            Query::Path(_, path) => path.frames(),
        }
    }

    // The first value that it selects.
    pub(crate) fn first<'t, 'i>(
        &self,
        value: Value<'t, 'i>,
        frames: &mut [Frame<'a, 't, 'i>],
    ) -> Option<Value<'t, 'i>>
        requires { frames_of self.now ≤ length frames.old }
        ensures { option_map doc result ≡ first (selected_by self.now (doc value.entry)) }
    {
        match self {
            Query::Pointer(pointer) => value.pointer(*pointer),
            Query::Path(_, path) => first_of(path, value, frames),
        }
    }
}

fn first_of<'q, 't, 'i>(
    path: &Path<'q>,
    value: Value<'t, 'i>,
    frames: &mut [Frame<'q, 't, 'i>],
) -> Option<Value<'t, 'i>>
    requires { length path.now.segments.now ≤ length frames.old }
    ensures { option_map doc result ≡ first (selected path.now (doc value.entry)) }
{
    path.select(&value, frames).next()?.ok()
}

// Whether each has one name or one index, of the children.
pub(crate) fn are_singular(segments: &[Segment<'_, Selector<'_>>]) -> bool
    ensures { result ≡ list_all is_singular_segment segments.now }
{
    for segment in segments {
        if segment.is_descendant || !is_single(segment.selectors) {
            return false;
        }
    }
    true
}

// Whether it is one name or one index.
fn is_single(selectors: &[Selector<'_>]) -> bool
    ensures { result ≡ is_single selectors.now }
{
    let Some((first, others)) = selectors.split_first() else {
        return false;
    };
    match first {
        Selector::Choice(choice) => {
            others.is_empty() && matches!(choice, Choice::Name(_) | Choice::Index(_))
        }
        Selector::Filter(_) => false,
    }
}

/// How many frames suffice for each query.
pub fn frames(queries: &[Query<'_>]) -> usize
    ensures { list_all (has_frames result) queries.now ≡ true }
{
    let mut most = 0usize;
    for query in queries {
        most = most.max(query.frames());
    }
    most
}
