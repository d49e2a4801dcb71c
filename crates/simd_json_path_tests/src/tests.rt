use simd_json::to_tape;
use simd_json_path::{Choice, Frame, Path, Query, Segment, Selector, SingularQuery, TooFewFrames};
use std::process::Abort;
use std::test::Fail;

mod collected;
mod comparisons;
mod examples;
mod filters;
mod frames;
mod locations;
mod patterns;
mod queries;
mod segments;
mod selectors;
mod texts;

type Tested = std::result::Result<(), Fail>;

const ALL: Selector<'static> = Selector::Choice(Choice::Wildcard);

fn name<'path>(name: &'path str) -> Selector<'path> {
    Selector::Choice(Choice::Name(name))
}

fn index(index: i64) -> Selector<'static> {
    Selector::Choice(Choice::Index(index))
}

// A query of at most one node.
fn singular<'path>(start: SingularQuery<'path>) -> Query<'path> {
    Query {
        start,
        segments: &[],
    }
}

// A child segment without steps.
fn child<'path>(selectors: &'path [Selector<'path>]) -> Segment<'path, Selector<'path>> {
    Segment {
        selectors,
        is_descendant: false,
        steps: &[],
    }
}

// A descendant segment without steps.
fn descendant<'path>(selectors: &'path [Selector<'path>]) -> Segment<'path, Selector<'path>> {
    Segment {
        selectors,
        is_descendant: true,
        steps: &[],
    }
}

// Segments select these values of a document, printed compactly.
fn assert_selects(
    rt: &(impl AllocGlobal + Abort),
    document: &str,
    segments: &[Segment<'_, Selector<'_>>],
    wanted: &[&str],
) {
    let path = Path {
        steps: &[],
        segments,
    };
    assert_path_selects(rt, document, &path, wanted);
}

fn assert_path_selects(
    rt: &(impl AllocGlobal + Abort),
    document: &str,
    path: &Path<'_>,
    wanted: &[&str],
) {
    let mut input = Vec::from_slice(rt.alloc(), document.as_bytes()).expect(rt, "memory");
    let tape = to_tape(rt.alloc(), input.as_mut_slice()).expect(rt, "a document");
    assert!(rt; !tape.is_empty());
    let mut frames = [Frame::closed(); 16];
    assert!(rt; path.frames() <= frames.len());
    let mut index = 0usize;
    for item in path.select(&tape.as_value(), &mut frames) {
        let value = item.expect(rt, "there are frames enough");
        let text = value.encode(rt.alloc()).expect(rt, "memory");
        assert!(rt; index < wanted.len());
        assert_eq!(rt; text.as_str(), wanted[index]);
        index += 1;
    }
    assert_eq!(rt; index, wanted.len());
}

// What segments select with so many frames: a letter for each item, `v` for a value, `-` for an
// error.
fn items(
    rt: &(impl AllocGlobal + Abort),
    document: &str,
    segments: &[Segment<'_, Selector<'_>>],
    count: usize,
) -> String {
    let path = Path {
        steps: &[],
        segments,
    };
    let mut input = Vec::from_slice(rt.alloc(), document.as_bytes()).expect(rt, "memory");
    let tape = to_tape(rt.alloc(), input.as_mut_slice()).expect(rt, "a document");
    assert!(rt; !tape.is_empty());
    let mut frames = [Frame::closed(); 16];
    assert!(rt; count <= frames.len());
    let mut found = String::new(rt.alloc());
    for item in path.select(&tape.as_value(), &mut frames[..count]) {
        let letter = match item {
            Ok(_) => 'v',
            Err(TooFewFrames) => '-',
        };
        found.push(letter).expect(rt, "memory");
    }
    found
}
