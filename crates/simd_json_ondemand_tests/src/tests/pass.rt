// Cursors that go on at the end of what another cursor has read.
use super::MEMORY;
use simd_json_ondemand::{Array, Document, End, Index, Object, Value};
use std::process::Abort;

const DOCUMENTS: &[&[u8]] = &[
    b"{}",
    b"[]",
    b"{\"a\":{},\"b\":[],\"c\":1}",
    b"[[],{},1,[2],{\"a\":3},4]",
    b"{\"a\":{\"b\":{\"c\":{\"d\":1}},\"e\":[[],[2]]},\"f\":\"}\",\"g\":[{\"h\":3}]}",
    b"[[[[[[[[[[1]]]]]]]]],2,[{\"a\":[1,2,3,4,5,6,7,8,9,10]},\"]\",{}],3]",
];

// The end of a container, after so many of its values have been read.
fn end_after(value: Value<'_>, steps: usize) -> Option<End> {
    if let Some(mut members) = value.as_object() {
        for _ in 0..steps {
            let _ = members.next();
        }
        return Some(members.end());
    }
    let mut elements = value.as_array()?;
    for _ in 0..steps {
        let _ = elements.next();
    }
    Some(elements.end())
}

// A cursor that passes containers comes to the same values as one that skips them.
fn assert_object(rt: &impl Abort, members: Object<'_>, steps: usize, case: &[u8]) {
    let mut passing = members;
    for (key, value) in members {
        let (other_key, other) = passing.next().expect(rt, "there are as many");
        assert_eq!(rt; other_key.raw(), key.raw(), "{case:?}");
        assert_eq!(rt; other.raw(), value.raw(), "{case:?}");
        if let Some(end) = end_after(other, steps) {
            passing.pass(end);
        }
    }
    assert!(rt; passing.next().is_none());
}

fn assert_array(rt: &impl Abort, elements: Array<'_>, steps: usize, case: &[u8]) {
    let mut passing = elements;
    for value in elements {
        let other = passing.next().expect(rt, "there are as many");
        assert_eq!(rt; other.raw(), value.raw(), "{case:?}");
        if let Some(end) = end_after(other, steps) {
            passing.pass(end);
        }
    }
    assert!(rt; passing.next().is_none());
}

#[test]
fn cursors_go_on_at_an_end(rt: HostRuntime) {
    let mut index = Index::new(rt.alloc(), 100).expect(&rt, MEMORY);
    for input in DOCUMENTS {
        let root = Document::scan(&mut index, input)
            .expect(&rt, "it is a document")
            .as_value();
        for steps in 0..4 {
            if let Some(members) = root.as_object() {
                assert_object(&rt, members, steps, input);
            }
            if let Some(elements) = root.as_array() {
                assert_array(&rt, elements, steps, input);
            }
        }
    }
}
