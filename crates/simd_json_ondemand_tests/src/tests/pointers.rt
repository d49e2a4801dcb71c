// Several JSON Pointers at once.
use super::MEMORY;
use super::memory::ballast;
use linked_list_allocator::LocalHeap;
use simd_json::StaticNode;
use simd_json_ondemand::{Document, Error, ErrorType, Index, PreparedPointer, Result, Value};
use std::process::Abort;

const LINE: &[u8] = b"{\"ts\":\"2024-05-01\",\"st\\u0061tus\":200,\"path\":\"/\",\
    \"status\":404,\"user\":{\"id\":7,\"a/b\":[8,{\"c\":9}]},\"user\":{\"name\":1},\"\":10,\"longer than eight\":11,\
    \"a/b\":12,\"~\":13}";

// A pointer, and the integer that it names in the line.
const WANTED: [(&str, Option<u64>); 20] = [
    ("/status", Some(200)),
    ("/longer than eight", Some(11)),
    ("/user/id", Some(7)),
    ("/user/a~1b/1/c", Some(9)),
    ("/user/a~1b/0", Some(8)),
    ("/user/name", None),
    ("/", Some(10)),
    ("/status", Some(200)),
    ("/a~1b", Some(12)),
    ("/~0", Some(13)),
    ("/~", None),
    ("", None),
    ("status", None),
    ("/stat", None),
    ("/status/0", None),
    ("/longer than eighty", None),
    ("/longer than eigh", None),
    ("/missing", None),
    ("/user", None),
    ("/user/", None),
];

fn integer(found: Option<Value<'_>>) -> Option<u64> {
    found?.as_u64()
}

fn prepared(rt: &(impl AllocGlobal + Abort)) -> Vec<PreparedPointer> {
    let mut pointers = Vec::new(rt.alloc());
    for (pointer, _) in &WANTED {
        let one = PreparedPointer::new(rt.alloc(), pointer).expect(rt, MEMORY);
        assert_eq!(rt; one.as_str(), *pointer);
        pointers.push(one).expect(rt, MEMORY);
    }
    pointers
}

#[test]
fn fields_are_found_in_any_order(rt: HostRuntime) {
    let pointers = prepared(&rt);
    let mut index = Index::new(rt.alloc(), 0).expect(&rt, MEMORY);
    let root = Document::scan(&mut index, LINE)
        .expect(&rt, "it is a document")
        .as_value();
    for from in 0..pointers.len() {
        for to in from..pointers.len() + 1 {
            let mut found = [Some(root); 20];
            root.pointers(&pointers[from..to], &mut found[from..to]);
            for k in from..to {
                assert_eq!(rt; integer(found[k]), WANTED[k].1);
            }
        }
    }
}

// A value that is an array, or a scalar, and inputs that are no documents.
const OTHERS: [(&[u8], &str, Option<u64>); 9] = [
    (b"[1,[2]]", "/0", Some(1)),
    (b"[1,[2]]", "/1/0", Some(2)),
    (b"[1,[2]]", "/2", None),
    (b"7", "", Some(7)),
    (b"7", "/a", None),
    (b"{\"a\":1 \"b\":2}", "/a", Some(1)),
    (b"{\"a\":1 \"b\":2}", "/b", None),
    (b"{\"a\":1,\"b\":2", "/b", Some(2)),
    (b"{", "/b", None),
];

#[test]
fn other_values_are_walked_once_each(rt: HostRuntime) {
    let mut index = Index::new(rt.alloc(), 0).expect(&rt, MEMORY);
    for (input, pointer, wanted) in &OTHERS {
        let one = [PreparedPointer::new(rt.alloc(), pointer).expect(&rt, MEMORY)];
        let root = Document::scan(&mut index, input)
            .expect(&rt, "the walk finds its faults")
            .as_value();
        let mut found = [None];
        root.pointers(&one, &mut found);
        assert_eq!(rt; integer(found[0]), *wanted);
    }
}

// Over every front of the line, closed or not, each is what one pointer alone leads to.
#[test]
fn each_is_what_it_is_alone(rt: HostRuntime) {
    let pointers = prepared(&rt);
    let mut index = Index::new(rt.alloc(), 0).expect(&rt, MEMORY);
    for end in 0..LINE.len() {
        let Ok(document) = Document::scan(&mut index, &LINE[..end]) else {
            continue;
        };
        let root = document.as_value();
        let mut found = [None; 20];
        root.pointers(pointers.as_slice(), &mut found);
        for k in 0..20 {
            let alone = root.pointer(WANTED[k].0).and_then(|value| value.raw());
            assert_eq!(rt; found[k].and_then(|value| value.raw()), alone);
        }
    }
}

// Of each element where it begins, whether it has an escape, and its node if it is an integer.
#[test]
fn elements_are_seen_as_they_are_written(rt: HostRuntime) {
    let wanted = [
        (1, false, None),
        (6, true, None),
        (12, false, Some(StaticNode::I64(-7))),
        (16, false, Some(StaticNode::U64(7))),
        (19, false, None),
    ];
    let mut index = Index::new(rt.alloc(), 0).expect(&rt, MEMORY);
    let root = Document::scan(&mut index, br#"["a", "\n", -7, 7, 1.5]"#)
        .expect(&rt, "it is a document")
        .as_value();
    for k in 0..wanted.len() {
        let value = root.get_idx(k).expect(&rt, "it has five elements");
        let (at, has_escape, node) = wanted[k];
        assert_eq!(rt; value.index(), at);
        assert_eq!(rt; value.has_escape(), has_escape);
        assert!(rt; value.as_integer() == node);
    }
}

fn sum(rt: &impl AllocGlobal, lines: &[&[u8]]) -> Result<u64> {
    let wanted = [
        PreparedPointer::new(rt.alloc(), "/status")?,
        PreparedPointer::new(rt.alloc(), "/request/path")?,
    ];
    let mut index = Index::new(rt.alloc(), 1024)?;
    let mut sum = 0u64;
    for line in lines {
        let mut found = [None; 2];
        let root = Document::scan(&mut index, line)?.as_value();
        root.pointers(&wanted, &mut found);
        if let [Some(status), Some(_)] = found {
            sum = sum.saturating_add(status.as_u64().unwrap_or(0));
        }
    }
    Ok(sum)
}

#[test]
fn its_example_runs(rt: HostRuntime) {
    let lines: [&[u8]; 3] = [
        br#"{"request":{"method":"GET","path":"/"},"status":200}"#,
        br#"{"request":{"method":"GET"},"status":400}"#,
        br#"{"status":3,"request":{"path":null}}"#,
    ];
    assert_eq!(rt; sum(&rt, &lines).expect(&rt, MEMORY), 203);
}

#[test]
fn its_allocation_fails(rt: HostRuntime) {
    let heap = LocalHeap::new(rt.alloc(), 1 << 16).expect(&rt, MEMORY);
    let _ballast = ballast(&rt, &heap, 0);
    match PreparedPointer::new(&heap, "/a longer pointer than is free") {
        Ok(_) => assert!(rt; false),
        Err(e) => assert_eq!(rt; e, Error::generic(ErrorType::OutOfMemory)),
    }
}
