// The elements of arrays.
use super::MEMORY;
use simd_json_ondemand::{Array, Document, Index, ValueType};

// An array, and of each element the integer, if it is one.
const ARRAYS: &[(&[u8], &[Option<u8>])] = &[
    (b"[]", &[]),
    (b" [ ] ", &[]),
    (b"[1]", &[Some(1)]),
    (b"[1,2,3]", &[Some(1), Some(2), Some(3)]),
    (b"[[],1,{},2]", &[None, Some(1), None, Some(2)]),
    (
        b"[[2,{\"a\":[3]}],4,{\"b\":[[],[]]}]",
        &[None, Some(4), None],
    ),
    (b"[\"]\",1,\"[\",2]", &[None, Some(1), None, Some(2)]),
    (b"[[1,2,3,4,5,6,7,8,9,10],11]", &[None, Some(11)]),
    (b"[[[[[[[[[[[[1]]]]]]]]]],2],3]", &[None, Some(3)]),
    (
        b"[[{},{},{},{},{},{}],[[],[],[],[]],{\"a\":{\"b\":{\"c\":[0,0,0,0]}}},7]",
        &[None, None, None, Some(7)],
    ),
];

fn count(array: Array<'_>) -> usize {
    let mut count = 0_usize;
    for _element in array {
        count = count.saturating_add(1);
    }
    count
}

#[test]
fn elements_come_in_order(rt: HostRuntime) {
    let mut index = Index::new(rt.alloc(), 100).expect(&rt, MEMORY);
    for (input, wanted) in ARRAYS {
        let root = Document::scan(&mut index, input)
            .expect(&rt, "it is a document")
            .as_value();
        let array = root.as_array().expect(&rt, "it is an array");
        assert_eq!(rt; count(array), wanted.len(), "{input:?}");
        let mut i = 0_usize;
        for element in array {
            let other = root.get_idx(i).expect(&rt, "it has so many elements");
            assert_eq!(rt; Some(element.as_u8()), wanted.get(i).copied(), "{input:?}");
            assert_eq!(rt; other.as_u8(), element.as_u8(), "{input:?}");
            i = i.saturating_add(1);
        }
        assert!(rt; root.get_idx(wanted.len()).is_none());
    }
}

#[test]
fn elements_are_values(rt: HostRuntime) {
    let mut index = Index::new(rt.alloc(), 0).expect(&rt, MEMORY);
    let root = Document::scan(&mut index, b"[{\"a\":[1,2]},[3,[4,5]]]")
        .expect(&rt, "it is a document")
        .as_value();
    let inner = root.get_idx(1).expect(&rt, "it has two elements");
    let last = inner.get_idx(1).expect(&rt, "it has two elements");
    assert_eq!(rt;
        root.get_idx(0).and_then(|v| v.value_type()),
        Some(ValueType::Object)
    );
    assert_eq!(rt; last.get_idx(1).and_then(|v| v.as_u64()), Some(5));
}

// Over bytes that are no document the elements end where the walk stops.
#[test]
fn other_bytes_have_elements_up_to_a_stop(rt: HostRuntime) {
    let mut index = Index::new(rt.alloc(), 0).expect(&rt, MEMORY);
    let cases: [(&[u8], usize); 7] = [
        (b"[1 2]", 1),
        (b"[1,2,", 2),
        (b"[[1,2", 1),
        (b"[1,2}}", 2),
        (b"[1,]", 1),
        (b"[1,:]", 1),
        (b"[,1]", 0),
    ];
    for (input, wanted) in cases {
        let root = Document::scan(&mut index, input)
            .expect(&rt, "it is scanned")
            .as_value();
        let array = root.as_array().expect(&rt, "it begins an array");
        assert_eq!(rt; count(array), wanted, "{input:?}");
    }
    for input in [b"1".as_slice(), b"{}", b"\"[\"", b"[", b"]"] {
        let root = Document::scan(&mut index, input)
            .expect(&rt, "it is scanned")
            .as_value();
        assert!(rt; root.as_array().is_none());
        assert!(rt; root.get_idx(0).is_none());
    }
}
