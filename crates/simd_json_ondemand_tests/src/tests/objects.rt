// The members of objects.
use super::MEMORY;
use simd_json_ondemand::{Document, Index};

// An object, and of each member the key and the integer that is its value, if it is one.
const OBJECTS: &[(&[u8], &[(&str, Option<u8>)])] = &[
    (b"{}", &[]),
    (b"{\"a\":1}", &[("a", Some(1))]),
    (
        b" { \"a\" : [1,{\"b\":2}] , \"a\" : 3 } ",
        &[("a", None), ("a", Some(3))],
    ),
    (
        b"{\"}\":{\"c\":{\"d\":{}}},\"\":\"{\",\"e\":4}",
        &[("}", None), ("", None), ("e", Some(4))],
    ),
    (
        b"{\"a\":[[1,2,3],[4,5,6],[7,8,9],{\"b\":[0,0,0,0]}],\"z\":9}",
        &[("a", None), ("z", Some(9))],
    ),
];

#[test]
fn members_come_in_order(rt: HostRuntime) {
    let mut index = Index::new(rt.alloc(), 100).expect(&rt, MEMORY);
    for (input, wanted) in OBJECTS {
        let root = Document::scan(&mut index, input)
            .expect(&rt, "it is a document")
            .as_value();
        let object = root.as_object().expect(&rt, "it is an object");
        let mut i = 0_usize;
        for (key, value) in object {
            let found = (key.as_str().unwrap_or("?"), value.as_u8());
            assert_eq!(rt; Some(found), wanted.get(i).copied(), "{input:?}");
            i = i.saturating_add(1);
        }
        assert_eq!(rt; i, wanted.len(), "{input:?}");
    }
}
