// The first value, and all values, without frames.
use crate::tests::Tested;
use bumpalo::Bump;
use simd_json::to_tape;
use simd_json_path::Path;
use std::process::Abort;

// A query selects these values of a document, printed compactly.
fn assert_collects(rt: &(impl AllocGlobal + Abort), document: &str, query: &str, wanted: &[&str]) {
    let mut input = Vec::from_slice(rt.alloc(), document.as_bytes()).expect(rt, "memory");
    let tape = to_tape(rt.alloc(), input.as_mut_slice()).expect(rt, "a document");
    assert!(rt; !tape.is_empty());
    let arena = Bump::new(rt.alloc());
    let path = Path::new(&arena, query).expect(rt, "a query");
    let values = path.all(rt.alloc(), &tape.as_value()).expect(rt, "memory");
    assert_eq!(rt; values.len(), wanted.len());
    for (value, text) in values.iter().zip(wanted) {
        let printed = value.encode(rt.alloc()).expect(rt, "memory");
        assert_eq!(rt; printed.as_str(), *text);
    }
    let Some(first) = path.first(&tape.as_value()) else {
        assert!(rt; wanted.is_empty());
        return;
    };
    assert!(rt; !wanted.is_empty());
    let printed = first.encode(rt.alloc()).expect(rt, "memory");
    assert_eq!(rt; printed.as_str(), wanted[0]);
}

#[test]
fn the_first_and_all(rt: HostRuntime) -> Tested {
    let text = r#"{"a":[{"b":1},{},{"b":[2,3]}],"b":{"b":4}}"#;
    assert_collects(&rt, text, "$", &[text]);
    assert_collects(&rt, text, "$.a[1]", &["{}"]);
    assert_collects(&rt, text, "$.c", &[]);
    assert_collects(&rt, text, "$.a[*].b", &["1", "[2,3]"]);
    assert_collects(&rt, text, "$.a[*].b[*]", &["2", "3"]);
    assert_collects(&rt, text, "$..b", &["{\"b\":4}", "1", "[2,3]", "4"]);
    assert_collects(&rt, text, "$..b..*", &["4", "2", "3"]);
    assert_collects(&rt, text, "$.a[?@.b[1]].c", &[]);
    Ok(())
}

#[test]
fn singular_queries(rt: HostRuntime) -> Tested {
    let arena = Bump::new(rt.alloc());
    for query in ["$", "$.a", "$['a'][0]", "$[-1]['b'].c"] {
        assert!(rt;
            Path::new(&arena, query)
                .expect(&rt, "a query")
                .is_singular()
        );
    }
    for query in ["$.*", "$..a", "$['a','b']", "$[0:1]", "$[?@.a]", "$.a[*].b"] {
        assert!(rt;
            !Path::new(&arena, query)
                .expect(&rt, "a query")
                .is_singular()
        );
    }
    Ok(())
}
