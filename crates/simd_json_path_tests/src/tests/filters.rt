// Filters by existence: RFC 9535, sections 2.3.5.3 and 2.6.
use crate::tests::{Tested, assert_selects, child, descendant, name, singular};
use simd_json_path::{Selector, SingularQuery, Step, Test};

const FILTERED: &str =
    "{\"a\":[3,5,1,2,4,6,{\"b\":\"j\"},{\"b\":\"k\"},{\"b\":{}},{\"b\":\"kilo\"}],\
    \"o\":{\"p\":1,\"q\":2,\"r\":3,\"s\":5,\"t\":{\"u\":6}},\"e\":\"f\"}";

#[test]
fn existence(rt: HostRuntime) -> Tested {
    let a = [name("a")];
    let b = [Step::Name("b")];
    let has_b = Test::Exists(singular(SingularQuery::Relative(&b)));
    let filter = [Selector::Filter(&has_b)];
    let wanted = [
        "{\"b\":\"j\"}",
        "{\"b\":\"k\"}",
        "{\"b\":{}}",
        "{\"b\":\"kilo\"}",
    ];
    assert_selects(&rt, FILTERED, &[child(&a), child(&filter)], &wanted);
    assert_selects(&rt, FILTERED, &[descendant(&filter)], &wanted);
    let itself = Test::Exists(singular(SingularQuery::Relative(&[])));
    let each = [Selector::Filter(&itself)];
    assert_selects(
        &rt,
        "{\"b\":[null]}",
        &[descendant(&each)],
        &["[null]", "null"],
    );
    assert_selects(&rt, "7", &[child(&each)], &[]);
    Ok(())
}

#[test]
fn logic(rt: HostRuntime) -> Tested {
    let a = Test::Exists(singular(SingularQuery::Relative(&[Step::Name("a")])));
    let b = Test::Exists(singular(SingularQuery::Relative(&[Step::Name("b")])));
    let no_a = Test::Not(&a);
    let both = Test::And(&a, &b);
    let either = Test::Or(&a, &b);
    let alone = Test::And(&no_a, &b);
    let document = "[{},{\"a\":1},{\"b\":1},{\"a\":1,\"b\":1}]";
    let cases = [(no_a, "02"), (both, "3"), (either, "123"), (alone, "2")];
    let texts = ["{}", "{\"a\":1}", "{\"b\":1}", "{\"a\":1,\"b\":1}"];
    for (test, indexes) in cases {
        let mut wanted = Vec::new(rt.alloc());
        for index in indexes.bytes() {
            wanted.push(texts[(index - b'0') as usize])?;
        }
        let filter = [Selector::Filter(&test)];
        assert_selects(&rt, document, &[child(&filter)], wanted.as_slice());
    }
    Ok(())
}

#[test]
fn the_root_is_what_the_query_is_applied_to(rt: HostRuntime) -> Tested {
    let list = [name("list")];
    let is_open = Test::Exists(singular(SingularQuery::Absolute(&[Step::Name("open")])));
    let filter = [Selector::Filter(&is_open)];
    let segments = [child(&list), child(&filter)];
    assert_selects(
        &rt,
        "{\"list\":[1,2],\"open\":null}",
        &segments,
        &["1", "2"],
    );
    assert_selects(&rt, "{\"list\":[1,{\"open\":2}]}", &segments, &[]);
    Ok(())
}
