// Queries in filters that select any number of nodes (RFC 9535, sections 2.3.5, 2.4.5 and 2.4.8):
// values worked by hand.
use crate::tests::{Tested, assert_selects, child, name};
use simd_json::to_tape;
use simd_json_path::{
    Choice, Comparable, Comparison, Filter, Literal, Query, Segment, Selector, SingularQuery,
    Slice, Step, Test,
};
use std::process::Abort;

const DOCUMENT: &str = "{\"a\":[1,2,3],\"o\":{\"p\":{\"q\":[4,5]}}}";

const A: [Step<'static>; 1] = [Step::Name("a")];

const ALL: [Choice<'static>; 1] = [Choice::Wildcard];

// The children that selectors choose.
fn of<'path>(selectors: &'path [Choice<'path>]) -> Segment<'path, Choice<'path>> {
    Segment {
        selectors,
        is_descendant: false,
        steps: &[],
    }
}

// And those of all values beneath.
fn below<'path>(selectors: &'path [Choice<'path>]) -> Segment<'path, Choice<'path>> {
    Segment {
        selectors,
        is_descendant: true,
        steps: &[],
    }
}

fn relative<'path>(
    steps: &'path [Step<'path>],
    segments: &'path [Segment<'path, Choice<'path>>],
) -> Query<'path> {
    Query {
        start: SingularQuery::Relative(steps),
        segments,
    }
}

fn every(step: i64) -> Choice<'static> {
    Choice::Slice(Slice {
        start: None,
        end: None,
        step,
    })
}

fn holds(rt: &(impl AllocGlobal + Abort), document: &str, test: &Test<'_>) -> bool {
    let mut input = Vec::from_slice(rt.alloc(), document.as_bytes()).expect(rt, "memory");
    let tape = to_tape(rt.alloc(), input.as_mut_slice()).expect(rt, "a document");
    assert!(rt; !tape.is_empty());
    let filter = Filter { test };
    filter.holds(&tape.as_value())
}

// `count` of the query is this number, and the query selects a node unless that is 0.
fn assert_counts(rt: &(impl AllocGlobal + Abort), query: Query<'_>, wanted: &str) {
    let number = Comparable::Literal(Literal::Number(wanted));
    let is_count = Test::Compare(Comparable::Count(query), Comparison::Equal, number);
    assert!(rt; holds(rt, DOCUMENT, &is_count));
    assert_eq!(rt; holds(rt, DOCUMENT, &Test::Exists(query)), wanted != "0");
}

// `value` of the query is equal to this.
fn assert_value(rt: &(impl AllocGlobal + Abort), query: Query<'_>, wanted: Comparable<'_>) {
    let is_value = Test::Compare(Comparable::Value(query), Comparison::Equal, wanted);
    assert!(rt; holds(rt, DOCUMENT, &is_value));
}

// $[?@.items[*].price]
#[test]
fn existence_among_children(rt: HostRuntime) -> Tested {
    let prices = Segment {
        selectors: &ALL,
        is_descendant: false,
        steps: &[Step::Name("price")],
    };
    let segments = [prices];
    let test = Test::Exists(relative(&[Step::Name("items")], &segments));
    let filter = [Selector::Filter(&test)];
    assert_selects(
        &rt,
        "[{\"items\":[{\"name\":2},{\"price\":1}]},{\"items\":[{\"name\":1}]},{\"items\":[]},\
        {\"items\":{\"a\":{\"price\":null}}},{\"price\":1},4]",
        &[child(&filter)],
        &[
            "{\"items\":[{\"name\":2},{\"price\":1}]}",
            "{\"items\":{\"a\":{\"price\":null}}}",
        ],
    );
    Ok(())
}

// $[?@..x]
#[test]
fn existence_beneath(rt: HostRuntime) -> Tested {
    let x = [Choice::Name("x")];
    let segments = [below(&x)];
    let test = Test::Exists(relative(&[], &segments));
    let filter = [Selector::Filter(&test)];
    assert_selects(
        &rt,
        "[{\"a\":{\"b\":[0,{\"x\":1}]}},{\"x\":0},{\"a\":[1,{\"y\":2}]},[[{\"x\":null}]],\"x\",3]",
        &[child(&filter)],
        &[
            "{\"a\":{\"b\":[0,{\"x\":1}]}}",
            "{\"x\":0}",
            "[[{\"x\":null}]]",
        ],
    );
    Ok(())
}

// $.list[?$.open[*]]
#[test]
fn existence_from_the_root(rt: HostRuntime) -> Tested {
    let segments = [of(&ALL)];
    let test = Test::Exists(Query {
        start: SingularQuery::Absolute(&[Step::Name("open")]),
        segments: &segments,
    });
    let filter = [Selector::Filter(&test)];
    let list = [name("list")];
    let path = [child(&list), child(&filter)];
    assert_selects(&rt, "{\"list\":[1,[2]],\"open\":[0]}", &path, &["1", "[2]"]);
    assert_selects(&rt, "{\"list\":[1,{\"open\":[2]}],\"open\":[]}", &path, &[]);
    Ok(())
}

#[test]
fn counts(rt: HostRuntime) -> Tested {
    assert_counts(&rt, relative(&[], &[]), "1");
    assert_counts(&rt, relative(&A, &[]), "1");
    assert_counts(&rt, relative(&[Step::Name("b")], &[of(&ALL)]), "0");
    assert_counts(&rt, relative(&[], &[of(&ALL)]), "2");
    assert_counts(&rt, relative(&A, &[of(&ALL)]), "3");
    assert_counts(&rt, relative(&A, &[of(&[])]), "0");
    assert_counts(&rt, relative(&A, &[of(&ALL), of(&ALL)]), "0");
    let first = Choice::Index(0);
    let last = Choice::Index(-1);
    assert_counts(&rt, relative(&A, &[of(&[first, last, first])]), "3");
    assert_counts(&rt, relative(&A, &[of(&[every(2)])]), "2");
    assert_counts(
        &rt,
        relative(&A, &[of(&[every(-1), Choice::Index(3)])]),
        "3",
    );
    // The children of the value, of `a`, `o`, `p` and `q`: 2, 3, 1, 1 and 2.
    assert_counts(&rt, relative(&[], &[below(&ALL)]), "9");
    assert_counts(&rt, relative(&[], &[below(&[first])]), "2");
    // Beneath `a`, `o`, `p` and `q` there are 3, 4, 3 and 2.
    assert_counts(&rt, relative(&[], &[below(&ALL), below(&ALL)]), "12");
    assert_counts(&rt, relative(&[], &[of(&ALL), below(&ALL)]), "7");
    assert_counts(&rt, relative(&[], &[below(&ALL), of(&[first])]), "2");
    Ok(())
}

#[test]
fn steps_after_a_segment(rt: HostRuntime) -> Tested {
    let to_second = Segment {
        selectors: &ALL,
        is_descendant: true,
        steps: &[Step::Name("q"), Step::Index(1)],
    };
    let segments = [to_second];
    let query = relative(&[], &segments);
    assert_counts(&rt, query, "1");
    assert_value(&rt, query, Comparable::Literal(Literal::Number("5")));
    Ok(())
}

#[test]
fn values(rt: HostRuntime) -> Tested {
    let nothing = Comparable::Query(SingularQuery::Relative(&[Step::Name("none")]));
    let q = [Choice::Name("q")];
    let to_q = [Step::Name("o"), Step::Name("p"), Step::Name("q")];
    let is_q = Comparable::Query(SingularQuery::Relative(&to_q));
    assert_value(&rt, relative(&[], &[below(&q)]), is_q);
    let third = Comparable::Literal(Literal::Number("3"));
    assert_value(&rt, relative(&A, &[of(&[Choice::Index(2)])]), third);
    assert_value(&rt, relative(&A, &[of(&ALL)]), nothing);
    let twice = [Choice::Index(0), Choice::Index(0)];
    assert_value(&rt, relative(&A, &[of(&twice)]), nothing);
    assert_value(&rt, relative(&[], &[below(&[Choice::Name("z")])]), nothing);
    assert_value(&rt, relative(&[Step::Name("z")], &[]), nothing);
    Ok(())
}
