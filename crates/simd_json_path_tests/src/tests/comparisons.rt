// Comparisons: RFC 9535, sections 2.3.5.2.2, 2.3.5.3 and 2.4, and values worked by hand.
use crate::tests::{Tested, assert_selects, child, name, singular};
use bumpalo::Bump;
use simd_json::to_tape;
use simd_json_path::{
    Comparable, Comparison, Filter, Literal, Selector, SingularQuery, Step, Test,
};
use std::process::Abort;

const FILTERED: &str =
    "{\"a\":[3,5,1,2,4,6,{\"b\":\"j\"},{\"b\":\"k\"},{\"b\":{}},{\"b\":\"kilo\"}],\
    \"o\":{\"p\":1,\"q\":2,\"r\":3,\"s\":5,\"t\":{\"u\":6}},\"e\":\"f\"}";

fn number(text: &'static str) -> Comparable<'static> {
    Comparable::Literal(Literal::Number(text))
}

fn string(text: &'static str) -> Comparable<'static> {
    Comparable::Literal(Literal::String(text))
}

// The comparison of two values of a document passes as it is told.
fn assert_compares(
    rt: &(impl AllocGlobal + Abort),
    document: &str,
    left: Comparable<'_>,
    comparison: Comparison,
    right: Comparable<'_>,
    wanted: bool,
) {
    let mut input = Vec::from_slice(rt.alloc(), document.as_bytes()).expect(rt, "memory");
    let tape = to_tape(rt.alloc(), input.as_mut_slice()).expect(rt, "a document");
    assert!(rt; !tape.is_empty());
    let test = Test::Compare(left, comparison, right);
    let filter = Filter { test: &test };
    assert_eq!(rt; filter.holds(&tape.as_value()), wanted);
}

// The table of section 2.3.5.3.
#[test]
fn the_table(rt: HostRuntime) -> Tested {
    let document = "{\"obj\":{\"x\":\"y\"},\"arr\":[2,3]}";
    let absent = Comparable::Query(SingularQuery::Absolute(&[Step::Name("absent")]));
    let absent2 = Comparable::Query(SingularQuery::Absolute(&[Step::Name("absent2")]));
    let obj = Comparable::Query(SingularQuery::Absolute(&[Step::Name("obj")]));
    let arr = Comparable::Query(SingularQuery::Relative(&[Step::Name("arr")]));
    let truth = Comparable::Literal(Literal::Bool(true));
    let rows = [
        (absent, Comparison::Equal, absent2, true),
        (absent, Comparison::LessOrEqual, absent2, true),
        (absent, Comparison::Equal, string("g"), false),
        (absent, Comparison::NotEqual, absent2, false),
        (absent, Comparison::NotEqual, string("g"), true),
        (number("1"), Comparison::LessOrEqual, number("2"), true),
        (number("1"), Comparison::Greater, number("2"), false),
        (number("13"), Comparison::Equal, string("13"), false),
        (string("a"), Comparison::LessOrEqual, string("b"), true),
        (string("a"), Comparison::Greater, string("b"), false),
        (obj, Comparison::Equal, arr, false),
        (obj, Comparison::NotEqual, arr, true),
        (obj, Comparison::Equal, obj, true),
        (obj, Comparison::NotEqual, obj, false),
        (arr, Comparison::Equal, arr, true),
        (arr, Comparison::NotEqual, arr, false),
        (obj, Comparison::Equal, number("17"), false),
        (obj, Comparison::NotEqual, number("17"), true),
        (obj, Comparison::LessOrEqual, arr, false),
        (obj, Comparison::Less, arr, false),
        (obj, Comparison::LessOrEqual, obj, true),
        (arr, Comparison::LessOrEqual, arr, true),
        (number("1"), Comparison::LessOrEqual, arr, false),
        (number("1"), Comparison::GreaterOrEqual, arr, false),
        (number("1"), Comparison::Greater, arr, false),
        (number("1"), Comparison::Less, arr, false),
        (truth, Comparison::LessOrEqual, truth, true),
        (truth, Comparison::Greater, truth, false),
    ];
    for (left, comparison, right, wanted) in rows {
        assert_compares(&rt, document, left, comparison, right, wanted);
    }
    Ok(())
}

// The filters of the second table of section 2.3.5.3, those with comparisons.
#[test]
fn filters(rt: HostRuntime) -> Tested {
    let a = [name("a")];
    let o = [name("o")];
    let itself = Comparable::Query(SingularQuery::Relative(&[]));
    let b = Comparable::Query(SingularQuery::Relative(&[Step::Name("b")]));
    let x = Comparable::Query(SingularQuery::Absolute(&[Step::Name("x")]));
    let is_kilo = Test::Compare(b, Comparison::Equal, string("kilo"));
    let filter = [Selector::Filter(&is_kilo)];
    assert_selects(
        &rt,
        FILTERED,
        &[child(&a), child(&filter)],
        &["{\"b\":\"kilo\"}"],
    );
    let is_more = Test::Compare(itself, Comparison::Greater, number("3.5"));
    let filter = [Selector::Filter(&is_more)];
    assert_selects(
        &rt,
        FILTERED,
        &[child(&a), child(&filter)],
        &["5", "4", "6"],
    );
    let is_few = Test::Compare(itself, Comparison::Less, number("3"));
    let twice = [Selector::Filter(&is_few), Selector::Filter(&is_few)];
    assert_selects(
        &rt,
        FILTERED,
        &[child(&o), child(&twice)],
        &["1", "2", "1", "2"],
    );
    let is_k = Test::Compare(b, Comparison::Equal, string("k"));
    let is_one = Test::Compare(itself, Comparison::Less, number("2"));
    let either = Test::Or(&is_one, &is_k);
    let filter = [Selector::Filter(&either)];
    assert_selects(
        &rt,
        FILTERED,
        &[child(&a), child(&filter)],
        &["1", "{\"b\":\"k\"}"],
    );
    let is_above = Test::Compare(itself, Comparison::Greater, number("1"));
    let is_below = Test::Compare(itself, Comparison::Less, number("4"));
    let between = Test::And(&is_above, &is_below);
    let filter = [Selector::Filter(&between)];
    assert_selects(&rt, FILTERED, &[child(&o), child(&filter)], &["2", "3"]);
    let is_x = Test::Compare(b, Comparison::Equal, x);
    let filter = [Selector::Filter(&is_x)];
    let numbers = ["3", "5", "1", "2", "4", "6"];
    assert_selects(&rt, FILTERED, &[child(&a), child(&filter)], &numbers);
    let is_itself = Test::Compare(itself, Comparison::Equal, itself);
    let filter = [Selector::Filter(&is_itself)];
    let all = [
        "3",
        "5",
        "1",
        "2",
        "4",
        "6",
        "{\"b\":\"j\"}",
        "{\"b\":\"k\"}",
        "{\"b\":{}}",
        "{\"b\":\"kilo\"}",
    ];
    assert_selects(&rt, FILTERED, &[child(&a), child(&filter)], &all);
    Ok(())
}

#[test]
fn numbers_by_their_values(rt: HostRuntime) -> Tested {
    let itself = Comparable::Query(SingularQuery::Relative(&[]));
    let equal = [
        ("1", "1.0"),
        ("1", "1e0"),
        ("1.0", "10e-1"),
        ("0.001E+3", "1"),
        ("-0", "0"),
        ("-0.0e7", "0"),
        ("100", "1e2"),
        (
            "340282366920938463463374607431768211455",
            "340282366920938463463374607431768211455.0",
        ),
        (
            "-170141183460469231731687303715884105728",
            "-170141183460469231731687303715884105728e0",
        ),
        ("0.10e100000000000000000000", "1e99999999999999999999"),
        ("1000e-100000000000000000002", "1e-99999999999999999999"),
    ];
    for (one, other) in equal {
        assert_compares(&rt, one, itself, Comparison::Equal, number(other), true);
        assert_compares(&rt, other, itself, Comparison::Equal, number(one), true);
        assert_compares(&rt, one, itself, Comparison::Less, number(other), false);
        assert_compares(&rt, one, itself, Comparison::Greater, number(other), false);
    }
    let less = [
        ("1", "1.0000000000000000000000000000000000000000001"),
        ("-1.0000000000000000000000000000000000000000001", "-1"),
        ("9007199254740992.5", "9007199254740993"),
        ("9007199254740992", "9007199254740993"),
        (
            "340282366920938463463374607431768211455",
            "340282366920938463463374607431768211455.5",
        ),
        ("-1", "0"),
        ("-1e-99999999999999999999", "0"),
        ("0", "1e-99999999999999999999"),
        ("9.99e99999999999999999998", "1e99999999999999999999"),
        ("-1e99999999999999999999", "-9.99e99999999999999999998"),
        ("1e-100000000000000000000", "1e-99999999999999999999"),
        ("99", "1e2"),
        ("1.09", "1.1"),
        ("2", "10"),
    ];
    for (one, other) in less {
        assert_compares(&rt, one, itself, Comparison::Less, number(other), true);
        assert_compares(&rt, other, itself, Comparison::Greater, number(one), true);
        assert_compares(&rt, one, itself, Comparison::Equal, number(other), false);
        assert_compares(
            &rt,
            other,
            itself,
            Comparison::LessOrEqual,
            number(one),
            false,
        );
    }
    Ok(())
}

// Characters above U+FFFF come after all others.
#[test]
fn strings_by_their_characters(rt: HostRuntime) -> Tested {
    let itself = Comparable::Query(SingularQuery::Relative(&[]));
    let less = [
        ("\"\"", "a"),
        ("\"a\"", "ab"),
        ("\"a\\u0000\"", "ab"),
        ("\"\\uFFFD\"", "\u{10000}"),
        ("\"z\"", "\u{E9}"),
    ];
    for (one, other) in less {
        assert_compares(&rt, one, itself, Comparison::Less, string(other), true);
        assert_compares(
            &rt,
            one,
            itself,
            Comparison::GreaterOrEqual,
            string(other),
            false,
        );
        assert_compares(&rt, one, itself, Comparison::Equal, string(other), false);
    }
    assert_compares(
        &rt,
        "\"\\u00e9\"",
        itself,
        Comparison::Equal,
        string("\u{E9}"),
        true,
    );
    Ok(())
}

#[test]
fn arrays_and_objects(rt: HostRuntime) -> Tested {
    let left = Comparable::Query(SingularQuery::Relative(&[Step::Index(0)]));
    let right = Comparable::Query(SingularQuery::Relative(&[Step::Index(1)]));
    let rows = [
        ("[[1,[2.0]],[1.0,[2]]]", true),
        ("[[1,2],[2,1]]", false),
        ("[[1,2],[1]]", false),
        ("[[1],[1,2]]", false),
        ("[[],{}]", false),
        ("[{\"a\":1,\"b\":[{}]},{\"b\":[{}],\"a\":1e0}]", true),
        ("[{\"a\":1},{\"a\":1,\"b\":2}]", false),
        ("[{\"a\":1,\"b\":2},{\"a\":1}]", false),
        ("[{\"a\":1},{\"b\":1}]", false),
        ("[{\"a\":1,\"a\":2},{\"a\":1}]", true),
        ("[{\"a\":1},{\"a\":1,\"a\":2}]", true),
        ("[{\"a\":2,\"a\":1},{\"a\":1}]", false),
        ("[null,false]", false),
        ("[null,null]", true),
    ];
    for (document, wanted) in rows {
        assert_compares(&rt, document, left, Comparison::Equal, right, wanted);
        assert_compares(&rt, document, right, Comparison::NotEqual, left, !wanted);
        assert_compares(&rt, document, left, Comparison::Less, right, false);
        assert_compares(&rt, document, left, Comparison::LessOrEqual, right, wanted);
    }
    Ok(())
}

// Sections 2.4.4, 2.4.5 and 2.4.8.
#[test]
fn functions(rt: HostRuntime) -> Tested {
    let itself = SingularQuery::Relative(&[]);
    let a = SingularQuery::Relative(&[Step::Name("a")]);
    let argument = Comparable::Query(itself);
    let length = Comparable::Length(&argument);
    let rows = [
        ("\"\"", "0"),
        ("\"a\\u00e9\\ud834\\udd1e\"", "3"),
        ("[1,[2,3]]", "2"),
        ("{\"a\":1,\"b\":{}}", "2"),
    ];
    for (document, wanted) in rows {
        assert_compares(
            &rt,
            document,
            length,
            Comparison::Equal,
            number(wanted),
            true,
        );
    }
    let nothing = Comparable::Query(a);
    for document in ["1", "1.5", "true", "null"] {
        assert_compares(&rt, document, length, Comparison::Equal, nothing, true);
    }
    let of_text = string("\u{1D11E}");
    assert_compares(
        &rt,
        "1",
        Comparable::Length(&of_text),
        Comparison::Equal,
        number("1"),
        true,
    );
    assert_compares(
        &rt,
        "\"b\"",
        Comparable::Length(&length),
        Comparison::Equal,
        nothing,
        true,
    );
    let count = Comparable::Count(singular(a));
    assert_compares(
        &rt,
        "{\"a\":null}",
        count,
        Comparison::Equal,
        number("1.0"),
        true,
    );
    assert_compares(
        &rt,
        "{\"b\":null}",
        count,
        Comparison::Equal,
        number("0"),
        true,
    );
    let value = Comparable::Value(singular(a));
    assert_compares(
        &rt,
        "{\"a\":7}",
        value,
        Comparison::Equal,
        number("7"),
        true,
    );
    assert_compares(&rt, "{\"b\":7}", value, Comparison::Equal, nothing, true);
    Ok(())
}

#[test]
fn many_operands_take_no_stack(rt: HostRuntime) -> Tested {
    let arena = Bump::new(rt.alloc());
    let itself = Test::Exists(singular(SingularQuery::Relative(&[])));
    let nothing = Test::Not(&itself);
    let mut all = &itself;
    let mut one = &itself;
    for _ in 0..100_000 {
        let more = arena.try_alloc_slice_copy(&[Test::And(&itself, all), Test::Or(&nothing, one)])?;
        assert_eq!(rt; more.len(), 2);
        all = &more[0];
        one = &more[1];
    }
    let mut input = *b"[0]";
    let tape = to_tape(rt.alloc(), &mut input)?;
    assert!(rt; !tape.is_empty());
    let filter = Filter { test: all };
    assert!(rt; filter.holds(&tape.as_value()));
    let filter = Filter { test: one };
    assert!(rt; filter.holds(&tape.as_value()));
    Ok(())
}
