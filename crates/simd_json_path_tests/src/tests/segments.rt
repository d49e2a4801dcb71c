// The examples of RFC 9535, sections 1.5, 2.5.1, 2.5.2 and 2.6.
use crate::tests::{ALL, Tested, assert_selects, child, descendant, index, name};
use simd_json_path::{Choice, Selector, Slice};

const DEEP: &str = "{\"o\":{\"j\":1,\"k\":2},\"a\":[5,3,[{\"j\":4},{\"k\":6}]]}";

const NULLS: &str = "{\"a\":null,\"b\":[null],\"c\":[{}],\"null\":1}";

const STORE: &str = "{\"store\":{\"book\":[\
    {\"category\":\"reference\",\"author\":\"Nigel Rees\",\"price\":8.95},\
    {\"category\":\"fiction\",\"author\":\"Evelyn Waugh\",\"price\":12.99},\
    {\"category\":\"fiction\",\"author\":\"Herman Melville\",\
    \"isbn\":\"0-553-21311-3\",\"price\":8.99},\
    {\"category\":\"fiction\",\"author\":\"J. R. R. Tolkien\",\
    \"isbn\":\"0-395-19395-8\",\"price\":22.99}],\
    \"bicycle\":{\"color\":\"red\",\"price\":399}}}";

#[test]
fn children(rt: HostRuntime) -> Tested {
    let letters = "[\"a\",\"b\",\"c\",\"d\",\"e\",\"f\",\"g\"]";
    let two = [index(0), index(3)];
    assert_selects(&rt, letters, &[child(&two)], &["\"a\"", "\"d\""]);
    let front = Selector::Choice(Choice::Slice(Slice {
        start: Some(0),
        end: Some(2),
        step: 1,
    }));
    let union = [front, index(5)];
    assert_selects(&rt, letters, &[child(&union)], &["\"a\"", "\"b\"", "\"f\""]);
    let twice = [index(0), index(0)];
    assert_selects(&rt, letters, &[child(&twice)], &["\"a\"", "\"a\""]);
    assert_selects(&rt, letters, &[child(&[])], &[]);
    Ok(())
}

#[test]
fn descendants(rt: HostRuntime) -> Tested {
    let j = [name("j")];
    let o = [name("o")];
    let a = [name("a")];
    let all = [ALL];
    let twice = [ALL, ALL];
    let first = [index(0)];
    let two = [index(0), index(1)];
    assert_selects(&rt, DEEP, &[descendant(&j)], &["1", "4"]);
    assert_selects(&rt, DEEP, &[descendant(&first)], &["5", "{\"j\":4}"]);
    assert_selects(
        &rt,
        DEEP,
        &[descendant(&all)],
        &[
            "{\"j\":1,\"k\":2}",
            "[5,3,[{\"j\":4},{\"k\":6}]]",
            "1",
            "2",
            "5",
            "3",
            "[{\"j\":4},{\"k\":6}]",
            "{\"j\":4}",
            "{\"k\":6}",
            "4",
            "6",
        ],
    );
    assert_selects(&rt, DEEP, &[descendant(&o)], &["{\"j\":1,\"k\":2}"]);
    assert_selects(
        &rt,
        DEEP,
        &[child(&o), descendant(&twice)],
        &["1", "2", "1", "2"],
    );
    assert_selects(
        &rt,
        DEEP,
        &[child(&a), descendant(&two)],
        &["5", "3", "{\"j\":4}", "{\"k\":6}"],
    );
    Ok(())
}

#[test]
fn descendants_of_descendants_come_more_than_once(rt: HostRuntime) -> Tested {
    let all = [ALL];
    let segments = [descendant(&all), descendant(&all)];
    assert_selects(&rt, "[[[1]]]", &segments, &["[1]", "1", "1"]);
    Ok(())
}

#[test]
fn null_is_a_value(rt: HostRuntime) -> Tested {
    let a = [name("a")];
    let b = [name("b")];
    let null = [name("null")];
    let first = [index(0)];
    let all = [ALL];
    assert_selects(&rt, NULLS, &[child(&a)], &["null"]);
    assert_selects(&rt, NULLS, &[child(&a), child(&first)], &[]);
    assert_selects(&rt, NULLS, &[child(&a), child(&b)], &[]);
    assert_selects(&rt, NULLS, &[child(&b), child(&first)], &["null"]);
    assert_selects(&rt, NULLS, &[child(&b), child(&all)], &["null"]);
    assert_selects(&rt, NULLS, &[child(&null)], &["1"]);
    Ok(())
}

#[test]
fn the_store(rt: HostRuntime) -> Tested {
    let store = [name("store")];
    let book = [name("book")];
    let author = [name("author")];
    let price = [name("price")];
    let publisher = [name("publisher")];
    let all = [ALL];
    let third = [index(2)];
    let last = [index(-1)];
    let authors = [
        "\"Nigel Rees\"",
        "\"Evelyn Waugh\"",
        "\"Herman Melville\"",
        "\"J. R. R. Tolkien\"",
    ];
    let prices = ["8.95", "12.99", "8.99", "22.99", "399"];
    let each = [child(&store), child(&book), child(&all), child(&author)];
    assert_selects(&rt, STORE, &each, &authors);
    assert_selects(&rt, STORE, &[descendant(&author)], &authors);
    assert_selects(&rt, STORE, &[child(&store), descendant(&price)], &prices);
    let thirds = [descendant(&book), child(&third), child(&author)];
    assert_selects(&rt, STORE, &thirds, &["\"Herman Melville\""]);
    let none = [descendant(&book), child(&third), child(&publisher)];
    assert_selects(&rt, STORE, &none, &[]);
    let lasts = [descendant(&book), child(&last), child(&author)];
    assert_selects(&rt, STORE, &lasts, &["\"J. R. R. Tolkien\""]);
    Ok(())
}

#[test]
fn of_equal_names_a_name_selects_the_first_and_a_wildcard_all(rt: HostRuntime) -> Tested {
    let document = "{\"a\":1,\"b\":2,\"a\":3}";
    assert_selects(&rt, document, &[child(&[name("a")])], &["1"]);
    assert_selects(&rt, document, &[child(&[ALL])], &["1", "2", "3"]);
    Ok(())
}
