// The examples of RFC 9535, sections 2.3.1 to 2.3.4.
use crate::tests::{ALL, Tested, assert_path_selects, assert_selects, child, index, name};
use simd_json_path::{Choice, Path, Selector, Slice, Step};

const NAMES: &str = "{\"o\":{\"j j\":{\"k.k\":3}},\"'\":{\"@\":2}}";

const WILD: &str = "{\"o\":{\"j\":1,\"k\":2},\"a\":[5,3]}";

const LETTERS: &str = "[\"a\",\"b\",\"c\",\"d\",\"e\",\"f\",\"g\"]";

fn slice(start: Option<i64>, end: Option<i64>, step: i64) -> Selector<'static> {
    Selector::Choice(Choice::Slice(Slice { start, end, step }))
}

#[test]
fn names(rt: HostRuntime) -> Tested {
    let o = [name("o")];
    let j = [name("j j")];
    let k = [name("k.k")];
    let quote = [name("'")];
    let at = [name("@")];
    assert_selects(&rt, NAMES, &[child(&o), child(&j)], &["{\"k.k\":3}"]);
    assert_selects(&rt, NAMES, &[child(&o), child(&j), child(&k)], &["3"]);
    assert_selects(&rt, NAMES, &[child(&quote), child(&at)], &["2"]);
    assert_selects(&rt, NAMES, &[child(&k)], &[]);
    Ok(())
}

#[test]
fn wildcards(rt: HostRuntime) -> Tested {
    let o = [name("o")];
    let a = [name("a")];
    let all = [ALL];
    let twice = [ALL, ALL];
    assert_selects(&rt, WILD, &[child(&all)], &["{\"j\":1,\"k\":2}", "[5,3]"]);
    assert_selects(&rt, WILD, &[child(&o), child(&all)], &["1", "2"]);
    assert_selects(
        &rt,
        WILD,
        &[child(&o), child(&twice)],
        &["1", "2", "1", "2"],
    );
    assert_selects(&rt, WILD, &[child(&a), child(&all)], &["5", "3"]);
    assert_selects(&rt, WILD, &[], &[WILD]);
    Ok(())
}

#[test]
fn indexes(rt: HostRuntime) -> Tested {
    assert_selects(&rt, "[\"a\",\"b\"]", &[child(&[index(1)])], &["\"b\""]);
    assert_selects(&rt, "[\"a\",\"b\"]", &[child(&[index(-2)])], &["\"a\""]);
    assert_selects(&rt, "[\"a\",\"b\"]", &[child(&[index(2)])], &[]);
    assert_selects(&rt, "[\"a\",\"b\"]", &[child(&[index(-3)])], &[]);
    assert_selects(&rt, "[\"a\",\"b\"]", &[child(&[index(i64::MIN)])], &[]);
    assert_selects(&rt, "{\"0\":1}", &[child(&[index(0)])], &[]);
    Ok(())
}

#[test]
fn slices(rt: HostRuntime) -> Tested {
    let cases = [
        (slice(Some(1), Some(3), 1), "bc"),
        (slice(Some(5), None, 1), "fg"),
        (slice(Some(1), Some(5), 2), "bd"),
        (slice(Some(5), Some(1), -2), "fd"),
        (slice(None, None, -1), "gfedcba"),
        (slice(None, None, 0), ""),
        (slice(Some(-3), Some(-1), 1), "ef"),
        (slice(Some(-2), Some(-6), -3), "fc"),
        (slice(Some(i64::MIN), Some(i64::MAX), 3), "adg"),
        (slice(Some(i64::MAX), Some(i64::MIN), -3), "gda"),
        (slice(None, None, i64::MAX), "a"),
        (slice(None, None, i64::MIN), "g"),
        (slice(Some(3), Some(1), 1), ""),
        (slice(Some(1), Some(3), -1), ""),
    ];
    for (selector, letters) in cases {
        let mut wanted = Vec::new(rt.alloc());
        for letter in letters.chars() {
            wanted.push(format!(in rt.alloc(); "\"{letter}\"")?)?;
        }
        let mut texts = Vec::new(rt.alloc());
        for text in &wanted {
            texts.push(text.as_str())?;
        }
        assert_selects(&rt, LETTERS, &[child(&[selector])], texts.as_slice());
    }
    Ok(())
}

#[test]
fn steps_are_segments_of_one_name_or_index(rt: HostRuntime) -> Tested {
    let mut each = child(&[ALL]);
    each.steps = &[Step::Name("a"), Step::Index(-1)];
    let path = Path {
        steps: &[Step::Index(1), Step::Name("x")],
        segments: &[each],
    };
    let document = "[0,{\"x\":[{\"a\":[1,2]},{\"a\":[]},3,{\"b\":[4]},{\"a\":[[5]]}]}]";
    assert_path_selects(&rt, document, &path, &["2", "[5]"]);
    let nowhere = Path {
        steps: &[Step::Index(1), Step::Name("y")],
        segments: &[],
    };
    assert_path_selects(&rt, document, &nowhere, &[]);
    Ok(())
}
