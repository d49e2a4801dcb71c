// Normalized paths (RFC 9535, section 2.7).
use crate::tests::Tested;
use bumpalo::Bump;
use simd_json::to_tape;
use simd_json_path::{Frame, Path};
use std::process::Abort;

// A query selects these values of a document, printed compactly, with these paths; and each path,
// read as a query, that value alone, with the same path.
fn assert_located(
    rt: &(impl AllocGlobal + Abort),
    document: &str,
    query: &str,
    wanted: &[(&str, &str)],
) {
    let mut input = Vec::from_slice(rt.alloc(), document.as_bytes()).expect(rt, "memory");
    let tape = to_tape(rt.alloc(), input.as_mut_slice()).expect(rt, "a document");
    assert!(rt; !tape.is_empty());
    let arena = Bump::new(rt.alloc());
    let path = Path::new(&arena, query).expect(rt, "a query");
    let located = path
        .locate(rt.alloc(), &tape.as_value())
        .expect(rt, "memory");
    assert_eq!(rt; located.len(), wanted.len());
    for (one, (place, value)) in located.iter().zip(wanted) {
        assert_eq!(rt; one.path.as_str(), *place);
        let text = one.value.encode(rt.alloc()).expect(rt, "memory");
        assert_eq!(rt; text.as_str(), *value);
        let back = Path::new(&arena, one.path.as_str()).expect(rt, "a query");
        let again = back
            .locate(rt.alloc(), &tape.as_value())
            .expect(rt, "memory");
        assert_eq!(rt; again.len(), 1);
        assert_eq!(rt; again[0].path.as_str(), *place);
        assert_eq!(rt; again[0].value, one.value);
    }
}

#[test]
fn the_examples_of_the_rfc(rt: HostRuntime) -> Tested {
    assert_located(&rt, r#"{"a":1}"#, "$.a", &[("$['a']", "1")]);
    assert_located(&rt, "[0,1]", "$[1]", &[("$[1]", "1")]);
    assert_located(&rt, "[0,1,2,3,4]", "$[-3]", &[("$[2]", "2")]);
    let nested = r#"{"a":{"b":[0,1,2]}}"#;
    assert_located(&rt, nested, "$.a.b[1:2]", &[("$['a']['b'][1]", "1")]);
    let control = r#"{"\u000b":1}"#;
    assert_located(&rt, control, r#"$["\u000B"]"#, &[(r#"$['\u000b']"#, "1")]);
    assert_located(&rt, r#"{"a":1}"#, r#"$["\u0061"]"#, &[("$['a']", "1")]);
    Ok(())
}

#[test]
fn all_kinds_of_selectors(rt: HostRuntime) -> Tested {
    let text = "[{\"a\":[0,1,2,3,4]},{\"b\":{\"a\":[7]}},5]";
    assert_located(&rt, text, "$", &[("$", text)]);
    assert_located(&rt, text, "$.*.b", &[("$[1]['b']", "{\"a\":[7]}")]);
    assert_located(
        &rt,
        text,
        "$[0].a[4,-5,::-2]",
        &[
            ("$[0]['a'][4]", "4"),
            ("$[0]['a'][0]", "0"),
            ("$[0]['a'][4]", "4"),
            ("$[0]['a'][2]", "2"),
            ("$[0]['a'][0]", "0"),
        ],
    );
    assert_located(
        &rt,
        text,
        "$[0].a[1::2]",
        &[("$[0]['a'][1]", "1"), ("$[0]['a'][3]", "3")],
    );
    assert_located(
        &rt,
        text,
        "$[0].a[1:9223372036854:9007199254740991]",
        &[("$[0]['a'][1]", "1")],
    );
    assert_located(
        &rt,
        text,
        "$..a[0]",
        &[("$[0]['a'][0]", "0"), ("$[1]['b']['a'][0]", "7")],
    );
    assert_located(
        &rt,
        text,
        "$..[?@.a[0] == 7]..[0]",
        &[("$[1]['b']['a'][0]", "7")],
    );
    assert_located(
        &rt,
        text,
        "$..*",
        &[
            ("$[0]", "{\"a\":[0,1,2,3,4]}"),
            ("$[1]", "{\"b\":{\"a\":[7]}}"),
            ("$[2]", "5"),
            ("$[0]['a']", "[0,1,2,3,4]"),
            ("$[0]['a'][0]", "0"),
            ("$[0]['a'][1]", "1"),
            ("$[0]['a'][2]", "2"),
            ("$[0]['a'][3]", "3"),
            ("$[0]['a'][4]", "4"),
            ("$[1]['b']", "{\"a\":[7]}"),
            ("$[1]['b']['a']", "[7]"),
            ("$[1]['b']['a'][0]", "7"),
        ],
    );
    Ok(())
}

#[test]
fn characters_are_escaped(rt: HostRuntime) -> Tested {
    assert_located(
        &rt,
        r#"{"'\\\"\b\t\n\f\r\u0000\u001f\u007f/ü😀":1}"#,
        "$.*",
        &[("$['\\'\\\\\"\\b\\t\\n\\f\\r\\u0000\\u001f\u{7f}/ü😀']", "1")],
    );
    Ok(())
}

// Numbers that look random, from a seed.
#[derive(Drop)]
struct Random {
    state: u64,
}

impl Random {
    // The next one of so many.
    fn below(&mut self, count: u64) -> u64 {
        self.state = self
            .state
            .wrapping_mul(6_364_136_223_846_793_005)
            .wrapping_add(1_442_695_040_888_963_407);
        (self.state >> 33) % count.max(1)
    }
}

// Appends a value of at most so many levels, whose objects have no key twice.
fn append_value(rt: &impl Abort, text: &mut String, random: &mut Random, levels: u64) {
    let count = random.below(4);
    match random.below(if levels == 0 { 2 } else { 5 }) {
        0 => text.push_str("1.5").expect(rt, "memory"),
        1 => text.push_str("\"a'b\"").expect(rt, "memory"),
        2 => {
            text.push('[').expect(rt, "memory");
            for index in 0..count {
                if index > 0 {
                    text.push(',').expect(rt, "memory");
                }
                append_value(rt, text, random, levels.saturating_sub(1));
            }
            text.push(']').expect(rt, "memory");
        }
        _ => {
            text.push('{').expect(rt, "memory");
            for index in 0..count {
                if index > 0 {
                    text.push(',').expect(rt, "memory");
                }
                append_key(rt, text, random, index);
                append_value(rt, text, random, levels.saturating_sub(1));
            }
            text.push('}').expect(rt, "memory");
        }
    }
}

// Appends a key that ends with a digit, and a colon.
fn append_key(rt: &impl Abort, text: &mut String, random: &mut Random, digit: u64) {
    let parts = [
        "'",
        "\\\\",
        "\\\"",
        "\\b",
        "\\t",
        "\\n",
        "\\f",
        "\\r",
        "\\u0000",
        "\\u001b",
        "\\u007f",
        "ü",
        "😀",
        "]",
        "$",
        "",
        "a b",
        "\\ud83d\\ude00",
    ];
    let digits = ["0", "1", "2", "3"];
    text.push('"').expect(rt, "memory");
    for _ in 0..random.below(4) {
        let part = parts.get(random.below(18) as usize).expect(rt, "a part");
        text.push_str(part).expect(rt, "memory");
    }
    text.push_str(digits.get(digit as usize).expect(rt, "a digit"))
        .expect(rt, "memory");
    text.push_str("\":").expect(rt, "memory");
}

// A path that `locate` returns, read as a query, selects its value alone: of all values of random
// documents.
#[test]
fn a_normalized_path_selects_its_value_alone(rt: HostRuntime) -> Tested {
    let mut random = Random { state: 7 };
    let mut count = 0usize;
    for _ in 0..300 {
        let mut text = String::new(rt.alloc());
        append_value(&rt, &mut text, &mut random, 5);
        let mut input = Vec::from_slice(rt.alloc(), text.as_bytes())?;
        let tape = to_tape(rt.alloc(), input.as_mut_slice())?;
        assert!(rt; !tape.is_empty());
        let arena = Bump::new(rt.alloc());
        let all = Path::new(&arena, "$..*").expect(&rt, "a query");
        let located = all.locate(rt.alloc(), &tape.as_value())?;
        let values = all.all(rt.alloc(), &tape.as_value())?;
        assert_eq!(rt; located.len(), values.len());
        for (one, value) in located.iter().zip(values.iter()) {
            let back = Path::new(&arena, one.path.as_str()).expect(&rt, "a query");
            assert!(rt; back.is_singular());
            let again = back.locate(rt.alloc(), &tape.as_value())?;
            assert_eq!(rt; again.len(), 1);
            assert_eq!(rt; again[0].path.as_str(), one.path.as_str());
            assert_eq!(rt; again[0].value, *value);
            count = count.saturating_add(1);
        }
        for other in located.iter() {
            let mut same = 0usize;
            for one in located.iter() {
                if one.path.as_str() == other.path.as_str() {
                    same = same.saturating_add(1);
                }
            }
            assert_eq!(rt; same, 1);
        }
    }
    assert!(rt; count > 200);
    Ok(())
}
