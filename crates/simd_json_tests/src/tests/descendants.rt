// The iterators over a value and the values beneath it.
use crate::tests::Tested;
use simd_json::tape::Value;
use simd_json::to_tape;
use std::process::Abort;

// The values at most a number of levels beneath a value.
const AT_MOST_1: [&str; 3] = [
    "{\"a\":[1,{\"b\":[]},\"x\"],\"c\":null}",
    "[1,{\"b\":[]},\"x\"]",
    "null",
];

const AT_MOST_2: [&str; 6] = [
    "{\"a\":[1,{\"b\":[]},\"x\"],\"c\":null}",
    "[1,{\"b\":[]},\"x\"]",
    "1",
    "{\"b\":[]}",
    "\"x\"",
    "null",
];

const AT_MOST_8: [&str; 7] = [
    "{\"a\":[1,{\"b\":[]},\"x\"],\"c\":null}",
    "[1,{\"b\":[]},\"x\"]",
    "1",
    "{\"b\":[]}",
    "[]",
    "\"x\"",
    "null",
];

fn assert_text(rt: &(impl AllocGlobal + Abort), value: &Value<'_, '_>, text: &str) {
    let encoded = value.encode(rt.alloc()).expect(rt, "there is memory");
    assert_eq!(rt; encoded.as_str(), text);
}

#[test]
fn values_are_in_the_order_of_the_document(rt: HostRuntime) -> Tested {
    let mut input = *b"{\"a\":[1,{\"b\":[]},\"x\"],\"c\":null}";
    let tape = to_tape(rt.alloc(), &mut input)?;
    assert!(rt; !tape.is_empty());
    let value = tape.as_value();
    assert_eq!(rt; value.descendants::<0>().count(), 1);
    assert_eq!(rt; value.descendants::<1>().count(), 3);
    assert_eq!(rt; value.descendants::<2>().count(), 6);
    assert_eq!(rt; value.descendants::<8>().count(), 7);
    for (beneath, text) in value.descendants::<1>().zip(&AT_MOST_1) {
        assert_text(&rt, &beneath, text);
    }
    for (beneath, text) in value.descendants::<2>().zip(&AT_MOST_2) {
        assert_text(&rt, &beneath, text);
    }
    for (beneath, text) in value.descendants::<8>().zip(&AT_MOST_8) {
        assert_text(&rt, &beneath, text);
    }
    Ok(())
}

const AFTER_CONTAINERS: [&str; 8] = [
    "[{\"k\":{\"l\":1},\"m\":\"v\"},[2],\"w\"]",
    "{\"k\":{\"l\":1},\"m\":\"v\"}",
    "{\"l\":1}",
    "1",
    "\"v\"",
    "[2]",
    "2",
    "\"w\"",
];

#[test]
fn strings_after_containers_are_values(rt: HostRuntime) -> Tested {
    let mut input = *b"[{\"k\":{\"l\":1},\"m\":\"v\"},[2],\"w\"]";
    let tape = to_tape(rt.alloc(), &mut input)?;
    assert!(rt; !tape.is_empty());
    let value = tape.as_value();
    assert_eq!(rt; value.descendants::<8>().count(), 8);
    for (beneath, text) in value.descendants::<8>().zip(&AFTER_CONTAINERS) {
        assert_text(&rt, &beneath, text);
    }
    Ok(())
}

#[test]
fn deep_nesting_is_passed_through(rt: HostRuntime) -> Tested {
    let mut input = [b'['; 2000];
    for byte in input[1000..].iter_mut() {
        *byte = b']';
    }
    let tape = to_tape(rt.alloc(), &mut input)?;
    assert!(rt; !tape.is_empty());
    let value = tape.as_value();
    assert_eq!(rt; value.descendants::<1024>().count(), 1000);
    assert_eq!(rt; value.descendants::<10>().count(), 11);
    let mut passed = value.descendants::<0>();
    assert!(rt; passed.next().is_some());
    assert!(rt; passed.next().is_none());
    assert!(rt; passed.next().is_none());
    Ok(())
}

const CONTAINERS: [&str; 5] = [
    "{\"a\":[{},\"b\",[1]],\"c\":{\"d\":\"e\"}}",
    "[{},\"b\",[1]]",
    "{}",
    "[1]",
    "{\"d\":\"e\"}",
];

#[test]
fn arrays_and_objects_are_in_the_order_of_the_document(rt: HostRuntime) -> Tested {
    let mut input = *b"{\"a\":[{},\"b\",[1]],\"c\":{\"d\":\"e\"}}";
    let tape = to_tape(rt.alloc(), &mut input)?;
    assert!(rt; !tape.is_empty());
    let value = tape.as_value();
    assert_eq!(rt; value.containers().count(), 5);
    for (container, text) in value.containers().zip(&CONTAINERS) {
        assert_text(&rt, &container, text);
    }
    assert!(rt; Value::null().containers().next().is_none());
    Ok(())
}
